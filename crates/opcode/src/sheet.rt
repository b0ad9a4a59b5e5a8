// An opcode sheet, read from any bytes into a lent table: the opcodes by role, the comparison bytes, and for each byte the number of
// its role. The table is filled once and then lent as one slice, so that nothing of it is copied at a call.
ghost use Rattle.std.specs.Prelude.{◌≡◌, ◌<◌, length};
ghost use Rattle.definition.specs.View.{res_of};
ghost use Rattle.definition.specs.Field.{has};
ghost use Rattle.definition.specs.Sheet.{field_count};
ghost use Rattle.definition.specs.Opcode.{opcode, comparison_byte};
ghost use Rattle.field.specs.View.{read_of};
ghost use Rattle.opcode.specs.View.{role_view, compare_view};
ghost use Rattle.opcode.specs.Table.{sheet_in, number_in, Listed, group_start};
ghost use Rattle.opcode.specs.Reading.{Answers, Found, Takes, Tabled};

use crate::{CompareOp, Role};
use definition::{COMPARISON_COUNT, ROLE_COUNT, Refusal, Refused};
use field::Fault;

// Fields of a sheet.
const FIELD_COUNT: usize = ROLE_COUNT + COMPARISON_COUNT;
// How many bytes there are.
const BYTE_COUNT: usize = 256;
// Elements of a table: the fields of the sheet, and one for each byte.
pub const TABLE_SIZE: usize = FIELD_COUNT + BYTE_COUNT;
// In a table, the number of a byte that is no opcode. It stands in the lent bytes themselves, so it is a number, and no Option.
pub const UNLISTED: u8 = 255;
// The largest number of a field.
const MAX_BYTE: u32 = 255;

type Table = [u8; TABLE_SIZE];

// The opcode of a role; 0 where the table ends before it.
pub fn opcode_of(sheet: &[u8], role: Role) -> u8
    ensures { result ≡ opcode (sheet_in sheet.now) (role_view role) }
{
    field::byte_or(sheet, usize::from(role.number()), 0)
}

// The byte that stands for a comparison in a CMP_BR; 0 where the table ends before it.
pub fn comparison_byte(sheet: &[u8], op: CompareOp) -> u8
    ensures { result ≡ comparison_byte (sheet_in sheet.now) (compare_view op) }
{
    field::byte_or(sheet, ROLE_COUNT + usize::from(op.index()), 0)
}

// The number of the role of an opcode, as a table that was read lists it (proofs/Tables.antt, `table-number`). UNLISTED for a byte that the
// sheet does not list, and where the table ends before it.
#[tactic(auto, unfolding(crate::specs::Table::number_in))]
pub fn role_number(sheet: &[u8], opcode: u8) -> u8
    ensures { result ≡ number_in sheet.now opcode }
{
    field::byte_or(sheet, FIELD_COUNT + usize::from(opcode), UNLISTED)
}

// Is the byte one of the comparison bytes, as far as the table goes?
pub fn is_comparison(sheet: &[u8], b: u8) -> bool
    ensures { result ≡ has (sheet_in sheet.now).comparisons b }
{
    let end = sheet.len().min(FIELD_COUNT);
    sheet.get(ROLE_COUNT..end).unwrap_or(&[]).contains(&b)
}

// The first field of a field's group: the opcodes or the comparison bytes.
#[tactic(auto, unfolding(crate::specs::Table::group_start))]
fn group_start(i: usize) -> usize
    ensures { result ≡ group_start i }
{
    if i < ROLE_COUNT { 0 } else { ROLE_COUNT }
}

// Each role's number at its opcode, the last role first: what stands there is then the number of the first that has it.
fn list_roles(sheet: &mut Table)
    ensures { Listed sheet.old sheet.new }
{
    store::set_from(sheet, FIELD_COUNT, UNLISTED);
    for i in (0..ROLE_COUNT).rev() {
        let opcode = usize::from(sheet[i]);
        sheet[FIELD_COUNT + opcode] = i as u8;
    }
}

// No sheet, by what is at fault: a field from 1, or 0 for the line or its field count.
fn bad_sheet(place: usize) -> Refused
    ensures { (result.refusal ≡ Refusal.BadSheet) × (result.place ≡ place) }
{
    Refused {
        refusal: Refusal::BadSheet,
        place,
    }
}

// The byte of field `i` into the table. The field is at fault if it is none, or if its group has it already.
fn take_field(sheet: &mut Table, i: usize, read: Result<u32, Fault>) -> Result<(), Refused>
    requires { i < field_count }
    ensures { Takes i (read_of read) sheet.old sheet.new (res_of (λ u. u) result) }
{
    let fault = bad_sheet(i + 1);
    let n = read.or(Err(fault))?;
    let b = u8::try_from(n).or(Err(fault))?;
    if sheet[group_start(i)..i].contains(&b) {
        return Err(fault);
    }
    sheet[i] = b;
    Ok(())
}

// The numbers of a sheet's one line into the table's front, by one look at each byte. A field at fault is answered only if the line and its field
// count are good: place 0 goes before it. Of a byte that stands twice, the later field is at fault.
fn read_fields(text: &[u8], sheet: &mut Table) -> Result<(), Refused>
    ensures { Found text.now sheet.new (res_of (λ u. u) result) }
{
    let mut taken = Ok(());
    let mut at = 0;
    for i in 0..FIELD_COUNT {
        let next = field::next_up_to(text, at, MAX_BYTE);
        if next.stop != field::separator(i, FIELD_COUNT - 1) {
            return Err(bad_sheet(0));
        }
        if taken.is_ok() {
            taken = take_field(sheet, i, next.read);
        }
        at = next.end + 1;
    }
    if at == text.len() {
        taken
    } else {
        Err(bad_sheet(0))
    }
}

// A sheet from any bytes, into the front of a lent table.
fn read_table(text: &[u8], sheet: &mut [u8]) -> Result<(), Refused>
    ensures { Tabled text.now sheet.old sheet.new (res_of (λ u. u) result) }
{
    let short = Refused {
        refusal: Refusal::OutputShort,
        place: 0,
    };
    let table = sheet.first_chunk_mut::<TABLE_SIZE>().ok_or(short)?;
    read_fields(text, table)?;
    list_roles(table);
    Ok(())
}

// A sheet from any bytes, into a table of TABLE_SIZE elements or more: 7, or 14 for a shorter one. What lies behind the table is zeroed, and
// all of it after a refusal.
pub fn read_sheet(text: &[u8], sheet: &mut [u8]) -> Result<(), Refused>
    ensures { Answers (length sheet.old) text.now sheet.new (res_of (λ u. u) result) }
{
    let answer = read_table(text, sheet);
    store::set_from(sheet, if answer.is_ok() { TABLE_SIZE } else { 0 }, 0);
    answer
}
