// What the listing and the passes program print, put into a lent output as far as there is room.
#![tactic(auto)]

ghost use Rattle.std.specs.Prelude.{◌≡◌, ℕ, [], ◌∷◌, ◌+◌, ◌*◌, ◌<◌, map, min};
ghost use Rattle.definition.specs.Limits.{entry_size, width};
ghost use Rattle.definition.specs.Field.{digit0};
ghost use Rattle.definition.specs.Iec.{signed_of};
ghost use Rattle.definition.specs.Sheet.{read_sheet};
ghost use Rattle.definition.specs.Lent.{entries_of};
ghost use Rattle.definition.specs.Rewrite.{decode};
ghost use Rattle.definition.specs.Listing.{decimal, signed_decimal, fields, number_line, constant_lines, entry_lines, instruction_lines};
ghost use Rattle.definition.specs.Passes.{malformed_line, offset_lines, refusal_line};
ghost use Rattle.opcode.specs.Table.{IsTable, sheet_in};
ghost use Rattle.store.specs.Store.{at, push, push_all};
ghost use Rattle.text.specs.Text.{store_of, field_of, constant_line, instruction_line, instructions_by, text_room, listing_room};

use definition::{ENTRY_SIZE, MAX_CODE, MAX_CONSTANTS, MAX_LINES, MAX_PROTECTED, WIDTH};
use opcode::sheet;

// Bytes that hold any text of the passes program.
pub const TEXT_ROOM: usize = 33
    + MAX_PROTECTED * 8
    + MAX_LINES * (2 + ENTRY_SIZE * 6)
    + MAX_CODE * 12;

// Bytes that hold any listing.
pub const LISTING_ROOM: usize = 41
    + MAX_CONSTANTS * 14
    + MAX_LINES * (2 + ENTRY_SIZE * 6)
    + MAX_CODE * 12;

// How many values the width has, and how many of them are negative.
const VALUES: u64 = 1 << WIDTH;

const NEGATIVES: u64 = 1 << (WIDTH - 1);

const COMMA: u8 = 44;

const LF: u8 = 10;

pub fn text_room() -> usize
    ensures { result ≡ text_room }
{
    TEXT_ROOM
}

pub fn listing_room() -> usize
    ensures { result ≡ listing_room }
{
    LISTING_ROOM
}

// ---- numbers

// A number that is printed.
pub trait Number: Copy {
    ghost value: { Self → ℕ };

    fn wide(self) -> u64
        ensures { result ≡ value self };
}

impl Number for u8 {
    ghost value = { λ n. n };

    fn wide(self) -> u64 {
        u64::from(self)
    }
}

impl Number for u16 {
    ghost value = { λ n. n };

    // In another form than u8's: a must-fail edit names a text that stands once.
    fn wide(self) -> u64 {
        self.into()
    }
}

// A digit's byte.
fn digit(n: u64) -> u8
    requires { n < 10 }
    ensures { result ≡ digit0 + n }
{
    b'0' + n as u8
}

// Numbers that so many entries take in a list of them.
pub fn entry_numbers(entries: usize, room: usize) -> usize
    ensures { result ≡ min (entries * entry_size) room }
{
    if entries > room / ENTRY_SIZE {
        room
    } else {
        entries * ENTRY_SIZE
    }
}

// ---- the output

// A lent output and how much of it is used.
#[derive(Drop)]
pub struct Text<'a> {
    pub out: &'a mut [u8],
    pub used: usize,
}

impl<'a> Text<'a> {
    pub fn new(out: &'a mut [u8]) -> Text<'a>
        ensures is { store_of result ≡ at out.old 0 }
        ensures same { result.out.ghost_name ≡ out.entry.ghost_name }
    {
        Text { out, used: 0 }
    }

    // One byte more.
    pub fn push(&mut self, b: u8)
        ensures is { store_of self.new ≡ push (store_of self.old) b }
        ensures same { self.new.out.ghost_name ≡ self.old.out.ghost_name }
    {
        self.used = store::push(self.out, self.used, b);
    }

    // The digits before the last one first: at most twenty of them, so the calls are no deeper.
    pub fn put_decimal(&mut self, n: u64)
        ensures is { store_of self.new ≡ push_all (store_of self.old) (decimal n) }
        ensures same { self.new.out.ghost_name ≡ self.old.out.ghost_name }
    {
        if n >= 10 {
            self.put_decimal(n / 10);
        }
        self.push(digit(n % 10));
    }

    // The signed number that a value's bits stand for.
    fn put_signed(&mut self, bits: u32)
        ensures is { store_of self.new ≡ push_all (store_of self.old) (signed_decimal (signed_of width bits)) }
        ensures same { self.new.out.ghost_name ≡ self.old.out.ghost_name }
    {
        let n = u64::from(bits);
        if n < NEGATIVES {
            self.put_decimal(n);
        } else {
            self.push(b'-');
            self.put_decimal(VALUES - n);
        }
    }

    // ---- fields

    // A number behind a comma.
    pub fn put_field(&mut self, n: u64)
        ensures is { store_of self.new ≡ push_all (store_of self.old) (field_of n) }
        ensures same { self.new.out.ghost_name ≡ self.old.out.ghost_name }
    {
        self.push(COMMA);
        self.put_decimal(n);
    }

    // The last field of a line.
    pub fn put_last(&mut self, n: u64)
        ensures is { store_of self.new ≡ push_all (store_of self.old) (fields (n ∷ [])) }
        ensures same { self.new.out.ghost_name ≡ self.old.out.ghost_name }
    {
        self.put_field(n);
        self.push(LF);
    }

    // The last three fields of a line.
    pub fn put_three(&mut self, a: u64, b: u64, c: u64)
        ensures is { store_of self.new ≡ push_all (store_of self.old) (fields (a ∷ b ∷ c ∷ [])) }
        ensures same { self.new.out.ghost_name ≡ self.old.out.ghost_name }
    {
        self.put_field(a);
        self.put_field(b);
        self.put_last(c);
    }

    // Numbers as the last fields of a line.
    pub fn put_fields<T: Number>(&mut self, list: &[T])
        ensures is { store_of self.new ≡ push_all (store_of self.old) (fields (map T.value list.now)) }
        ensures same { self.new.out.ghost_name ≡ self.old.out.ghost_name }
    {
        for &n in list {
            self.put_field(n.wide());
        }
        self.push(LF);
    }

    // ---- lines

    // The first line of an answer of the passes program: 0, and how many bytes, offsets and entries it has.
    pub fn put_counts(&mut self, a: u64, b: u64, c: u64)
        ensures is { store_of self.new ≡ push_all (store_of self.old) (number_line 0 (a ∷ b ∷ c ∷ [])) }
        ensures same { self.new.out.ghost_name ≡ self.old.out.ghost_name }
    {
        self.put_decimal(0);
        self.put_three(a, b, c);
    }

    // The first line of a listing: 0, how many bytes it has, its depth, and how many constants and entries.
    pub fn put_sizes(&mut self, a: u64, b: u64, c: u64, d: u64)
        ensures is { store_of self.new ≡ push_all (store_of self.old) (number_line 0 (a ∷ b ∷ c ∷ d ∷ [])) }
        ensures same { self.new.out.ghost_name ≡ self.old.out.ghost_name }
    {
        self.put_decimal(0);
        self.put_field(a);
        self.put_three(b, c, d);
    }

    // A refusal of the call.
    pub fn put_refusal(&mut self, number: u64, place: u64)
        ensures is { store_of self.new ≡ push_all (store_of self.old) (number_line number (place ∷ [])) }
        ensures same { self.new.out.ghost_name ≡ self.old.out.ghost_name }
    {
        self.put_decimal(number);
        self.put_last(place);
    }

    // A line of the input that is malformed.
    pub fn put_malformed(&mut self, line: u64)
        ensures is { store_of self.new ≡ push_all (store_of self.old) (refusal_line malformed_line line) }
        ensures same { self.new.out.ghost_name ≡ self.old.out.ghost_name }
    {
        self.push(b'?');
        self.put_last(line);
    }

    // A line for each protected offset.
    pub fn put_offsets(&mut self, list: &[u16])
        ensures is { store_of self.new ≡ push_all (store_of self.old) (offset_lines list.now) }
        ensures same { self.new.out.ghost_name ≡ self.old.out.ghost_name }
    {
        for &x in list {
            self.push(b'p');
            self.put_last(u64::from(x));
        }
    }

    fn put_constant(&mut self, bits: u32)
        ensures is { store_of self.new ≡ push_all (store_of self.old) (constant_line bits) }
        ensures same { self.new.out.ghost_name ≡ self.old.out.ghost_name }
    {
        self.push(b'k');
        self.push(COMMA);
        self.put_signed(bits);
        self.push(LF);
    }

    // A line for each constant.
    pub fn put_constants(&mut self, list: &[u32])
        ensures is { store_of self.new ≡ push_all (store_of self.old) (constant_lines list.now) }
        ensures same { self.new.out.ghost_name ≡ self.old.out.ghost_name }
    {
        for &bits in list {
            self.put_constant(bits);
        }
    }

    // A line for each entry, which is ENTRY_SIZE numbers of the list; fewer over are none.
    pub fn put_entries(&mut self, list: &[u16])
        ensures is { store_of self.new ≡ push_all (store_of self.old) (entry_lines (entries_of list.now)) }
        ensures same { self.new.out.ghost_name ≡ self.old.out.ghost_name }
    {
        for numbers in list.chunks_exact(ENTRY_SIZE) {
            self.push(b'l');
            self.put_fields(numbers);
        }
    }

    // The line of an instruction that starts at `place`.
    pub fn put_instruction(&mut self, place: u64, bytes: &[u8])
        ensures is { store_of self.new ≡ push_all (store_of self.old) (instruction_line place bytes.now) }
        ensures same { self.new.out.ghost_name ≡ self.old.out.ghost_name }
    {
        self.push(b'b');
        self.put_field(place);
        self.put_fields(bytes);
    }

    // A line for each instruction, by a table that was read.
    #[tactic(auto, using(rewrite::proofs::Decoding::part_within))]
    fn put_decoded(&mut self, table: &[u8], code: &[u8])
        requires { IsTable table.now }
        ensures is { store_of self.new ≡ push_all (store_of self.old) (instruction_lines 0 (decode (sheet_in table.now) code.now)) }
        ensures same { self.new.out.ghost_name ≡ self.old.out.ghost_name }
    {
        let mut place = 0;
        // No `for`: the step is the instruction's size.
        while let Some(i) = rewrite::decode(table, code, place) {
            self.put_instruction(place as u64, i);
            place += i.len();
        }
    }

    // A line for each instruction, by the text of a sheet; none where it is no sheet.
    pub fn put_instructions(&mut self, text: &[u8], code: &[u8])
        ensures is { store_of self.new ≡ push_all (store_of self.old) (instructions_by (read_sheet text.now) code.now) }
        ensures same { self.new.out.ghost_name ≡ self.old.out.ghost_name }
    {
        let mut table = [0u8; sheet::TABLE_SIZE];
        if let Ok(()) = sheet::read_sheet(text, &mut table) {
            self.put_decoded(&table, code);
        }
    }
}
