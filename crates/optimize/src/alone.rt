// Rewriting and line mapping called alone: refusals in their order (14, 7, 9, 10, 11, 12, 8), then the passes.
ghost use Rattle.std.specs.Prelude.{◌≡◌, ◌≤◌, ◌<◌, suc, length};
ghost use Rattle.definition.specs.Alone.{roomy, Rewrites};
ghost use Rattle.definition.specs.View.{res_of};
ghost use Rattle.rewrite.specs.View.{Clear, slot_count};
ghost use Rattle.opcode.specs.Table.{IsTable, sheet_in};
ghost use Rattle.rules.specs.View.{rules_in};
ghost use Rattle.optimize.specs.View.{given, room, room_of, limited, answer_view, Gives, Finds, Within, Roomy, after_limits, after_rules};

use definition::{ENTRY_SIZE, MAX_CODE, MAX_LINES, MAX_PROTECTED, Refusal, Refused};
use opcode::sheet;
use rewrite::{MIDDLE_CODE, MIDDLE_SLOTS, SLOTS, SMALL_CODE, SMALL_SLOTS};
use rules::Rules;

// How many bytes, protected offsets and entries the outputs hold.
#[derive(Clone, Copy)]
pub struct Rewritten {
    pub bytes: usize,
    pub protected: usize,
    pub entries: usize,
}

// Has each lent output room for any result?
fn roomy(bytes: usize, offsets: usize, entries: usize) -> bool
    ensures { result ≡ roomy (room_of bytes offsets entries) }
{
    store::have_room(
        bytes,
        offsets,
        entries,
        MAX_CODE,
        MAX_PROTECTED,
        MAX_LINES * ENTRY_SIZE,
    )
}

// 10, 11 and 12.
fn check_limits(code: usize, protected: usize, entries: usize) -> Result<(), Refused>
    ensures { res_of (λ u. u) result ≡ limited code protected entries }
{
    let refusal = if code > MAX_CODE {
        Refusal::CodeFull
    } else if protected > MAX_PROTECTED {
        Refusal::LabelsFull
    } else if entries > MAX_LINES {
        Refusal::LinesFull
    } else {
        return Ok(());
    };
    Err(Refused { refusal, place: 0 })
}

// Within the limits: 8, or the code rewritten and the lines mapped. The tables are lent, an element for each offset.
fn rewrite_checked(
    sheet: &[u8],
    rules: Rules,
    code: &[u8],
    protected: &[u16],
    lines: &[u16],
    total: &mut [u16],
    marks: &mut [u8],
    moves: &mut [u16],
    bytes: &mut [u8],
    offsets: &mut [u16],
    entries: &mut [u16],
) -> Result<Rewritten, Refused>
    requires table { IsTable sheet.now }
    requires within { Within (given code.now protected.now lines.now) (room bytes.old offsets.old entries.old) }
    requires clear { Clear (length code.now) total.old }
    requires total_len { length total.old ≡ suc (length code.now) }
    requires clear_2 { Clear (length code.now) marks.old }
    requires clear_3 { Clear (length code.now) moves.old }
    ensures { Gives (room bytes.old offsets.old entries.old) (after_limits (sheet_in sheet.now) (rules_in rules.entry.table.now rules.entry.count) (given code.now protected.now lines.now)) result bytes.new offsets.new entries.new }
{
    if let Err(at) = crate::check(sheet, code, protected, lines, total) {
        return Err(Refused {
            refusal: Refusal::BadCode,
            place: usize::from(at),
        });
    }
    let n = crate::rewrite_into(
        sheet, rules, code, protected, bytes, offsets, total, marks, moves,
    );
    let kept = crate::remap_line_map(total, n, lines, entries);
    Ok(Rewritten {
        bytes: n,
        protected: protected.len(),
        entries: kept,
    })
}

// The same over tables of N elements, of which as many are used as the code has offsets. Never inlined, so that each size has a frame of its own.
#[inline(never)]
fn rewrite_over<const N: usize>(
    sheet: &[u8],
    rules: Rules,
    code: &[u8],
    protected: &[u16],
    lines: &[u16],
    bytes: &mut [u8],
    offsets: &mut [u16],
    entries: &mut [u16],
) -> Result<Rewritten, Refused>
    requires table { IsTable sheet.now }
    requires within { Within (given code.now protected.now lines.now) (room bytes.old offsets.old entries.old) }
    requires slots { length code.now < N }
    requires few { N ≤ slot_count }
    ensures { Gives (room bytes.old offsets.old entries.old) (after_limits (sheet_in sheet.now) (rules_in rules.entry.table.now rules.entry.count) (given code.now protected.now lines.now)) result bytes.new offsets.new entries.new }
{
    let end = code.len() + 1;
    let mut total = [0u16; N];
    let mut marks = [0u8; N];
    let mut moves = [0u16; N];
    rewrite_checked(
        sheet,
        rules,
        code,
        protected,
        lines,
        &mut total[..end],
        &mut marks[..end],
        &mut moves[..end],
        bytes,
        offsets,
        entries,
    )
}

// 10, 11 and 12, then the rest, over small tables, middle ones or the longest.
fn rewrite_limited(
    sheet: &[u8],
    rules: Rules,
    code: &[u8],
    protected: &[u16],
    lines: &[u16],
    bytes: &mut [u8],
    offsets: &mut [u16],
    entries: &mut [u16],
) -> Result<Rewritten, Refused>
    requires table { IsTable sheet.now }
    requires roomy { Roomy (room bytes.old offsets.old entries.old) }
    ensures { Gives (room bytes.old offsets.old entries.old) (after_rules (sheet_in sheet.now) (rules_in rules.entry.table.now rules.entry.count) (given code.now protected.now lines.now)) result bytes.new offsets.new entries.new }
{
    check_limits(code.len(), protected.len(), lines.len() / ENTRY_SIZE)?;
    // A size is a const parameter, so each has its own call.
    if code.len() <= SMALL_CODE {
        rewrite_over::<SMALL_SLOTS>(
            sheet, rules, code, protected, lines, bytes, offsets, entries,
        )
    } else if code.len() <= MIDDLE_CODE {
        rewrite_over::<MIDDLE_SLOTS>(
            sheet, rules, code, protected, lines, bytes, offsets, entries,
        )
    } else {
        rewrite_over::<SLOTS>(
            sheet, rules, code, protected, lines, bytes, offsets, entries,
        )
    }
}

// 14, 7 and 9, then the rest.
fn rewrite_read(
    sheet: &[u8],
    rules: &[u8],
    code: &[u8],
    protected: &[u16],
    lines: &[u16],
    bytes: &mut [u8],
    offsets: &mut [u16],
    entries: &mut [u16],
) -> Result<Rewritten, Refused>
    ensures { Finds (room bytes.old offsets.old entries.old) sheet.now rules.now (given code.now protected.now lines.now) result bytes.new offsets.new entries.new }
{
    if !roomy(bytes.len(), offsets.len(), entries.len()) {
        return Err(Refused {
            refusal: Refusal::OutputShort,
            place: 0,
        });
    }
    let mut roles = [0u8; sheet::TABLE_SIZE];
    sheet::read_sheet(sheet, &mut roles)?;
    let mut rows = [0u16; rules::TABLE_SIZE];
    let count = rules::read_rules(rules, &mut rows)?;
    let rules = Rules {
        table: &rows,
        count,
    };
    rewrite_limited(
        &roles, rules, code, protected, lines, bytes, offsets, entries,
    )
}

// Rewriting and line mapping called alone, from any bytes and numbers: line entries are ENTRY_SIZE numbers each, in and out. A refusal zeroes
// every output.
pub fn rewrite_alone(
    sheet: &[u8],
    rules: &[u8],
    code: &[u8],
    protected: &[u16],
    lines: &[u16],
    bytes: &mut [u8],
    offsets: &mut [u16],
    entries: &mut [u16],
) -> Result<Rewritten, Refused>
    ensures { Rewrites (room bytes.old offsets.old entries.old) sheet.now rules.now (given code.now protected.now lines.now) (answer_view result bytes.new offsets.new entries.new) }
{
    let answer = rewrite_read(
        sheet, rules, code, protected, lines, bytes, offsets, entries,
    );
    if answer.is_err() {
        store::set_from(bytes, 0, 0);
        store::set_from(offsets, 0, 0);
        store::set_from(entries, 0, 0);
    }
    answer
}
