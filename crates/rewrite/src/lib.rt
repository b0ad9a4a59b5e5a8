// One pass of pair rewriting, in place over lent code (optimize/rewrite.rs). Only our own crates call it: they lend tables that were read.
#![tactic(auto)]

ghost use Rattle.std.specs.Prelude.{◌≡◌, ◌+◌, ◌≤◌, ◌<◌, length, take, drop, IfSome};
ghost use Rattle.definition.specs.Field.{has};
ghost use Rattle.definition.specs.Rewrite.{decode, operand_of, instruction, applied, apply_peephole};
ghost use Rattle.opcode.specs.Table.{IsTable, sheet_in};
ghost use Rattle.rules.specs.View.{action_view, instruction_view};
ghost use Rattle.rewrite.specs.View.{first_of, part_of, marked, matcher, matches_in, Looked, Kept, next_view, Fitting, FittingNext, Ready, Decided, Puts, Clear, Peephole};

use definition::MAX_CODE;
use opcode::sheet;
use rules::{Action, Instruction, Matcher, Rules};

// Elements of a table by offset: one for each offset of the longest code, its end among them.
pub const SLOTS: usize = MAX_CODE + 1;

// An array is cleared whole where it is made: code of up to so many bytes has small tables, and does not pay for the longest code's.
pub const SMALL_CODE: usize = 1024;

pub const SMALL_SLOTS: usize = SMALL_CODE + 1;

// Middle tables, for the same reason: 16 times as long as the small ones, a quarter as long as the longest.
pub const MIDDLE_CODE: usize = 16384;

pub const MIDDLE_SLOTS: usize = MIDDLE_CODE + 1;

// What is decided for one instruction, and what is then known of the next one's action: the second of a matched pair is decided with the first.
#[derive(Clone, Copy)]
pub struct Plan {
    pub size: usize,
    pub action: Action,
    pub next: Option<Action>,
}

// The instruction at a place, as its part of the lent code, if one can be decoded.
pub fn decode<'a>(sheet: &[u8], code: &'a [u8], at: usize) -> Option<&'a [u8]>
    requires { IsTable sheet.now }
    ensures is { part_of result ≡ first_of (decode (sheet_in sheet.now) (drop at code.now)) }
    ensures full { IfSome result (λ i. 1 ≤ length i.now) }
{
    let role = sheet::role_number(sheet, *code.get(at)?);
    if role == sheet::UNLISTED {
        return None;
    }
    code.get(at..at + opcode::size_numbered(role))
}

fn u16_operand(bytes: &[u8]) -> u16
    ensures { result ≡ operand_of bytes.now }
{
    u16::from_le_bytes([field::byte_or(bytes, 1, 0), field::byte_or(bytes, 2, 0)])
}

// An instruction as a rule sees it.
fn seen(sheet: &[u8], bytes: &[u8]) -> Instruction
    requires { IsTable sheet.now }
    ensures { instruction_view result ≡ instruction (sheet_in sheet.now) bytes.now }
{
    let opcode = field::byte_or(bytes, 0, 0);
    Instruction {
        role: sheet::role_number(sheet, opcode),
        operand: u16_operand(bytes),
    }
}

// What an action leaves of the instruction of `size` bytes at `from`, put at `to`, which is not behind it.
fn apply(code: &mut [u8], from: usize, to: usize, size: usize, action: Action) -> usize
    requires to_le_from { (to ≤ from) × (from + size ≤ length code.old) }
    requires fitting { Fitting (action_view action) size }
    ensures { Puts (applied (action_view action) (take size (drop from code.old))) code.old code.new to result }
{
    match action {
        Action::Keep => {
            code.copy_within(from..from + size, to);
            to + size
        }
        Action::Remove => to,
        Action::RewriteOperand(n) => {
            let [low, high] = n.to_le_bytes();
            code[to] = code[from];
            code[to + 1] = low;
            code[to + 2] = high;
            to + 3
        }
    }
}

// Kept, with nothing known of the next one.
fn keep(size: usize) -> Plan
    ensures { Kept size result }
{
    Plan {
        size,
        action: Action::Keep,
        next: None,
    }
}

// Which rule of a pass fits an instruction and the next one.
fn look_up(sheet: &[u8], matcher: &Matcher, first: Instruction, b: &[u8]) -> Option<usize>
    requires { IsTable sheet.now }
    ensures { Looked matcher.now.rules.table.now matcher.now.rules.count (matches_in matcher.now (instruction_view first) (instruction (sheet_in sheet.now) b.now)) result }
{
    matcher.find(first, seen(sheet, b))
}

// Whether a table of marks, bytes that are lent cleared, marks an offset.
fn is_marked(marks: &[u8], at: usize) -> bool
    requires { at < length marks.now }
    ensures { result ≡ has (marked marks.now) at }
{
    marks[at] != 0
}

// What is done with the instruction at a place, and with the next one if the two match.
#[tactic(auto, using(crate::proofs::Decoding::part_within))]
fn decide(
    sheet: &[u8],
    matcher: &Matcher,
    marks: &[u8],
    code: &[u8],
    at: usize,
    next: Option<Action>,
) -> Option<Plan>
    requires ready { Ready sheet.now marks.now code.now }
    requires fitting_next { FittingNext (next_view next) (first_of (decode (sheet_in sheet.now) (drop at code.now))) }
    ensures { Decided (sheet_in sheet.now) (matches_in matcher.now) (marked marks.now) code.now at (next_view next) result }
{
    let a = decode(sheet, code, at)?;
    let size = a.len();
    if let Some(action) = next {
        return Some(Plan {
            size,
            action,
            next: None,
        });
    }
    let first = seen(sheet, a);
    if rules::head(&matcher.index, first.role) == rules::NO_RULE {
        return Some(keep(size));
    }
    let then = at + size;
    let Some(b) = decode(sheet, code, then) else {
        return Some(keep(size));
    };
    if is_marked(marks, at) || is_marked(marks, then) {
        return Some(keep(size));
    }
    let Some(i) = look_up(sheet, matcher, first, b) else {
        return Some(keep(size));
    };
    let pair = rules::actions(matcher.rules.table, i);
    Some(Plan {
        size,
        action: pair[0],
        next: Some(pair[1]),
    })
}

// One pass over a whole slice: it holds the rewritten code and then 0, the map leads from old offsets to new ones, and the new length is answered.
pub fn apply_peephole(
    sheet: &[u8],
    rules: Rules,
    pass: u8,
    marks: &[u8],
    code: &mut [u8],
    moves: &mut [u16],
) -> usize
    requires ready { Ready sheet.now marks.now code.old }
    requires clear { Clear (length code.old) moves.old }
    ensures { Peephole (apply_peephole (sheet_in sheet.now) (matcher rules.entry.table.now rules.entry.count pass) (marked marks.now) code.old) code.old code.new moves.new result }
{
    let matcher = Matcher::new(rules, pass);
    let mut at = 0;
    let mut to = 0;
    let mut next = None;
    // No `for`: the step is the instruction's size.
    while let Some(plan) = decide(sheet, &matcher, marks, code, at, next) {
        moves[at] = to as u16;
        to = apply(code, at, to, plan.size, plan.action);
        at += plan.size;
        next = plan.next;
    }
    moves[at] = to as u16;
    store::set_from(code, to, 0);
    to
}
