// The input of the listing and of the passes program, read a byte at a time into lent buffers: the code of input_machine's machine.
#![tactic(auto, using(std::proofs::lemmas::Bool::Decides::nat_tests), unfolding(crate::specs::View::open_machine))]

pub mod buffer;

ghost use Rattle.std.specs.Prelude.{◌≡◌};
ghost use Rattle.input_machine.specs.Machine as def;
ghost use Rattle.input_reader.specs.View.{phase_view, head_view, ending_view, state_view, intake_stores, intake_view, begun, is_counted, SameBuffers};

use crate::buffer::{Buffer, Kept};
use definition::{
    COMPARISON_COUNT, ENTRY_SIZE, MAX_CODE, MAX_FIELD, MAX_LINES, MAX_PROGRAM, MAX_PROTECTED,
    MAX_RULES, ROLE_COUNT,
};

// What the line that is read holds; the program is all that is left. At a malformed line, or one that counts no rules, nothing more is read.
#[derive(Clone, Copy)]
pub enum Phase {
    SheetLine,
    CountLine,
    RuleLine,
    CodeLine,
    OffsetLine,
    EntryLine,
    ProgramText,
    Malformed,
    Uncounted,
}

// A line of the input, rule lines still to come, of this field the number so far, the fields of the line before it, the bytes of it that were kept,
// and what the line holds. No padding lies between: a copy of it, at each byte, would go through memory.
#[derive(Clone, Copy)]
pub struct Head {
    pub line: u64,
    pub left: u32,
    pub number: u32,
    pub index: u8,
    pub kept: u8,
    pub phase: Phase,
}

// What was read so far: where the reading stands, and what the buffers hold; a listing's program is in the code's. Each buffer has a lifetime of its
// own: with one for all, a function that takes the slices would have to name it for each of them.
#[derive(Clone, Copy)]
pub struct Reader<'sheet, 'rules, 'code, 'offsets, 'entries> {
    pub head: Head,
    pub sheet: Kept<'sheet, u8>,
    pub rules: Kept<'rules, u8>,
    pub code: Kept<'code, u8>,
    pub offsets: Kept<'offsets, u16>,
    pub entries: Kept<'entries, u16>,
}

// What reads: what follows the rules, where the reading stands, and the buffers that it fills. With its head and counts set to a reader's it goes on from
// there.
#[derive(Drop)]
pub struct Intake<'a> {
    pub follows: Phase,
    pub head: Head,
    pub sheet: Buffer<'a, u8>,
    pub rules: Buffer<'a, u8>,
    pub code: Buffer<'a, u8>,
    pub offsets: Buffer<'a, u16>,
    pub entries: Buffer<'a, u16>,
}

// How the input ended: whole, at a malformed line, or with no count of rules.
#[derive(Clone, Copy)]
pub enum Ending {
    Whole,
    Cut(u64),
    Countless,
}

// No digit yet, and what is no number up to MAX_FIELD: the machine has them too, so an Option would only hide them from its definitions.
const BLANK: u32 = MAX_FIELD + 1;

const BAD: u32 = MAX_FIELD + 2;

// Of a line of the sheet or the rules so many fields are kept, and of each so many bytes.
const FIELD_ROOM: u8 = ROLE_COUNT as u8 + COMPARISON_COUNT as u8 + 1;

const FIELD_WIDTH: u8 = 6;

// An entry's last field, counted from 0.
const LAST_FIELD: u8 = ENTRY_SIZE as u8 - 1;

// The largest count of rules.
const RULES: u32 = MAX_RULES as u32;

// The largest number of a code line.
const MAX_BYTE: u32 = u8::MAX as u32;

// The room that loses nothing of any input.
pub const SHEET_ROOM: usize = FIELD_ROOM as usize * (FIELD_WIDTH as usize + 1);

pub const RULE_ROOM: usize = MAX_RULES * SHEET_ROOM;

pub const CODE_ROOM: usize = MAX_CODE + 1;

pub const OFFSET_ROOM: usize = MAX_PROTECTED + 1;

pub const ENTRY_ROOM: usize = ENTRY_SIZE * (MAX_LINES + 1);

pub const PROGRAM_ROOM: usize = MAX_PROGRAM + 1;

// The machine's rooms are these.
pub fn sheet_room() -> usize
    ensures { result ≡ def.sheet_room }
{
    SHEET_ROOM
}

pub fn rule_room() -> usize
    ensures { result ≡ def.rule_room }
{
    RULE_ROOM
}

pub fn code_room() -> usize
    ensures { result ≡ def.code_room }
{
    CODE_ROOM
}

pub fn offset_room() -> usize
    ensures { result ≡ def.offset_room }
{
    OFFSET_ROOM
}

pub fn entry_room() -> usize
    ensures { result ≡ def.entry_room }
{
    ENTRY_ROOM
}

pub fn program_room() -> usize
    ensures { result ≡ def.program_room }
{
    PROGRAM_ROOM
}

// ---- lines

fn line_after(n: u64) -> u64
    ensures { result ≡ def.line_after n }
{
    n.saturating_add(1)
}

fn line_in(phase: Phase, line: u64, left: u32) -> Head
    ensures { head_view result ≡ def.line_in (phase_view phase) line left }
{
    Head {
        phase,
        line,
        left,
        index: 0,
        kept: 0,
        number: BLANK,
    }
}

// ---- a byte within a field

fn field_after(i: u8) -> u8
    ensures { result ≡ def.field_after i }
{
    if i < FIELD_ROOM { i + 1 } else { i }
}

// Is a byte that parts no fields kept?
fn keeps(h: Head) -> bool
    ensures { result ≡ def.keeps (head_view h) }
{
    h.index < FIELD_ROOM && h.kept < FIELD_WIDTH
}

fn text_byte(h: Head, b: u8) -> Head
    ensures { head_view result ≡ def.text_byte (head_view h) b }
{
    if b == b',' {
        Head {
            index: field_after(h.index),
            kept: 0,
            ..h
        }
    } else if keeps(h) {
        Head {
            kept: h.kept + 1,
            ..h
        }
    } else {
        h
    }
}

// A digit after a number so far: after 0 none may come.
fn digit_after(n: u32, d: u8) -> u32
    ensures { result ≡ def.digit_after n d }
{
    if n == BLANK {
        return u32::from(d);
    }
    if n == 0 || n > MAX_FIELD {
        return BAD;
    }
    let m = n * 10 + u32::from(d);
    if m <= MAX_FIELD { m } else { BAD }
}

fn number_after(n: u32, b: u8) -> u32
    ensures { result ≡ def.number_after n b }
{
    match b {
        b'0'..=b'9' => digit_after(n, b - b'0'),
        _ => BAD,
    }
}

fn digit_byte(h: Head, b: u8) -> Head
    ensures { head_view result ≡ def.digit_byte (head_view h) b }
{
    Head {
        number: number_after(h.number, b),
        ..h
    }
}

// ---- ends of fields and lines

fn stop(phase: Phase, h: Head) -> Head
    ensures { head_view result ≡ def.stop (phase_view phase) (head_view h) }
{
    line_in(phase, h.line, 0)
}

fn is_blank(h: Head) -> bool
    ensures { result ≡ def.is_blank (head_view h) }
{
    h.index == 0 && h.number == BLANK
}

// Rules, where some are left; else what follows them.
fn rules_at(follows: Phase, line: u64, left: u32) -> Head
    ensures { head_view result ≡ def.rules_at (phase_view follows) line left }
{
    if left == 0 {
        line_in(follows, line, 0)
    } else {
        line_in(Phase::RuleLine, line, left)
    }
}

fn counted(follows: Phase, h: Head) -> Head
    ensures { head_view result ≡ def.counted (phase_view follows) (head_view h) }
{
    if h.number <= RULES {
        rules_at(follows, line_after(h.line), h.number)
    } else {
        stop(Phase::Uncounted, h)
    }
}

// A comma in a line of any count of numbers.
fn list_comma(most: u32, h: Head) -> Head
    ensures { head_view result ≡ def.list_comma most (head_view h) }
{
    if h.number <= most {
        Head {
            index: field_after(h.index),
            number: BLANK,
            ..h
        }
    } else {
        stop(Phase::Malformed, h)
    }
}

fn list_end(most: u32, next: Phase, h: Head) -> Head
    ensures { head_view result ≡ def.list_end most (phase_view next) (head_view h) }
{
    if is_blank(h) || h.number <= most {
        line_in(next, line_after(h.line), 0)
    } else {
        stop(Phase::Malformed, h)
    }
}

fn list_byte(most: u32, next: Phase, h: Head, b: u8) -> Head
    ensures { head_view result ≡ def.list_byte most (phase_view next) (head_view h) b }
{
    match b {
        b'\n' => list_end(most, next, h),
        b',' => list_comma(most, h),
        _ => digit_byte(h, b),
    }
}

fn entry_comma(h: Head) -> Head
    ensures { head_view result ≡ def.entry_comma (head_view h) }
{
    if h.number <= MAX_FIELD && h.index < LAST_FIELD {
        Head {
            index: h.index + 1,
            number: BLANK,
            ..h
        }
    } else {
        stop(Phase::Malformed, h)
    }
}

fn entry_end(h: Head) -> Head
    ensures { head_view result ≡ def.entry_end (head_view h) }
{
    if h.number <= MAX_FIELD && h.index == LAST_FIELD {
        line_in(Phase::EntryLine, line_after(h.line), 0)
    } else {
        stop(Phase::Malformed, h)
    }
}

fn entry_byte(h: Head, b: u8) -> Head
    ensures { head_view result ≡ def.entry_byte (head_view h) b }
{
    match b {
        b'\n' => entry_end(h),
        b',' => entry_comma(h),
        _ => digit_byte(h, b),
    }
}

// Where the reading stands after a byte.
fn next(follows: Phase, h: Head, b: u8) -> Head
    ensures { head_view result ≡ def.next (phase_view follows) (head_view h) b }
{
    match h.phase {
        Phase::SheetLine if b == b'\n' => line_in(Phase::CountLine, line_after(h.line), 0),
        Phase::CountLine if b == b'\n' => counted(follows, h),
        Phase::RuleLine if b == b'\n' => {
            rules_at(follows, line_after(h.line), h.left.saturating_sub(1))
        }
        Phase::SheetLine | Phase::RuleLine => text_byte(h, b),
        Phase::CountLine => digit_byte(h, b),
        Phase::CodeLine => list_byte(MAX_BYTE, Phase::OffsetLine, h, b),
        Phase::OffsetLine => list_byte(MAX_FIELD, Phase::EntryLine, h, b),
        Phase::EntryLine => entry_byte(h, b),
        Phase::ProgramText | Phase::Malformed | Phase::Uncounted => h,
    }
}

// ---- what is kept

// A line's LF is kept, a comma where a field is kept after it.
fn is_kept(h: Head, b: u8) -> bool
    ensures { result ≡ def.is_kept (head_view h) b }
{
    match b {
        b'\n' => true,
        b',' => h.index < FIELD_ROOM - 1,
        _ => keeps(h),
    }
}

// Does a number up to this one end here?
fn ends(most: u32, h: Head, b: u8) -> bool
    ensures { result ≡ def.ends most (head_view h) b }
{
    (b == b'\n' || b == b',') && h.number <= most
}

// ---- the machine

impl<'a> Intake<'a> {
    // The start of an input, with nothing kept.
    pub fn start(
        follows: Phase,
        sheet: &'a mut [u8],
        rules: &'a mut [u8],
        code: &'a mut [u8],
        offsets: &'a mut [u16],
        entries: &'a mut [u16],
    ) -> Self
        ensures follows { result.follows ≡ follows }
        ensures sheet { result.sheet.cells.ghost_name ≡ sheet.entry.ghost_name }
        ensures rules { result.rules.cells.ghost_name ≡ rules.entry.ghost_name }
        ensures code { result.code.cells.ghost_name ≡ code.entry.ghost_name }
        ensures offsets { result.offsets.cells.ghost_name ≡ offsets.entry.ghost_name }
        ensures entries { result.entries.cells.ghost_name ≡ entries.entry.ghost_name }
        ensures starts { intake_view result ≡ begun sheet.old rules.old code.old offsets.old entries.old }
    {
        Intake {
            follows,
            head: line_in(Phase::SheetLine, 1, 0),
            sheet: Buffer::new(sheet),
            rules: Buffer::new(rules),
            code: Buffer::new(code),
            offsets: Buffer::new(offsets),
            entries: Buffer::new(entries),
        }
    }

    // Keeps what a byte leaves to be kept where the reading stands at `h`.
    fn keep(&mut self, h: Head, b: u8)
        ensures buffers { SameBuffers self.old self.new }
        ensures kept { intake_stores self.new ≡ def.stored (intake_stores self.old) (def.put_in (phase_view h.phase) (head_view h) b) }
    {
        match h.phase {
            Phase::SheetLine if is_kept(h, b) => self.sheet.push(b),
            Phase::RuleLine if is_kept(h, b) => self.rules.push(b),
            Phase::CodeLine if ends(MAX_BYTE, h, b) => self.code.push(h.number as u8),
            Phase::OffsetLine if ends(MAX_FIELD, h, b) => self.offsets.push(h.number as u16),
            Phase::EntryLine if ends(MAX_FIELD, h, b) => self.entries.push(h.number as u16),
            Phase::ProgramText => self.code.push(b),
            _ => {}
        }
    }

    // The next bytes of an input. The head is a variable of the loop: behind `self` it would be stored and loaded again at each byte.
    pub fn feed(&mut self, bytes: &[u8])
        ensures buffers { SameBuffers self.old self.new }
        ensures fed { intake_view self.new ≡ def.steps (phase_view self.old.follows) (intake_view self.old) bytes.now }
    {
        let follows = self.follows;
        let mut head = self.head;
        for &b in bytes {
            let on = next(follows, head, b);
            self.keep(head, b);
            head = on;
        }
        self.head = head;
    }

    // What was read so far.
    pub fn read(&self) -> Reader<'_, '_, '_, '_, '_>
        ensures head { result.head ≡ self.now.head }
        ensures state { state_view result ≡ intake_view self.now }
    {
        Reader {
            head: self.head,
            sheet: self.sheet.kept(),
            rules: self.rules.kept(),
            code: self.code.kept(),
            offsets: self.offsets.kept(),
            entries: self.entries.kept(),
        }
    }
}

// ---- the end of the input

pub fn ending_of(h: Head) -> Ending
    ensures { ending_view result ≡ def.ending (head_view h) }
{
    match h.phase {
        Phase::ProgramText => Ending::Whole,
        Phase::EntryLine if is_blank(h) => Ending::Whole,
        Phase::SheetLine | Phase::CountLine | Phase::Uncounted => Ending::Countless,
        _ => Ending::Cut(h.line),
    }
}

pub fn is_counted(e: Ending) -> bool
    ensures { result ≡ is_counted (ending_view e) }
{
    matches!(e, Ending::Whole | Ending::Cut(_))
}
