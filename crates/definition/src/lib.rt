// The limits, counts and refusal numbers of documents 01 and 02 for code, each shown to be the definition's (specs/Limits.antt, Opcode.antt, Rules.antt).
#![tactic(auto)]

ghost use Rattle.std.specs.Prelude.{◌≡◌, ◌<◌, ◌*◌};
ghost use Rattle.definition.specs.Limits.{max_code, max_back, max_forward, max_branches, max_labels, max_protected, max_lines, max_constants, max_outcomes, entry_size, max_program, max_nesting, max_variables, max_field, max_rules, pass_count, width, bad_text, bad_form, bad_range, no_loop, too_deep, wrong_lines, bad_sheet, bad_code, bad_rule, code_full, labels_full, lines_full, constants_full, output_short, far_branch, astray, bad_height};
ghost use Rattle.definition.specs.Unnamed.{IsUnnamed};
ghost use Rattle.definition.specs.Opcode.{role_count, comparison_count};
ghost use Rattle.definition.specs.Rules.{nameable, last_test, last_action};

// Bytes of code, emitted and finished.
pub const MAX_CODE: usize = 65535;
// How far back a branch of finished code leads.
pub const MAX_BACK: usize = 32768;
// How far forward it leads.
pub const MAX_FORWARD: usize = 32767;
// Branches in the code: the smallest has three bytes.
pub const MAX_BRANCHES: usize = MAX_CODE / 3;
// Labels created, used or not.
pub const MAX_LABELS: usize = 4096;
// Protected offsets of rewriting called alone.
pub const MAX_PROTECTED: usize = 4096;
// Line entries.
pub const MAX_LINES: usize = 4096;
// Numbers that a line entry takes in a lent list.
pub const ENTRY_SIZE: usize = 3;
// Constants in the pool.
pub const MAX_CONSTANTS: usize = 1024;
// Branch outcomes of a slowest run.
pub const MAX_OUTCOMES: usize = 21845;
// Bytes of a program.
pub const MAX_PROGRAM: usize = 65536;
// Nesting levels of a program.
pub const MAX_NESTING: usize = 64;
// Variables of a program.
pub const MAX_VARIABLES: u32 = 1024;
// The largest number of a field that is no value.
pub const MAX_FIELD: u32 = 65535;
// Lines of a rule file.
pub const MAX_RULES: usize = 64;
// Passes of the rewriter.
pub const PASS_COUNT: u32 = 3;
// Bits of a value.
pub const WIDTH: u32 = 32;
// Roles, and so opcodes of a sheet.
pub const ROLE_COUNT: usize = 27;
// Comparisons, and so comparison bytes of a sheet.
pub const COMPARISON_COUNT: usize = 6;
// The first role that no rule may name.
pub const NAMEABLE: u32 = 23;
// The last test of a rule by number.
pub const LAST_TEST: u32 = 3;
// The last action of a rule by number.
pub const LAST_ACTION: u32 = 2;

// Refusal: a program that is empty, too long, or not ended by LF.
pub const BAD_TEXT: u8 = 1;
// Refusal: wrong letter, wrong field count or malformed number.
pub const BAD_FORM: u8 = 2;
// Refusal: a number outside its range.
pub const BAD_RANGE: u8 = 3;
// Refusal: no open loop of that number.
pub const NO_LOOP: u8 = 4;
// Refusal: nesting too deep.
pub const TOO_DEEP: u8 = 5;
// Refusal: a line missing or left over.
pub const WRONG_LINES: u8 = 6;
// Refusal: bad sheet.
pub const BAD_SHEET: u8 = 7;
// Refusal: code, protected offset or line offset that rewriting called alone cannot take.
pub const BAD_CODE: u8 = 8;
// Refusal: bad rule.
pub const BAD_RULE: u8 = 9;
// Refusal: code over its limit.
pub const CODE_FULL: u8 = 10;
// Refusal: labels or protected offsets over their limit.
pub const LABELS_FULL: u8 = 11;
// Refusal: line entries over their limit.
pub const LINES_FULL: u8 = 12;
// Refusal: constants over their limit.
pub const CONSTANTS_FULL: u8 = 13;
// Refusal: a lent output shorter than its limit.
pub const OUTPUT_SHORT: u8 = 14;
// Refusal: a branch of finished code that is too far from its target.
pub const FAR_BRANCH: u8 = 15;
// Refusal: an image with a run that reaches a place neither start nor end.
pub const ASTRAY: u8 = 20;
// Refusal: an image with a height fault.
pub const BAD_HEIGHT: u8 = 21;

// A number that none of the constants above is, nor 0.
#[derive(Clone, Copy, PartialEq, Eq)]
pub struct Unnamed {
    pub number: u8,
    pub ghost unnamed: { IsUnnamed number },
}

// Why something is refused. The constants above say what each number means.
#[derive(Clone, Copy, PartialEq, Eq)]
pub enum Refusal {
    BadText,
    BadForm,
    BadRange,
    NoLoop,
    TooDeep,
    WrongLines,
    BadSheet,
    BadCode,
    BadRule,
    CodeFull,
    LabelsFull,
    LinesFull,
    ConstantsFull,
    OutputShort,
    FarBranch,
    Astray,
    BadHeight,
    // By a number of a caller's own (`Emitter::refuse`).
    Other(Unnamed),
}

// A refusal and its place: a line, a field, an offset, or 0.
#[derive(Clone, Copy, PartialEq, Eq)]
pub struct Refused {
    pub refusal: Refusal,
    pub place: usize,
}

impl Refusal {
    ghost use Rattle.definition.specs.View.{refusal_number};

    // The refusal of a number: each but 0 has one.
    pub fn of(number: u8) -> Refusal
        requires { 0 < number }
        ensures { refusal_number result ≡ number }
    {
        match number {
            BAD_TEXT => Refusal::BadText,
            BAD_FORM => Refusal::BadForm,
            BAD_RANGE => Refusal::BadRange,
            NO_LOOP => Refusal::NoLoop,
            TOO_DEEP => Refusal::TooDeep,
            WRONG_LINES => Refusal::WrongLines,
            BAD_SHEET => Refusal::BadSheet,
            BAD_CODE => Refusal::BadCode,
            BAD_RULE => Refusal::BadRule,
            CODE_FULL => Refusal::CodeFull,
            LABELS_FULL => Refusal::LabelsFull,
            LINES_FULL => Refusal::LinesFull,
            CONSTANTS_FULL => Refusal::ConstantsFull,
            OUTPUT_SHORT => Refusal::OutputShort,
            FAR_BRANCH => Refusal::FarBranch,
            ASTRAY => Refusal::Astray,
            BAD_HEIGHT => Refusal::BadHeight,
            _ => Refusal::Other(Unnamed { number }),
        }
    }

    // The number that is answered.
    pub fn number(self) -> u8
        ensures { result ≡ refusal_number self }
    {
        // An arm for each, and no discriminants, so that each number stands once: in its constant.
        match self {
            Refusal::BadText => BAD_TEXT,
            Refusal::BadForm => BAD_FORM,
            Refusal::BadRange => BAD_RANGE,
            Refusal::NoLoop => NO_LOOP,
            Refusal::TooDeep => TOO_DEEP,
            Refusal::WrongLines => WRONG_LINES,
            Refusal::BadSheet => BAD_SHEET,
            Refusal::BadCode => BAD_CODE,
            Refusal::BadRule => BAD_RULE,
            Refusal::CodeFull => CODE_FULL,
            Refusal::LabelsFull => LABELS_FULL,
            Refusal::LinesFull => LINES_FULL,
            Refusal::ConstantsFull => CONSTANTS_FULL,
            Refusal::OutputShort => OUTPUT_SHORT,
            Refusal::FarBranch => FAR_BRANCH,
            Refusal::Astray => ASTRAY,
            Refusal::BadHeight => BAD_HEIGHT,
            Refusal::Other(unnamed) => unnamed.number,
        }
    }
}

pub fn max_code() -> usize
    ensures { result ≡ max_code }
{
    MAX_CODE
}

pub fn max_back() -> usize
    ensures { result ≡ max_back }
{
    MAX_BACK
}

pub fn max_forward() -> usize
    ensures { result ≡ max_forward }
{
    MAX_FORWARD
}

pub fn max_branches() -> usize
    ensures { result ≡ max_branches }
{
    MAX_BRANCHES
}

pub fn max_labels() -> usize
    ensures { result ≡ max_labels }
{
    MAX_LABELS
}

pub fn max_protected() -> usize
    ensures { result ≡ max_protected }
{
    MAX_PROTECTED
}

pub fn max_lines() -> usize
    ensures { result ≡ max_lines }
{
    MAX_LINES
}

// Numbers that a full line list takes.
pub fn max_line_numbers() -> usize
    ensures { result ≡ max_lines * entry_size }
{
    MAX_LINES * ENTRY_SIZE
}

pub fn max_constants() -> usize
    ensures { result ≡ max_constants }
{
    MAX_CONSTANTS
}

pub fn max_outcomes() -> usize
    ensures { result ≡ max_outcomes }
{
    MAX_OUTCOMES
}

pub fn max_program() -> usize
    ensures { result ≡ max_program }
{
    MAX_PROGRAM
}

pub fn max_nesting() -> usize
    ensures { result ≡ max_nesting }
{
    MAX_NESTING
}

pub fn max_variables() -> u32
    ensures { result ≡ max_variables }
{
    MAX_VARIABLES
}

pub fn max_field() -> u32
    ensures { result ≡ max_field }
{
    MAX_FIELD
}

pub fn max_rules() -> usize
    ensures { result ≡ max_rules }
{
    MAX_RULES
}

pub fn pass_count() -> u32
    ensures { result ≡ pass_count }
{
    PASS_COUNT
}

pub fn width() -> u32
    ensures { result ≡ width }
{
    WIDTH
}

pub fn role_count() -> usize
    ensures { result ≡ role_count }
{
    ROLE_COUNT
}

pub fn comparison_count() -> usize
    ensures { result ≡ comparison_count }
{
    COMPARISON_COUNT
}

pub fn nameable() -> u32
    ensures { result ≡ nameable }
{
    NAMEABLE
}

pub fn last_test() -> u32
    ensures { result ≡ last_test }
{
    LAST_TEST
}

pub fn last_action() -> u32
    ensures { result ≡ last_action }
{
    LAST_ACTION
}

pub fn bad_text() -> u8
    ensures { result ≡ bad_text }
{
    BAD_TEXT
}

pub fn bad_form() -> u8
    ensures { result ≡ bad_form }
{
    BAD_FORM
}

pub fn bad_range() -> u8
    ensures { result ≡ bad_range }
{
    BAD_RANGE
}

pub fn no_loop() -> u8
    ensures { result ≡ no_loop }
{
    NO_LOOP
}

pub fn too_deep() -> u8
    ensures { result ≡ too_deep }
{
    TOO_DEEP
}

pub fn wrong_lines() -> u8
    ensures { result ≡ wrong_lines }
{
    WRONG_LINES
}

pub fn bad_sheet() -> u8
    ensures { result ≡ bad_sheet }
{
    BAD_SHEET
}

pub fn bad_code() -> u8
    ensures { result ≡ bad_code }
{
    BAD_CODE
}

pub fn bad_rule() -> u8
    ensures { result ≡ bad_rule }
{
    BAD_RULE
}

pub fn code_full() -> u8
    ensures { result ≡ code_full }
{
    CODE_FULL
}

pub fn labels_full() -> u8
    ensures { result ≡ labels_full }
{
    LABELS_FULL
}

pub fn lines_full() -> u8
    ensures { result ≡ lines_full }
{
    LINES_FULL
}

pub fn constants_full() -> u8
    ensures { result ≡ constants_full }
{
    CONSTANTS_FULL
}

pub fn output_short() -> u8
    ensures { result ≡ output_short }
{
    OUTPUT_SHORT
}

pub fn far_branch() -> u8
    ensures { result ≡ far_branch }
{
    FAR_BRANCH
}

pub fn astray() -> u8
    ensures { result ≡ astray }
{
    ASTRAY
}

pub fn bad_height() -> u8
    ensures { result ≡ bad_height }
{
    BAD_HEIGHT
}
