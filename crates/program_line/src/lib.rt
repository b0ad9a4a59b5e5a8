// A program's lines, read in place: the line at a byte of the text, as what its letter's fields say, or its refusal (6, 5, 2, 3).
#![tactic(auto)]

ghost use Rattle.std.specs.Prelude.{◌≡◌, ◌<◌, [], ◌∷◌, get_or};
ghost use Rattle.definition.specs.Limits.{max_field};
ghost use Rattle.definition.specs.Field.{up_to, below};
ghost use Rattle.definition.specs.Opcode.{Add, Arithmetic, binary_ops, Neg, BoolNot, Eq, Ne, Lt, Le, Gt, Ge, AndThen, OrElse};
ghost use Rattle.definition.specs.Program.{line_at, by_letter, header_forms, stmt_forms, expr_forms, arm_forms, label_forms};
ghost use Rattle.field.specs.View.{kind_of, read_of, line_end};
ghost use Rattle.opcode.specs.View.{binary_view, unary_view, compare_view, short_circuit_view};
ghost use Rattle.program_line.specs.View.{header_line, stmt_line, expr_line, arm_line, label_line};
ghost use Rattle.program_line.specs.Scan.{rest, ending, behind, worse, Fresh, Took, TookPos, finished, Found, Fetched};

use definition::{MAX_FIELD, MAX_VARIABLES, Refusal};
use field::{Fault, Kind};
use line_map::Pos;
use opcode::{ArithmeticOp, BinaryOp, BoolOp, CompareOp, ShortCircuitOp, UnaryOp};

// The largest count, position or loop number, and the largest number of variables.
const COUNTS: u16 = MAX_FIELD as u16;

const VARIABLES: u16 = MAX_VARIABLES as u16;

// ---- what a line says

// A line that was read, and where it ends.
#[derive(Clone, Copy)]
pub struct Next<L> {
    pub line: L,
    pub end: usize,
}

#[derive(Clone, Copy)]
pub struct HeaderLine {
    pub variables: u16,
    pub statements: u16,
    pub pos: Pos,
}

// Counts are those of statements, but for Case's arms. A step is its two's complement bits.
#[derive(Clone, Copy)]
pub enum StmtLine {
    Assign {
        pos: Pos,
        variable: u16,
    },
    If {
        pos: Pos,
        then: u16,
        otherwise: u16,
    },
    Case {
        pos: Pos,
        arms: u16,
        otherwise: u16,
    },
    For {
        pos: Pos,
        loop_number: u16,
        variable: u16,
        step: u32,
        body: u16,
    },
    Loop {
        pos: Pos,
        loop_number: u16,
        body: u16,
        continuing: u16,
    },
    Exit {
        pos: Pos,
        loop_number: u16,
    },
    Continue {
        pos: Pos,
        loop_number: u16,
    },
    Return {
        pos: Pos,
    },
}

// A constant is its two's complement bits.
#[derive(Clone, Copy)]
pub enum ExprLine {
    Const(u32),
    Bool(bool),
    Read(u16),
    Binary(BinaryOp),
    Unary(UnaryOp),
    Compare(CompareOp),
    ShortCircuit(ShortCircuitOp),
}

#[derive(Clone, Copy)]
pub struct ArmLine {
    pub labels: u16,
    pub statements: u16,
}

#[derive(Clone, Copy)]
pub enum LabelLine {
    Value(u32),
    Range(u32, u32),
}

// ---- operators by their numbers

const BINARY_OPS: [BinaryOp; 8] = [
    BinaryOp::Arithmetic(ArithmeticOp::Add),
    BinaryOp::Arithmetic(ArithmeticOp::Sub),
    BinaryOp::Arithmetic(ArithmeticOp::Mul),
    BinaryOp::Arithmetic(ArithmeticOp::Div),
    BinaryOp::Arithmetic(ArithmeticOp::Mod),
    BinaryOp::Logic(BoolOp::BoolAnd),
    BinaryOp::Logic(BoolOp::BoolOr),
    BinaryOp::Logic(BoolOp::BoolXor),
];

const UNARY_OPS: [UnaryOp; 2] = [UnaryOp::Neg, UnaryOp::BoolNot];

const COMPARE_OPS: [CompareOp; 6] = [
    CompareOp::Eq,
    CompareOp::Ne,
    CompareOp::Lt,
    CompareOp::Le,
    CompareOp::Gt,
    CompareOp::Ge,
];

const SHORT_CIRCUIT_OPS: [ShortCircuitOp; 2] = [ShortCircuitOp::AndThen, ShortCircuitOp::OrElse];

fn binary_op(n: u16) -> BinaryOp
    requires { n < 8 }
    ensures { binary_view result ≡ get_or binary_ops n (Arithmetic Add) }
{
    BINARY_OPS[usize::from(n)]
}

fn unary_op(n: u16) -> UnaryOp
    requires { n < 2 }
    ensures { unary_view result ≡ get_or (Neg ∷ BoolNot ∷ []) n Neg }
{
    UNARY_OPS[usize::from(n)]
}

fn compare_op(n: u16) -> CompareOp
    requires { n < 6 }
    ensures { compare_view result ≡ get_or (Eq ∷ Ne ∷ Lt ∷ Le ∷ Gt ∷ Ge ∷ []) n Eq }
{
    COMPARE_OPS[usize::from(n)]
}

fn short_circuit_op(n: u16) -> ShortCircuitOp
    requires { n < 2 }
    ensures { short_circuit_view result ≡ get_or (AndThen ∷ OrElse ∷ []) n AndThen }
{
    SHORT_CIRCUIT_OPS[usize::from(n)]
}

// ---- the fields behind a line's letter

// How the numbers of a line stand so far, from good to bad: a malformed one (2) wins over one outside its range (3), whatever their order. So a field at fault
// does not end the line's reading with `?`, and its fault is kept here until the line's end.
#[derive(Clone, Copy, PartialEq, Eq, PartialOrd, Ord)]
pub enum Verdict {
    Good,
    Far,
    Wrong,
}

// The place behind a field: where the next one starts, or where the line ends.
#[derive(Clone, Copy)]
pub enum Place {
    Field(usize),
    End(usize),
}

// A place among a line's fields, and how those before it stand.
#[derive(Clone, Copy)]
pub struct Scan<'a> {
    pub text: &'a [u8],
    pub place: Place,
    pub verdict: Verdict,
}

// The place behind the field that ends at `end`, at this byte.
#[tactic(auto, using(std::proofs::lemmas::Bool::Decides::nat_tests), unfolding(crate::specs::Scan::open_Scan))]
fn behind(text: &[u8], end: usize, stop: u8) -> Place
    requires { stop ≡ get_or text.now end 0 }
    ensures { result ≡ behind end stop }
{
    if stop == b',' {
        Place::Field(end + 1)
    } else {
        Place::End(end)
    }
}

#[tactic(auto, unfolding(crate::specs::Scan::open_Scan))]
fn worse(verdict: Verdict, read: Result<u32, Fault>) -> Verdict
    ensures { result ≡ worse verdict (read_of read) }
{
    match read {
        Ok(_) => verdict,
        Err(Fault::Outside) => verdict.max(Verdict::Far),
        Err(Fault::Malformed) => Verdict::Wrong,
    }
}

impl<'a> Scan<'a> {
    // One number, 0 where there is none.
    fn number(&mut self, kind: Kind) -> u32
        ensures { Took (kind_of kind) self.old result self.new }
    {
        match self.place {
            Place::Field(at) => {
                let next = field::next_field(self.text, at, kind);
                self.place = behind(self.text, next.end, next.stop);
                self.verdict = worse(self.verdict, next.read);
                next.read.unwrap_or(0)
            }
            Place::End(_) => {
                self.verdict = Verdict::Wrong;
                0
            }
        }
    }

    // A number of 0 to `max`.
    fn up_to(&mut self, max: u16) -> u16
        ensures { Took (up_to max) self.old result self.new }
    {
        self.number(Kind::UpTo(u32::from(max))) as u16
    }

    // A variable's index, below their count.
    fn index(&mut self, variables: u16) -> u16
        ensures { Took (below variables) self.old result self.new }
    {
        self.number(Kind::Below(u32::from(variables))) as u16
    }

    // A count, a line, a column or a loop's number.
    fn count(&mut self) -> u16
        ensures { Took (up_to max_field) self.old result self.new }
    {
        self.up_to(COUNTS)
    }

    fn position(&mut self) -> Pos
        ensures { TookPos self.old result self.new }
    {
        let line = self.count();
        let column = self.count();
        Pos { line, column }
    }

    // The line that these fields make, if they end here and none of them is at fault.
    #[tactic(auto, unfolding(crate::specs::Scan::open_Scan))]
    fn finish<L: Copy>(self, line: L) -> Result<Next<L>, Refusal>
        ensures { result ≡ finished self.entry line }
    {
        match self.place {
            Place::Field(_) => Err(Refusal::BadForm),
            Place::End(end) => match self.verdict {
                Verdict::Good => Ok(Next { line, end }),
                Verdict::Far => Err(Refusal::BadRange),
                Verdict::Wrong => Err(Refusal::BadForm),
            },
        }
    }
}

// ---- a line by its letter, and where it ends; `s` is the place behind the letter

fn header_line(mut s: Scan) -> Result<Next<HeaderLine>, Refusal>
    requires { Fresh s }
    ensures { Found header_line result (by_letter header_forms 0x50 (rest s.entry)) (ending s.entry) }
{
    let variables = s.up_to(VARIABLES);
    let statements = s.count();
    let pos = s.position();
    s.finish(HeaderLine {
        variables,
        statements,
        pos,
    })
}

fn assign_line(mut s: Scan, variables: u16) -> Result<Next<StmtLine>, Refusal>
    requires { Fresh s }
    ensures { Found stmt_line result (by_letter (stmt_forms variables) 0x41 (rest s.entry)) (ending s.entry) }
{
    let pos = s.position();
    let variable = s.index(variables);
    s.finish(StmtLine::Assign { pos, variable })
}

fn if_line(mut s: Scan, variables: u16) -> Result<Next<StmtLine>, Refusal>
    requires { Fresh s }
    ensures { Found stmt_line result (by_letter (stmt_forms variables) 0x49 (rest s.entry)) (ending s.entry) }
{
    let pos = s.position();
    let then = s.count();
    let otherwise = s.count();
    s.finish(StmtLine::If {
        pos,
        then,
        otherwise,
    })
}

fn case_line(mut s: Scan, variables: u16) -> Result<Next<StmtLine>, Refusal>
    requires { Fresh s }
    ensures { Found stmt_line result (by_letter (stmt_forms variables) 0x53 (rest s.entry)) (ending s.entry) }
{
    let pos = s.position();
    let arms = s.count();
    let otherwise = s.count();
    s.finish(StmtLine::Case {
        pos,
        arms,
        otherwise,
    })
}

fn for_line(mut s: Scan, variables: u16) -> Result<Next<StmtLine>, Refusal>
    requires { Fresh s }
    ensures { Found stmt_line result (by_letter (stmt_forms variables) 0x46 (rest s.entry)) (ending s.entry) }
{
    let pos = s.position();
    let loop_number = s.count();
    let variable = s.index(variables);
    let step = s.number(Kind::Value);
    let body = s.count();
    s.finish(StmtLine::For {
        pos,
        loop_number,
        variable,
        step,
        body,
    })
}

fn loop_line(mut s: Scan, variables: u16) -> Result<Next<StmtLine>, Refusal>
    requires { Fresh s }
    ensures { Found stmt_line result (by_letter (stmt_forms variables) 0x4C (rest s.entry)) (ending s.entry) }
{
    let pos = s.position();
    let loop_number = s.count();
    let body = s.count();
    let continuing = s.count();
    s.finish(StmtLine::Loop {
        pos,
        loop_number,
        body,
        continuing,
    })
}

fn exit_line(mut s: Scan, variables: u16) -> Result<Next<StmtLine>, Refusal>
    requires { Fresh s }
    ensures { Found stmt_line result (by_letter (stmt_forms variables) 0x58 (rest s.entry)) (ending s.entry) }
{
    let pos = s.position();
    let loop_number = s.count();
    s.finish(StmtLine::Exit { pos, loop_number })
}

fn continue_line(mut s: Scan, variables: u16) -> Result<Next<StmtLine>, Refusal>
    requires { Fresh s }
    ensures { Found stmt_line result (by_letter (stmt_forms variables) 0x4E (rest s.entry)) (ending s.entry) }
{
    let pos = s.position();
    let loop_number = s.count();
    s.finish(StmtLine::Continue { pos, loop_number })
}

fn return_line(mut s: Scan, variables: u16) -> Result<Next<StmtLine>, Refusal>
    requires { Fresh s }
    ensures { Found stmt_line result (by_letter (stmt_forms variables) 0x52 (rest s.entry)) (ending s.entry) }
{
    let pos = s.position();
    s.finish(StmtLine::Return { pos })
}

fn arm_line(mut s: Scan) -> Result<Next<ArmLine>, Refusal>
    requires { Fresh s }
    ensures { Found arm_line result (by_letter arm_forms 0x4D (rest s.entry)) (ending s.entry) }
{
    let labels = s.count();
    let statements = s.count();
    s.finish(ArmLine { labels, statements })
}

fn value_line(mut s: Scan) -> Result<Next<LabelLine>, Refusal>
    requires { Fresh s }
    ensures { Found label_line result (by_letter label_forms 0x51 (rest s.entry)) (ending s.entry) }
{
    let value = s.number(Kind::Value);
    s.finish(LabelLine::Value(value))
}

fn range_line(mut s: Scan) -> Result<Next<LabelLine>, Refusal>
    requires { Fresh s }
    ensures { Found label_line result (by_letter label_forms 0x47 (rest s.entry)) (ending s.entry) }
{
    let low = s.number(Kind::Value);
    let high = s.number(Kind::Value);
    s.finish(LabelLine::Range(low, high))
}

fn const_line(mut s: Scan, variables: u16) -> Result<Next<ExprLine>, Refusal>
    requires { Fresh s }
    ensures { Found expr_line result (by_letter (expr_forms variables) 0x4B (rest s.entry)) (ending s.entry) }
{
    let k = s.number(Kind::Value);
    s.finish(ExprLine::Const(k))
}

fn bool_line(mut s: Scan, variables: u16) -> Result<Next<ExprLine>, Refusal>
    requires { Fresh s }
    ensures { Found expr_line result (by_letter (expr_forms variables) 0x42 (rest s.entry)) (ending s.entry) }
{
    let k = s.up_to(1);
    s.finish(ExprLine::Bool(k == 1))
}

fn variable_line(mut s: Scan, variables: u16) -> Result<Next<ExprLine>, Refusal>
    requires { Fresh s }
    ensures { Found expr_line result (by_letter (expr_forms variables) 0x44 (rest s.entry)) (ending s.entry) }
{
    let k = s.index(variables);
    s.finish(ExprLine::Read(k))
}

// These four differ in a table, its last number and a variant: one function would take all three, and is no shorter.
fn binary_line(mut s: Scan, variables: u16) -> Result<Next<ExprLine>, Refusal>
    requires { Fresh s }
    ensures { Found expr_line result (by_letter (expr_forms variables) 0x4F (rest s.entry)) (ending s.entry) }
{
    let k = s.up_to(7);
    s.finish(ExprLine::Binary(binary_op(k)))
}

fn unary_line(mut s: Scan, variables: u16) -> Result<Next<ExprLine>, Refusal>
    requires { Fresh s }
    ensures { Found expr_line result (by_letter (expr_forms variables) 0x55 (rest s.entry)) (ending s.entry) }
{
    let k = s.up_to(1);
    s.finish(ExprLine::Unary(unary_op(k)))
}

fn compare_line(mut s: Scan, variables: u16) -> Result<Next<ExprLine>, Refusal>
    requires { Fresh s }
    ensures { Found expr_line result (by_letter (expr_forms variables) 0x43 (rest s.entry)) (ending s.entry) }
{
    let k = s.up_to(5);
    s.finish(ExprLine::Compare(compare_op(k)))
}

fn short_circuit_line(mut s: Scan, variables: u16) -> Result<Next<ExprLine>, Refusal>
    requires { Fresh s }
    ensures { Found expr_line result (by_letter (expr_forms variables) 0x48 (rest s.entry)) (ending s.entry) }
{
    let k = s.up_to(1);
    s.finish(ExprLine::ShortCircuit(short_circuit_op(k)))
}

// ---- a line by its letter, whichever it is

#[tactic(auto, using(std::proofs::lemmas::Bool::Decides::nat_tests), unfolding(crate::specs::Scan::open_forms))]
fn header_of(letter: u8, s: Scan) -> Result<Next<HeaderLine>, Refusal>
    requires { Fresh s }
    ensures { Found header_line result (by_letter header_forms letter (rest s.entry)) (ending s.entry) }
{
    match letter {
        b'P' => header_line(s),
        _ => Err(Refusal::BadForm),
    }
}

#[tactic(auto, using(std::proofs::lemmas::Bool::Decides::nat_tests), unfolding(crate::specs::Scan::open_forms))]
fn stmt_of(letter: u8, s: Scan, variables: u16) -> Result<Next<StmtLine>, Refusal>
    requires { Fresh s }
    ensures { Found stmt_line result (by_letter (stmt_forms variables) letter (rest s.entry)) (ending s.entry) }
{
    match letter {
        b'A' => assign_line(s, variables),
        b'I' => if_line(s, variables),
        b'S' => case_line(s, variables),
        b'F' => for_line(s, variables),
        b'L' => loop_line(s, variables),
        b'X' => exit_line(s, variables),
        b'N' => continue_line(s, variables),
        b'R' => return_line(s, variables),
        _ => Err(Refusal::BadForm),
    }
}

#[tactic(auto, using(std::proofs::lemmas::Bool::Decides::nat_tests), unfolding(crate::specs::Scan::open_forms))]
fn expr_of(letter: u8, s: Scan, variables: u16) -> Result<Next<ExprLine>, Refusal>
    requires { Fresh s }
    ensures { Found expr_line result (by_letter (expr_forms variables) letter (rest s.entry)) (ending s.entry) }
{
    match letter {
        b'K' => const_line(s, variables),
        b'B' => bool_line(s, variables),
        b'D' => variable_line(s, variables),
        b'O' => binary_line(s, variables),
        b'U' => unary_line(s, variables),
        b'C' => compare_line(s, variables),
        b'H' => short_circuit_line(s, variables),
        _ => Err(Refusal::BadForm),
    }
}

#[tactic(auto, using(std::proofs::lemmas::Bool::Decides::nat_tests), unfolding(crate::specs::Scan::open_forms))]
fn arm_of(letter: u8, s: Scan) -> Result<Next<ArmLine>, Refusal>
    requires { Fresh s }
    ensures { Found arm_line result (by_letter arm_forms letter (rest s.entry)) (ending s.entry) }
{
    match letter {
        b'M' => arm_line(s),
        _ => Err(Refusal::BadForm),
    }
}

#[tactic(auto, using(std::proofs::lemmas::Bool::Decides::nat_tests), unfolding(crate::specs::Scan::open_forms))]
fn label_of(letter: u8, s: Scan) -> Result<Next<LabelLine>, Refusal>
    requires { Fresh s }
    ensures { Found label_line result (by_letter label_forms letter (rest s.entry)) (ending s.entry) }
{
    match letter {
        b'Q' => value_line(s),
        b'G' => range_line(s),
        _ => Err(Refusal::BadForm),
    }
}

// ---- the line at a place, with so many nesting levels left; 6 and 5 come before what it holds

// Any line: `by` reads it by its letter, from the place behind that.
fn next_by<'a, L, F: FnOnce(u8, Scan<'a>) -> Result<Next<L>, Refusal>>(
    text: &'a [u8],
    left: usize,
    at: usize,
    by: F,
) -> Result<Next<L>, Refusal>
    requires { (b : _) (s : _) → Fresh s → F.pre by b s }
    ensures { Fetched (λ b s r. F.post by b s r) left text.now at result }
{
    if at >= text.len() {
        return Err(Refusal::WrongLines);
    }
    if left == 0 {
        return Err(Refusal::TooDeep);
    }
    let first = field::next_end(text, at);
    if first.end != at + 1 {
        return Err(Refusal::BadForm);
    }
    let place = behind(text, first.end, first.stop);
    by(
        text[at],
        Scan {
            text,
            place,
            verdict: Verdict::Good,
        },
    )
}

// The header.
pub fn next_header(text: &[u8], left: usize, at: usize) -> Result<Next<HeaderLine>, Refusal>
    ensures { Found header_line result (line_at header_forms left text.now at) (line_end text.now at) }
{
    next_by(text, left, at, |letter, s| header_of(letter, s))
}

// A statement's line, in a program of so many variables.
pub fn next_stmt(
    text: &[u8],
    variables: u16,
    left: usize,
    at: usize,
) -> Result<Next<StmtLine>, Refusal>
    ensures { Found stmt_line result (line_at (stmt_forms variables) left text.now at) (line_end text.now at) }
{
    next_by(text, left, at, |letter, s| stmt_of(letter, s, variables))
}

// An expression's.
pub fn next_expr(
    text: &[u8],
    variables: u16,
    left: usize,
    at: usize,
) -> Result<Next<ExprLine>, Refusal>
    ensures { Found expr_line result (line_at (expr_forms variables) left text.now at) (line_end text.now at) }
{
    next_by(text, left, at, |letter, s| expr_of(letter, s, variables))
}

// An arm's.
pub fn next_arm(text: &[u8], left: usize, at: usize) -> Result<Next<ArmLine>, Refusal>
    ensures { Found arm_line result (line_at arm_forms left text.now at) (line_end text.now at) }
{
    next_by(text, left, at, |letter, s| arm_of(letter, s))
}

// A label's.
pub fn next_label(text: &[u8], left: usize, at: usize) -> Result<Next<LabelLine>, Refusal>
    ensures { Found label_line result (line_at label_forms left text.now at) (line_end text.now at) }
{
    next_by(text, left, at, |letter, s| label_of(letter, s))
}
