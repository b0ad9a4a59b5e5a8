// What emission must know of a part of the text before it comes to it: where the part ends, whether a condition is fused, and whether a loop is a
// WHILE or a REPEAT. Each answer is that of the total reading, whatever the text.
#![tactic(auto)]

ghost use Rattle.std.specs.Prelude.{◌≡◌, IfSome};
ghost use Rattle.definition.specs.Program.{expr_at, stmt_at, block_of};
ghost use Rattle.definition.specs.CompileExpr.{classify};
ghost use Rattle.opcode.specs.View.{compare_view};
ghost use Rattle.program_line.specs.View.{stmt_line, expr_line};
ghost use Rattle.program.specs.Walk.{cursor_of, Near, Skipped};
ghost use Rattle.program.specs.Ends.{start_of, end_of, Sound, NoneNew};
ghost use Rattle.program_shape.specs.Shape.{operand_of, variable_in, constant_in, Sided, classified, fused, sizes_fit, if_fits, exit_line, Exiting, while_by, repeat_by, Shaped, Knows};

use definition::MAX_NESTING;
use opcode::CompareOp;
use program::{Body, Cursor, Ends};
use program_line::{ExprLine, StmtLine};

// A side of a comparison, or a FOR's end.
#[derive(Clone, Copy)]
pub enum Operand {
    Variable(u16),
    Constant(u32),
    Other,
}

// A comparison that one CMP_BR tests, the variable on the left.
#[derive(Clone, Copy)]
pub struct ClassifiedCmp {
    pub op: CompareOp,
    pub variable: u16,
    pub constant: u32,
}

// An IF whose one branch is a sole EXIT and whose other is empty: where its condition stands, and where it ends.
#[derive(Clone, Copy)]
pub struct ExitIf {
    pub condition: Cursor,
    pub end: Cursor,
}

// A loop's shape, with where its condition stands; a WHILE's body goes on at `rest`, and a REPEAT ends at `end`.
#[derive(Clone, Copy)]
pub enum Shape {
    While { condition: Cursor, rest: Cursor },
    Repeat { condition: Cursor, end: Cursor },
    Plain,
}

// ---- skips: walks that heed no fault, which are never refused

// Where the expression at a place ends.
pub fn skip_expr(text: &[u8], variables: u16, left: usize, c: Cursor) -> Cursor
    requires { Near text.now c.at c.row }
    ensures { Skipped text.now (expr_at left variables text.now (cursor_of c)).1 result }
{
    program::walk_expr(text, variables, false, left, Ok(c)).unwrap()
}

// Where a block of n statements ends; the bodies in it are noted.
pub fn skip_block(
    text: &[u8],
    ends: &mut Ends,
    variables: u16,
    left: usize,
    n: usize,
    c: Cursor,
) -> Cursor
    requires near { Near text.now c.at c.row }
    requires sound { Sound text.now variables ends.old }
    ensures skipped { Skipped text.now (block_of (λ d. stmt_at left variables text.now d) n (cursor_of c)).1 result }
    ensures sound_2 { Sound text.now variables ends.new }
{
    program::walk_stmts(text, ends, variables, false, left, n, Ok(c)).unwrap()
}

// Where a noted body ends, if it is the one of n statements at a place.
fn noted_end(body: Body, n: u16, c: Cursor) -> Option<Cursor>
    ensures { IfSome result (λ e. (start_of body ≡ cursor_of c) × (body.count ≡ n) × (e ≡ end_of body)) }
{
    if usize::from(body.at) == c.at && usize::from(body.row) == c.row && body.count == n {
        Some(Cursor {
            at: usize::from(body.end),
            row: usize::from(body.last),
        })
    } else {
        None
    }
}

// The end that is noted of the body of n statements at a place.
fn known_end(ends: &Ends, left: usize, n: u16, c: Cursor) -> Option<Cursor>
    ensures { Knows ends.now left n (cursor_of c) result }
{
    if left >= MAX_NESTING {
        return None;
    }
    match noted_end(ends.first[left], n, c) {
        Some(end) => Some(end),
        None => noted_end(ends.second[left], n, c),
    }
}

// A body is skipped from here on: what was noted before it is of no more use.
fn start_skip(ends: &mut Ends, at: usize)
    ensures { NoneNew ends.old ends.new }
{
    if let Ok(from) = u16::try_from(at) {
        ends.from = from;
    }
}

// Where a loop's body of n statements ends. In loops within loops an outer one's walk has mostly noted it.
fn body_end(text: &[u8], ends: &mut Ends, variables: u16, left: usize, n: u16, c: Cursor) -> Cursor
    requires near { Near text.now c.at c.row }
    requires sound { Sound text.now variables ends.old }
    ensures skipped { Skipped text.now (block_of (λ d. stmt_at left variables text.now d) n (cursor_of c)).1 result }
    ensures sound_2 { Sound text.now variables ends.new }
{
    match known_end(ends, left, n, c) {
        Some(end) => end,
        None => {
            start_skip(ends, c.at);
            skip_block(text, ends, variables, left, usize::from(n), c)
        }
    }
}

// ---- conditions

#[tactic(auto, unfolding(crate::specs::Shape::open_shape))]
fn operand_of(line: ExprLine) -> Operand
    ensures { result ≡ operand_of (expr_line line) }
{
    match line {
        ExprLine::Const(k) => Operand::Constant(k),
        ExprLine::Read(v) => Operand::Variable(v),
        _ => Operand::Other,
    }
}

// The expression at a place, as a side of a comparison or as a FOR's end.
pub fn operand_at(text: &[u8], variables: u16, left: usize, c: Cursor) -> Operand
    ensures { Sided (expr_at left variables text.now (cursor_of c)).0 result }
{
    match program_line::next_expr(text, variables, left, c.at) {
        Ok(next) => operand_of(next.line),
        Err(_) => Operand::Other,
    }
}

// Variable against constant; a constant on the left exchanges the sides.
#[tactic(auto, using(crate::proofs::Laws::unfused), unfolding(crate::specs::Shape::open_shape))]
fn fuse(op: CompareOp, a: Operand, b: Operand) -> Option<ClassifiedCmp>
    ensures { classified result ≡ fused (compare_view op) (variable_in a) (constant_in a) (variable_in b) (constant_in b) }
{
    match (a, b) {
        (Operand::Variable(variable), Operand::Constant(constant)) => Some(ClassifiedCmp {
            op,
            variable,
            constant,
        }),
        (Operand::Constant(constant), Operand::Variable(variable)) => Some(ClassifiedCmp {
            op: op.commute(),
            variable,
            constant,
        }),
        _ => None,
    }
}

// The condition at a place, if it is variable against constant.
pub fn classify(text: &[u8], variables: u16, left: usize, c: Cursor) -> Option<ClassifiedCmp>
    requires { Near text.now c.at c.row }
    ensures { classified result ≡ classify (expr_at left variables text.now (cursor_of c)).0 }
{
    let next = program_line::next_expr(text, variables, left, c.at).ok()?;
    let ExprLine::Compare(op) = next.line else {
        return None;
    };
    let first = program::next_line(text, c, next.end);
    let a = operand_at(text, variables, left - 1, first);
    let second = skip_expr(text, variables, left - 1, first);
    let b = operand_at(text, variables, left - 1, second);
    fuse(op, a, b)
}

// ---- shapes of loops

// A sole EXIT in then and an empty else, or the other way round: `when` is the value of the condition that exits (a bool of the definition too).
#[tactic(auto, using(std::proofs::lemmas::Bool::Decides::nat_tests), unfolding(crate::specs::Shape::open_shape))]
fn sizes_fit(when: bool, then: u16, otherwise: u16) -> bool
    ensures { result ≡ sizes_fit when then otherwise }
{
    if when {
        otherwise == 0 && then == 1
    } else {
        then == 0 && otherwise == 1
    }
}

#[tactic(auto, unfolding(crate::specs::Shape::open_shape))]
fn if_fits(when: bool, line: StmtLine) -> bool
    ensures { result ≡ if_fits when (stmt_line line) }
{
    match line {
        StmtLine::If {
            then,
            otherwise,
            ..
        } => sizes_fit(when, then, otherwise),
        _ => false,
    }
}

#[tactic(auto, using(std::proofs::lemmas::Bool::Decides::nat_tests), unfolding(crate::specs::Shape::open_shape))]
fn exits(i: u16, line: StmtLine) -> bool
    ensures { result ≡ exit_line i (stmt_line line) }
{
    match line {
        StmtLine::Exit { loop_number, .. } => i == loop_number,
        _ => false,
    }
}

// IF c THEN EXIT i at a place, or IF c ELSE EXIT i.
fn exit_at(
    text: &[u8],
    variables: u16,
    left: usize,
    c: Cursor,
    i: u16,
    when: bool,
) -> Option<ExitIf>
    requires { Near text.now c.at c.row }
    ensures { Exiting when i left variables text.now (cursor_of c) result }
{
    let head = program_line::next_stmt(text, variables, left, c.at).ok()?;
    if !if_fits(when, head.line) {
        return None;
    }
    let condition = program::next_line(text, c, head.end);
    let then = skip_expr(text, variables, left - 1, condition);
    let sole = program_line::next_stmt(text, variables, left - 1, then.at).ok()?;
    if !exits(i, sole.line) {
        return None;
    }
    let end = program::next_line(text, then, sole.end);
    Some(ExitIf { condition, end })
}

// While and Repeat are made by two functions: each is another variant, with another field.
fn while_by(e: Option<ExitIf>) -> Shape
    ensures { result ≡ while_by e }
{
    match e {
        Some(e) => Shape::While {
            condition: e.condition,
            rest: e.end,
        },
        None => Shape::Plain,
    }
}

fn repeat_by(e: Option<ExitIf>) -> Shape
    ensures { result ≡ repeat_by e }
{
    match e {
        Some(e) => Shape::Repeat {
            condition: e.condition,
            end: e.end,
        },
        None => Shape::Plain,
    }
}

// The shape of loop i, whose body of n and whose `continuing` of m statements stand from `c` on. A REPEAT is seen behind its body, which is
// skipped for that unless its end is noted in `ends`; what is skipped is noted there.
pub fn loop_shape(
    text: &[u8],
    ends: &mut Ends,
    variables: u16,
    left: usize,
    c: Cursor,
    i: u16,
    n: u16,
    m: u16,
) -> Shape
    requires near { Near text.now c.at c.row }
    requires sound { Sound text.now variables ends.old }
    ensures shaped { Shaped i n m left variables text.now (cursor_of c) result }
    ensures sound_2 { Sound text.now variables ends.new }
{
    match m {
        0 if n > 0 => while_by(exit_at(text, variables, left, c, i, false)),
        1 => {
            let p = body_end(text, ends, variables, left, n, c);
            repeat_by(exit_at(text, variables, left, p, i, true))
        }
        _ => Shape::Plain,
    }
}
