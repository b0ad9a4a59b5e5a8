// Emission of an expression (body/expr.rs), from the text in place: its operands stand behind its line, left first. After a refusal the walk goes on, so the
// place behind an expression is exact either way.
#![tactic(auto)]

ghost use Rattle.std.specs.Prelude.{◌≡◌, ◌≤◌, ◌<◌, ◌+◌, length};
ghost use Rattle.definition.specs.Limits.{max_code};
ghost use Rattle.definition.specs.Opcode.{AndThen, OrElse};
ghost use Rattle.definition.specs.Tree.{short_circuit};
ghost use Rattle.definition.specs.Program.{expr_at};
ghost use Rattle.definition.specs.Expr.{emit_expr};
ghost use Rattle.opcode.specs.View.{role_view};
ghost use Rattle.opcode.specs.Table.{sheet_in};
ghost use Rattle.program.specs.Walk.{cursor_of, Near};
ghost use Rattle.emit.specs.View.{world};
ghost use Rattle.emit.specs.Steps.{max_height, Fine, Ready};
ghost use Rattle.expr.specs.Went.{WentExpr, WentTwo, Operated, emit_two, bool_role};

use emit::{Book, Emitter, Pool};
use opcode::{Role, ShortCircuitOp};
use program::Cursor;
use program_line::ExprLine;

// Where the walk stands, and the emitter there.
#[derive(Clone, Copy)]
pub struct Walked {
    pub cursor: Cursor,
    pub emitter: Emitter,
}

fn bool_role(b: bool) -> Role
    ensures { role_view result ≡ bool_role b }
{
    if b { Role::LoadTrue } else { Role::LoadFalse }
}

// An operation behind its operands.
fn operate(w: Walked, sheet: &[u8], code: &mut [u8], book: &mut Book, role: Role) -> Walked
    requires fine { Fine w.emitter }
    requires code_len { length code.old ≡ max_code }
    ensures { Operated (sheet_in sheet.now) (role_view role) w code.old book.old result code.new book.new }
{
    let emitter = compile_expr::emit_typed(w.emitter, sheet, code, book, role);
    Walked { emitter, ..w }
}

// The expression at a place, which starts at height h, with so many nesting levels left.
#[cycle(exprs)]
pub fn emit_expr(
    text: &[u8],
    sheet: &[u8],
    code: &mut [u8],
    book: &mut Book,
    pool: &mut Pool,
    variables: u16,
    left: usize,
    h: u16,
    e: Emitter,
    c: Cursor,
) -> Walked
    requires near { Near text.now c.at c.row }
    requires ready { Ready (world e code.old book.old pool.old) }
    requires left_bound { h + left ≤ max_height }
    ensures { WentExpr (sheet_in sheet.now) h (expr_at left variables text.now (cursor_of c)) text.now (world e code.old book.old pool.old) (world result.emitter code.new book.new pool.new) result.cursor }
{
    let next = match program_line::next_expr(text, variables, left, c.at) {
        Ok(next) => next,
        Err(refusal) => {
            let emitter = e.fail(refusal, c.row);
            return Walked { cursor: c, emitter };
        }
    };
    let cursor = program::next_line(text, c, next.end);
    let below = left - 1;
    match next.line {
        ExprLine::Const(k) => {
            let emitter = e.load_constant(sheet, code, book, pool, k);
            Walked { cursor, emitter }
        }
        ExprLine::Bool(b) => {
            let emitter = e.emit_opcode(sheet, code, book, bool_role(b));
            Walked { cursor, emitter }
        }
        ExprLine::Read(v) => {
            let emitter = compile_expr::emit_load_var(e, sheet, code, book, v);
            Walked { cursor, emitter }
        }
        ExprLine::Binary(o) => {
            let two = emit_two(
                text, sheet, code, book, pool, variables, below, h, e, cursor,
            );
            operate(two, sheet, code, book, o.role())
        }
        ExprLine::Unary(o) => {
            let one = emit_expr(
                text, sheet, code, book, pool, variables, below, h, e, cursor,
            );
            operate(one, sheet, code, book, o.role())
        }
        ExprLine::Compare(o) => {
            let two = emit_two(
                text, sheet, code, book, pool, variables, below, h, e, cursor,
            );
            operate(two, sheet, code, book, Role::Compare(o))
        }
        ExprLine::ShortCircuit(ShortCircuitOp::AndThen) => {
            emit_and_then(
                text, sheet, code, book, pool, variables, below, h, e, cursor,
            )
        }
        ExprLine::ShortCircuit(ShortCircuitOp::OrElse) => {
            emit_or_else(
                text, sheet, code, book, pool, variables, below, h, e, cursor,
            )
        }
    }
}

// Two operands, the first at a place: the first below the second on the stack.
#[cycle(exprs)]
fn emit_two(
    text: &[u8],
    sheet: &[u8],
    code: &mut [u8],
    book: &mut Book,
    pool: &mut Pool,
    variables: u16,
    left: usize,
    h: u16,
    e: Emitter,
    c: Cursor,
) -> Walked
    requires near { Near text.now c.at c.row }
    requires ready { Ready (world e code.old book.old pool.old) }
    requires left_bound { h + left < max_height }
    ensures { WentTwo (sheet_in sheet.now) (emit_two h) left variables text.now (cursor_of c) (world e code.old book.old pool.old) (world result.emitter code.new book.new pool.new) result.cursor }
{
    let Walked { cursor, emitter } = emit_expr(
        text, sheet, code, book, pool, variables, left, h, e, c,
    );
    emit_expr(
        text,
        sheet,
        code,
        book,
        pool,
        variables,
        left,
        h + 1,
        emitter,
        cursor,
    )
}

// The right side is the value where the left is true; else it is false. The sides stand in another order than in OR ELSE, so one function for both would branch
// twice.
#[cycle(exprs)]
fn emit_and_then(
    text: &[u8],
    sheet: &[u8],
    code: &mut [u8],
    book: &mut Book,
    pool: &mut Pool,
    variables: u16,
    left: usize,
    h: u16,
    e: Emitter,
    c: Cursor,
) -> Walked
    requires near { Near text.now c.at c.row }
    requires ready { Ready (world e code.old book.old pool.old) }
    requires left_bound { h + left ≤ max_height }
    ensures { WentTwo (sheet_in sheet.now) (λ a b. emit_expr (short_circuit AndThen a b) h) left variables text.now (cursor_of c) (world e code.old book.old pool.old) (world result.emitter code.new book.new pool.new) result.cursor }
{
    let alternative = e.create_label(book);
    let end = alternative.emitter.create_label(book);
    let lhs = emit_expr(
        text,
        sheet,
        code,
        book,
        pool,
        variables,
        left,
        h,
        end.emitter,
        c,
    );
    let e = lhs
        .emitter
        .emit_jmp_if_not(sheet, code, book, alternative.label);
    let rhs = emit_expr(
        text, sheet, code, book, pool, variables, left, h, e, lhs.cursor,
    );
    let f = rhs.emitter.emit_jmp(sheet, code, book, end.label);
    let f = f.bind_label(book, alternative.label);
    let f = f.reset_stack_depth(h);
    let f = f.emit_opcode(sheet, code, book, Role::LoadFalse);
    let emitter = f.bind_label(book, end.label);
    Walked { emitter, ..rhs }
}

// The right side is the value where the left is false; else it is true.
#[cycle(exprs)]
fn emit_or_else(
    text: &[u8],
    sheet: &[u8],
    code: &mut [u8],
    book: &mut Book,
    pool: &mut Pool,
    variables: u16,
    left: usize,
    h: u16,
    e: Emitter,
    c: Cursor,
) -> Walked
    requires near { Near text.now c.at c.row }
    requires ready { Ready (world e code.old book.old pool.old) }
    requires left_bound { h + left ≤ max_height }
    ensures { WentTwo (sheet_in sheet.now) (λ a b. emit_expr (short_circuit OrElse a b) h) left variables text.now (cursor_of c) (world e code.old book.old pool.old) (world result.emitter code.new book.new pool.new) result.cursor }
{
    let alternative = e.create_label(book);
    let end = alternative.emitter.create_label(book);
    let lhs = emit_expr(
        text,
        sheet,
        code,
        book,
        pool,
        variables,
        left,
        h,
        end.emitter,
        c,
    );
    let e = lhs
        .emitter
        .emit_jmp_if_not(sheet, code, book, alternative.label);
    let e = e.emit_opcode(sheet, code, book, Role::LoadTrue);
    let e = e.emit_jmp(sheet, code, book, end.label);
    let e = e.bind_label(book, alternative.label);
    let e = e.reset_stack_depth(h);
    let rhs = emit_expr(
        text, sheet, code, book, pool, variables, left, h, e, lhs.cursor,
    );
    let emitter = rhs.emitter.bind_label(book, end.label);
    Walked { emitter, ..rhs }
}
