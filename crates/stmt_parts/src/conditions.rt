// Conditions: what IF, FOR, WHILE and REPEAT emit of theirs, fused or not; and what closes a FOR and a WHILE.
ghost use Rattle.std.specs.Prelude.{◌≡◌, ◌≤◌};
ghost use Rattle.std.proofs.Math.Option.{none};
ghost use Rattle.definition.specs.Limits.{max_nesting, width};
ghost use Rattle.definition.specs.CompileExpr.{constant_of, classify};
ghost use Rattle.definition.specs.Tree.{bound, counts_down};
ghost use Rattle.definition.specs.Stmt.{branch_unless, end_test_by};
ghost use Rattle.opcode.specs.Table.{sheet_in};
ghost use Rattle.opcode.specs.View.{compare_view};
ghost use Rattle.program.specs.Walk.{cursor_of, Near};
ghost use Rattle.program_shape.specs.Shape.{Sided};
ghost use Rattle.emit.specs.Pool.{Held};
ghost use Rattle.emit.specs.View.{world};
ghost use Rattle.emit.specs.Steps.{run, Ready, Fine, Filled};
ghost use Rattle.expr.specs.Went.{Went};
ghost use Rattle.stmt_parts.specs.Context.{expr_in};
ghost use Rattle.stmt_parts.specs.Parts.{Enters, PoolsFirst, for_end, while_from, while_end};

use crate::Context;
use definition::WIDTH;
use emit::{Book, Constant, Emitter, Label, NewLabel, Pool};
use expr::Walked;
use opcode::{ArithmeticOp, CompareOp, Role};
use program::Cursor;
use program_shape::{ClassifiedCmp, Operand};

// The values below 0, as bits: from this one on.
const NEGATIVE: Constant = 1 << (WIDTH - 1);

// A condition: jumps to the target unless it holds.
pub fn branch_unless(
    text: &[u8],
    sheet: &[u8],
    code: &mut [u8],
    book: &mut Book,
    pool: &mut Pool,
    ctx: Context,
    e: Emitter,
    c: Cursor,
    target: Label,
) -> Walked
    requires near { Near text.now c.at c.row }
    requires ready { Ready (world e code.old book.old pool.old) }
    requires left_le_max_nesting { ctx.left ≤ max_nesting }
    ensures { Went (sheet_in sheet.now) (branch_unless (expr_in ctx text.now (cursor_of c)).0 target.0) text.now (expr_in ctx text.now (cursor_of c)).1 (world e code.old book.old pool.old) (world result.emitter code.new book.new pool.new) result.cursor }
{
    let Context {
        variables,
        left,
        ..
    } = ctx;
    match program_shape::classify(text, variables, left, c) {
        Some(f) => {
            let cursor = program_shape::skip_expr(text, variables, left, c);
            let emitter = compile_expr::emit_classified_cmp_br(
                e, sheet, code, book, pool, f, false, target,
            );
            Walked { cursor, emitter }
        }
        None => {
            let Walked { cursor, emitter } = expr::emit_expr(
                text, sheet, code, book, pool, variables, left, 0, e, c,
            );
            let emitter = emitter.emit_jmp_if_not(sheet, code, book, target);
            Walked { cursor, emitter }
        }
    }
}

// What a FOR's control must be within: a step below 0 counts down.
fn within(step: Constant) -> CompareOp
    ensures { compare_view result ≡ bound (counts_down width step) }
{
    if step >= NEGATIVE {
        CompareOp::Ge
    } else {
        CompareOp::Le
    }
}

// A FOR's end test; `seen` is what its end is.
pub fn end_test(
    text: &[u8],
    sheet: &[u8],
    code: &mut [u8],
    book: &mut Book,
    pool: &mut Pool,
    ctx: Context,
    v: u16,
    step: Constant,
    seen: Operand,
    e: Emitter,
    c: Cursor,
    end: Label,
) -> Walked
    requires near { Near text.now c.at c.row }
    requires ready { Ready (world e code.old book.old pool.old) }
    requires left_le_max_nesting { ctx.left ≤ max_nesting }
    requires sided { Sided (expr_in ctx text.now (cursor_of c)).0 seen }
    ensures { Went (sheet_in sheet.now) (end_test_by (constant_of (expr_in ctx text.now (cursor_of c)).0) (bound (counts_down width step)) v (expr_in ctx text.now (cursor_of c)).0 end.0) text.now (expr_in ctx text.now (cursor_of c)).1 (world e code.old book.old pool.old) (world result.emitter code.new book.new pool.new) result.cursor }
{
    let op = within(step);
    match seen {
        Operand::Constant(k) => {
            let cursor = program_shape::skip_expr(text, ctx.variables, ctx.left, c);
            let f = ClassifiedCmp {
                op,
                variable: v,
                constant: k,
            };
            let emitter = compile_expr::emit_classified_cmp_br(
                e, sheet, code, book, pool, f, false, end,
            );
            Walked { cursor, emitter }
        }
        Operand::Variable(_) | Operand::Other => {
            end_loaded(text, sheet, code, book, pool, ctx, v, op, e, c, end)
        }
    }
}

// One that is not fused.
fn end_loaded(
    text: &[u8],
    sheet: &[u8],
    code: &mut [u8],
    book: &mut Book,
    pool: &mut Pool,
    ctx: Context,
    v: u16,
    op: CompareOp,
    e: Emitter,
    c: Cursor,
    end: Label,
) -> Walked
    requires near { Near text.now c.at c.row }
    requires ready { Ready (world e code.old book.old pool.old) }
    requires left_le_max_nesting { ctx.left ≤ max_nesting }
    ensures { Went (sheet_in sheet.now) (end_test_by none (compare_view op) v (expr_in ctx text.now (cursor_of c)).0 end.0) text.now (expr_in ctx text.now (cursor_of c)).1 (world e code.old book.old pool.old) (world result.emitter code.new book.new pool.new) result.cursor }
{
    let Context {
        variables,
        left,
        ..
    } = ctx;
    let e = compile_expr::emit_load_var(e, sheet, code, book, v);
    let Walked { cursor, emitter } = expr::emit_expr(
        text, sheet, code, book, pool, variables, left, 1, e, c,
    );
    let e = compile_expr::emit_typed(emitter, sheet, code, book, Role::Compare(op));
    let emitter = e.emit_jmp_if_not(sheet, code, book, end);
    Walked { cursor, emitter }
}

// A FOR's end: the control counts on, and the loop goes back to its test.
pub fn for_end(
    e: Emitter,
    sheet: &[u8],
    code: &mut [u8],
    book: &mut Book,
    pool: &mut Pool,
    v: u16,
    step: Constant,
    head: Label,
    end: Label,
) -> Emitter
    requires { Ready (world e code.old book.old pool.old) }
    ensures { Filled (run (sheet_in sheet.now) (for_end v step head.0 end.0)) (world e code.old book.old pool.old) (world result code.new book.new pool.new) }
{
    let add = Role::Arithmetic(ArithmeticOp::Add);
    let e = compile_expr::emit_load_var(e, sheet, code, book, v);
    let e = e.load_constant(sheet, code, book, pool, step);
    let e = compile_expr::emit_typed(e, sheet, code, book, add);
    let e = compile_expr::emit_store_var(e, sheet, code, book, v);
    let e = e.emit_jmp(sheet, code, book, head);
    e.bind_label(book, end)
}

// A WHILE's start: what stands before its body, and the label that it goes back to.
pub fn while_head(
    text: &[u8],
    sheet: &[u8],
    code: &mut [u8],
    book: &mut Book,
    pool: &mut Pool,
    ctx: Context,
    e: Emitter,
    c: Cursor,
    end: Label,
) -> NewLabel
    requires near { Near text.now c.at c.row }
    requires ready { Ready (world e code.old book.old pool.old) }
    requires left_le_max_nesting { ctx.left ≤ max_nesting }
    ensures { Enters (sheet_in sheet.now) (while_from (classify (expr_in ctx text.now (cursor_of c)).0) (expr_in ctx text.now (cursor_of c)).0 end.0) (world e code.old book.old pool.old) (world result.emitter code.new book.new pool.new) result.label.0 }
{
    let Context {
        variables,
        left,
        ..
    } = ctx;
    match program_shape::classify(text, variables, left, c) {
        Some(f) => {
            let e = e.add_constant(pool, f.constant);
            let NewLabel { emitter, label } = e.create_label(book);
            let e = compile_expr::emit_classified_cmp_br(
                emitter, sheet, code, book, pool, f, false, end,
            );
            let emitter = e.bind_label(book, label);
            NewLabel { emitter, label }
        }
        None => {
            let NewLabel { emitter, label } = e.create_label(book);
            let e = emitter.bind_label(book, label);
            let e = expr::emit_expr(
                text, sheet, code, book, pool, variables, left, 0, e, c,
            ).emitter;
            let emitter = e.emit_jmp_if_not(sheet, code, book, end);
            NewLabel { emitter, label }
        }
    }
}

// A WHILE's end: a fused condition is tested again.
pub fn while_end(
    text: &[u8],
    sheet: &[u8],
    code: &mut [u8],
    book: &mut Book,
    pool: &mut Pool,
    ctx: Context,
    e: Emitter,
    c: Cursor,
    start: Label,
) -> Emitter
    requires near { Near text.now c.at c.row }
    requires ready { Ready (world e code.old book.old pool.old) }
    ensures { Filled (run (sheet_in sheet.now) (while_end (classify (expr_in ctx text.now (cursor_of c)).0) start.0)) (world e code.old book.old pool.old) (world result code.new book.new pool.new) }
{
    match program_shape::classify(text, ctx.variables, ctx.left, c) {
        Some(f) => {
            compile_expr::emit_classified_cmp_br(e, sheet, code, book, pool, f, true, start)
        }
        None => e.emit_jmp(sheet, code, book, start),
    }
}

// A fused REPEAT's constant enters the pool before those of its body.
pub fn pool_first(text: &[u8], pool: &mut Pool, ctx: Context, e: Emitter, c: Cursor) -> Emitter
    requires near { Near text.now c.at c.row }
    requires fine { Fine e }
    requires held { Held pool.old }
    ensures { PoolsFirst (classify (expr_in ctx text.now (cursor_of c)).0) e pool.old result pool.new }
{
    match program_shape::classify(text, ctx.variables, ctx.left, c) {
        Some(f) => e.add_constant(pool, f.constant),
        None => e,
    }
}
