// CASE: what is emitted of an arm but for its body. The steps are functions over values; those that read the labels' lines stand above them.
ghost use Rattle.std.specs.Prelude.{◌≡◌, ◌<◌, length};
ghost use Rattle.definition.specs.Limits.{max_code};
ghost use Rattle.definition.specs.Opcode.{Eq, Ge, Le};
ghost use Rattle.definition.specs.Tree.{value, range};
ghost use Rattle.definition.specs.Program.{labels_at};
ghost use Rattle.definition.specs.Stmt.{test_against, test_label};
ghost use Rattle.opcode.specs.Table.{sheet_in};
ghost use Rattle.opcode.specs.View.{compare_view};
ghost use Rattle.program.specs.Walk.{cursor_of, Near};
ghost use Rattle.emit.specs.View.{world};
ghost use Rattle.emit.specs.Steps.{run, Ready, Fine, Coded, Filled};
ghost use Rattle.expr.specs.Went.{Went};
ghost use Rattle.stmt_parts.specs.Parts.{Leads, label_here, test_jump, test_all, arm_tests, arm_end};

use emit::{Book, Constant, Emitter, Label, NewLabel, Pool};
use expr::Walked;
use opcode::{CompareOp, Role};
use program::Cursor;
use program_line::LabelLine;

// One test of a copy of the selector.
fn test_against(
    e: Emitter,
    sheet: &[u8],
    code: &mut [u8],
    book: &mut Book,
    pool: &mut Pool,
    op: CompareOp,
    k: Constant,
    fail: Label,
) -> Emitter
    requires { Ready (world e code.old book.old pool.old) }
    ensures { Filled (run (sheet_in sheet.now) (test_against (compare_view op) k fail.0)) (world e code.old book.old pool.old) (world result code.new book.new pool.new) }
{
    let e = e.emit_opcode(sheet, code, book, Role::Dup);
    let e = e.load_constant(sheet, code, book, pool, k);
    let e = compile_expr::emit_typed(e, sheet, code, book, Role::Compare(op));
    e.emit_jmp_if_not(sheet, code, book, fail)
}

// The test of a value.
pub fn test_value(
    e: Emitter,
    sheet: &[u8],
    code: &mut [u8],
    book: &mut Book,
    pool: &mut Pool,
    k: Constant,
    fail: Label,
) -> Emitter
    requires { Ready (world e code.old book.old pool.old) }
    ensures { Filled (run (sheet_in sheet.now) (test_label (value k) fail.0)) (world e code.old book.old pool.old) (world result code.new book.new pool.new) }
{
    test_against(e, sheet, code, book, pool, CompareOp::Eq, k, fail)
}

// The tests of a range.
pub fn test_range(
    e: Emitter,
    sheet: &[u8],
    code: &mut [u8],
    book: &mut Book,
    pool: &mut Pool,
    low: Constant,
    high: Constant,
    fail: Label,
) -> Emitter
    requires { Ready (world e code.old book.old pool.old) }
    ensures { Filled (run (sheet_in sheet.now) (test_label (range low high) fail.0)) (world e code.old book.old pool.old) (world result code.new book.new pool.new) }
{
    let e = test_against(e, sheet, code, book, pool, CompareOp::Ge, low, fail);
    test_against(e, sheet, code, book, pool, CompareOp::Le, high, fail)
}

// The test of the label at a place.
fn test_label(
    text: &[u8],
    sheet: &[u8],
    code: &mut [u8],
    book: &mut Book,
    pool: &mut Pool,
    left: usize,
    e: Emitter,
    c: Cursor,
    fail: Label,
) -> Walked
    requires near { Near text.now c.at c.row }
    requires ready { Ready (world e code.old book.old pool.old) }
    ensures { Went (sheet_in sheet.now) (test_label (label_here left text.now (cursor_of c)).0 fail.0) text.now (label_here left text.now (cursor_of c)).1 (world e code.old book.old pool.old) (world result.emitter code.new book.new pool.new) result.cursor }
{
    let next = match program_line::next_label(text, left, c.at) {
        Ok(next) => next,
        Err(refusal) => {
            let emitter = e.fail(refusal, c.row);
            return Walked { cursor: c, emitter };
        }
    };
    let cursor = program::next_line(text, c, next.end);
    let emitter = match next.line {
        LabelLine::Value(k) => test_value(e, sheet, code, book, pool, k, fail),
        LabelLine::Range(low, high) => test_range(e, sheet, code, book, pool, low, high, fail),
    };
    Walked { cursor, emitter }
}

// One that is not the last: it jumps to the body.
fn test_jump(
    text: &[u8],
    sheet: &[u8],
    code: &mut [u8],
    book: &mut Book,
    pool: &mut Pool,
    left: usize,
    e: Emitter,
    c: Cursor,
    body: Label,
) -> Walked
    requires near { Near text.now c.at c.row }
    requires ready { Ready (world e code.old book.old pool.old) }
    ensures { Leads (sheet_in sheet.now) (test_jump (label_here left text.now (cursor_of c)).0 body.0) text.now (label_here left text.now (cursor_of c)).1 (world e code.old book.old pool.old) (world result.emitter code.new book.new pool.new) result.cursor }
{
    let NewLabel { emitter, label } = e.create_label(book);
    let Walked { cursor, emitter } = test_label(
        text, sheet, code, book, pool, left, emitter, c, label,
    );
    let e = emitter.emit_jmp(sheet, code, book, body);
    let emitter = e.bind_label(book, label);
    Walked { cursor, emitter }
}

// n labels, the first of them at a place.
fn test_labels(
    text: &[u8],
    sheet: &[u8],
    code: &mut [u8],
    book: &mut Book,
    pool: &mut Pool,
    left: usize,
    n: usize,
    e: Emitter,
    c: Cursor,
    body: Label,
    fail: Label,
) -> Walked
    requires near { Near text.now c.at c.row }
    requires ready { Ready (world e code.old book.old pool.old) }
    requires n_nonzero { 0 < n }
    ensures { Went (sheet_in sheet.now) (test_all (labels_at left text.now n (cursor_of c)).0 body.0 fail.0) text.now (labels_at left text.now n (cursor_of c)).1 (world e code.old book.old pool.old) (world result.emitter code.new book.new pool.new) result.cursor }
{
    let mut on = e;
    let mut here = c;
    for _ in 1..n {
        let next = test_jump(text, sheet, code, book, pool, left, on, here, body);
        on = next.emitter;
        here = next.cursor;
    }
    test_label(text, sheet, code, book, pool, left, on, here, fail)
}

// The tests of an arm that has labels; two or more lead to its body by a label of their own.
pub fn open_arm(
    text: &[u8],
    sheet: &[u8],
    code: &mut [u8],
    book: &mut Book,
    pool: &mut Pool,
    left: usize,
    n: usize,
    e: Emitter,
    c: Cursor,
    next: Label,
) -> Walked
    requires near { Near text.now c.at c.row }
    requires ready { Ready (world e code.old book.old pool.old) }
    requires n_nonzero { 0 < n }
    ensures { Leads (sheet_in sheet.now) (arm_tests (labels_at left text.now n (cursor_of c)).0 next.0) text.now (labels_at left text.now n (cursor_of c)).1 (world e code.old book.old pool.old) (world result.emitter code.new book.new pool.new) result.cursor }
{
    if n == 1 {
        return test_label(text, sheet, code, book, pool, left, e, c, next);
    }
    let NewLabel { emitter, label } = e.create_label(book);
    let Walked { cursor, emitter } = test_labels(
        text, sheet, code, book, pool, left, n, emitter, c, label, next,
    );
    let emitter = emitter.bind_label(book, label);
    Walked { cursor, emitter }
}

// Behind an arm's body: the selector is on the stack again where the next arm starts.
pub fn close_arm(
    e: Emitter,
    sheet: &[u8],
    code: &mut [u8],
    book: &mut Book,
    next: Label,
    end: Label,
) -> Emitter
    requires fine { Fine e }
    requires code_len { length code.old ≡ max_code }
    ensures { Coded (run (sheet_in sheet.now) (arm_end next.0 end.0)) e code.old book.old result code.new book.new }
{
    let e = e.emit_jmp(sheet, code, book, end);
    let e = e.bind_label(book, next);
    e.reset_stack_depth(1)
}
