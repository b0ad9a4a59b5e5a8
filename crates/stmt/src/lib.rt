// Emission of statements (body/stmt.rs), from the text in place. After a refusal the walk goes on, so the place behind a statement is exact either way.
#![tactic(auto)]

ghost use Rattle.std.specs.Prelude.{◌≡◌, ◌≤◌, ◌<◌, ◌+◌, ◌-◌, length};
ghost use Rattle.definition.specs.Limits.{max_code, max_nesting};
ghost use Rattle.definition.specs.Opcode.{ret};
ghost use Rattle.definition.specs.Program.{is, stmt_forms, line_at, next_line};
ghost use Rattle.definition.specs.Emit.{emit_opcode};
ghost use Rattle.definition.specs.Walk.{say};
ghost use Rattle.definition.specs.Stmt.{emit_stmts};
ghost use Rattle.opcode.specs.Table.{sheet_in};
ghost use Rattle.line_map.specs.View.{pos_view};
ghost use Rattle.program_line.specs.View.{stmt_line};
ghost use Rattle.program.specs.Walk.{cursor_of, Near, Skipped};
ghost use Rattle.program.specs.Ends.{Sound};
ghost use Rattle.program_shape.specs.Shape.{block_at};
ghost use Rattle.emit.specs.View.{world};
ghost use Rattle.emit.specs.Steps.{Ready, Fine};
ghost use Rattle.expr.specs.Went.{Went};
ghost use Rattle.stmt_parts.specs.Context.{expr_in};
ghost use Rattle.stmt_parts.specs.Parts.{Stepped};
ghost use Rattle.stmt.specs.Blocks.{position, Placed, emit_assign};
ghost use Rattle.stmt.specs.Ran.{RanSequence, RanStmt, RanIf, RanElse, RanCase, RanArms, RanArm, RanFor, RanLoop, RanPlain, RanWhile, RanRepeat, RanBody};

use definition::MAX_NESTING;
use emit::{Book, Constant, Emitter, Label, NewLabel, Pool};
use expr::Walked;
use line_map::Pos;
use opcode::Role;
use program::{Cursor, Ends};
use program_line::{ArmLine, StmtLine};
use program_shape::Shape;
use stmt_parts::loops::{OpenLoop, OpenLoops};
use stmt_parts::{Context, conditions, labels, loops};

// What statement emission lends on: the open loops, and where bodies of loops end, as far as that was noted when one was skipped.
#[derive(Clone, Copy)]
struct Lent {
    loops: OpenLoops,
    ends: Ends,
}

// Where a statement stands in its source.
#[tactic(auto, unfolding(crate::specs::Blocks::position))]
fn position_of(line: StmtLine) -> Pos
    ensures { pos_view result ≡ position (stmt_line line) }
{
    match line {
        StmtLine::Assign { pos, .. }
        | StmtLine::If { pos, .. }
        | StmtLine::Case { pos, .. }
        | StmtLine::For { pos, .. }
        | StmtLine::Loop { pos, .. }
        | StmtLine::Exit { pos, .. }
        | StmtLine::Continue { pos, .. }
        | StmtLine::Return { pos } => pos,
    }
}

// The position of a statement's line, if positions are recorded.
fn record_position(e: Emitter, line: StmtLine, recording: bool) -> Emitter
    requires { Fine e }
    ensures { Placed recording (is (stmt_line line)) e result }
{
    if recording {
        e.set_position(position_of(line))
    } else {
        e
    }
}

// n statements in order, each at its own position if positions are recorded (the source's `record`: a bool, as in the definition).
#[cycle(stmts)]
fn sequence(
    text: &[u8],
    sheet: &[u8],
    code: &mut [u8],
    book: &mut Book,
    pool: &mut Pool,
    lent: &mut Lent,
    ctx: Context,
    recording: bool,
    n: usize,
    e: Emitter,
    c: Cursor,
) -> Walked
    requires noted { Sound text.now ctx.variables lent.old.ends }
    requires near { Near text.now c.at c.row }
    requires ready { Ready (world e code.old book.old pool.old) }
    requires left_bound { ctx.inside + ctx.left ≤ max_nesting }
    ensures { RanSequence (sheet_in sheet.now) ctx text.now recording n (cursor_of c) (world e code.old book.old pool.old) (world result.emitter code.new book.new pool.new) lent.old.loops lent.new result.cursor }
{
    let mut on = e;
    let mut here = c;
    for _ in 0..n {
        match program_line::next_stmt(text, ctx.variables, ctx.left, here.at) {
            Ok(next) => {
                let to = program::next_line(text, here, next.end);
                on = record_position(on, next.line, recording);
                let done = stmt(
                    text, sheet, code, book, pool, lent, ctx, next.line, on, here, to,
                );
                on = done.emitter;
                here = done.cursor;
            }
            // The walk stays here, where the others are refused alike, and a refused emitter stays as it is.
            Err(refusal) => on = on.fail(refusal, here.row),
        }
    }
    Walked {
        cursor: here,
        emitter: on,
    }
}

// A statement whose line, at c, was read, and behind which the next stands at `on`; its parts stand one level further in.
#[cycle(stmts)]
fn stmt(
    text: &[u8],
    sheet: &[u8],
    code: &mut [u8],
    book: &mut Book,
    pool: &mut Pool,
    lent: &mut Lent,
    ctx: Context,
    line: StmtLine,
    e: Emitter,
    c: Cursor,
    on: Cursor,
) -> Walked
    requires noted { Sound text.now ctx.variables lent.old.ends }
    requires near { Near text.now c.at c.row }
    requires ready { Ready (world e code.old book.old pool.old) }
    requires left_bound { ctx.inside + ctx.left ≤ max_nesting }
    requires line_value { is (stmt_line line) ≡ line_at (stmt_forms ctx.variables) ctx.left text.now c.at }
    requires skipped { Skipped text.now (next_line text.now (cursor_of c)) on }
    ensures { RanStmt (sheet_in sheet.now) ctx text.now (cursor_of c) (world e code.old book.old pool.old) (world result.emitter code.new book.new pool.new) lent.old.loops lent.new result.cursor }
{
    let ctx = ctx.inner();
    match line {
        StmtLine::Assign { variable: v, .. } => {
            assign(text, sheet, code, book, pool, ctx, v, e, on)
        }
        StmtLine::If {
            then: n,
            otherwise: m,
            ..
        } => if_(text, sheet, code, book, pool, lent, ctx, n, m, e, on),
        StmtLine::Case {
            arms: n,
            otherwise: m,
            ..
        } => case(text, sheet, code, book, pool, lent, ctx, n, m, e, on),
        StmtLine::For {
            loop_number: i,
            variable: v,
            step: k,
            body: n,
            ..
        } => for_(text, sheet, code, book, pool, lent, ctx, i, v, k, n, e, on),
        StmtLine::Loop {
            loop_number: i,
            body: n,
            continuing: m,
            ..
        } => loop_(text, sheet, code, book, pool, lent, ctx, i, n, m, e, on),
        StmtLine::Exit { loop_number: i, .. } => {
            loops::exit(
                text,
                sheet,
                code,
                book,
                &lent.loops,
                ctx.inside,
                i,
                e,
                c,
                on,
            )
        }
        StmtLine::Continue { loop_number: i, .. } => {
            loops::continue_(
                text,
                sheet,
                code,
                book,
                &mut lent.loops,
                ctx.inside,
                i,
                e,
                c,
                on,
            )
        }
        StmtLine::Return { .. } => return_(text, sheet, code, book, e, on),
    }
}

// An assignment, behind its line.
fn assign(
    text: &[u8],
    sheet: &[u8],
    code: &mut [u8],
    book: &mut Book,
    pool: &mut Pool,
    ctx: Context,
    v: u16,
    e: Emitter,
    c: Cursor,
) -> Walked
    requires near { Near text.now c.at c.row }
    requires ready { Ready (world e code.old book.old pool.old) }
    requires left_le_max_nesting { ctx.left ≤ max_nesting }
    ensures { Went (sheet_in sheet.now) (emit_assign v (expr_in ctx text.now (cursor_of c)).0) text.now (expr_in ctx text.now (cursor_of c)).1 (world e code.old book.old pool.old) (world result.emitter code.new book.new pool.new) result.cursor }
{
    let Context {
        variables,
        left,
        ..
    } = ctx;
    let Walked { cursor, emitter } = expr::emit_expr(
        text, sheet, code, book, pool, variables, left, 0, e, c,
    );
    let emitter = compile_expr::emit_store_var(emitter, sheet, code, book, v);
    Walked { cursor, emitter }
}

// A RETURN, behind its line.
fn return_(
    text: &[u8],
    sheet: &[u8],
    code: &mut [u8],
    book: &mut Book,
    e: Emitter,
    c: Cursor,
) -> Walked
    requires near { Near text.now c.at c.row }
    requires fine { Fine e }
    requires code_len { length code.old ≡ max_code }
    ensures { Stepped (sheet_in sheet.now) (say (emit_opcode ret)) text.now (cursor_of c) e code.old book.old result code.new book.new }
{
    let emitter = e.emit_opcode(sheet, code, book, Role::Ret);
    Walked { cursor: c, emitter }
}

// An IF, behind its line.
#[cycle(stmts)]
fn if_(
    text: &[u8],
    sheet: &[u8],
    code: &mut [u8],
    book: &mut Book,
    pool: &mut Pool,
    lent: &mut Lent,
    ctx: Context,
    n: u16,
    m: u16,
    e: Emitter,
    c: Cursor,
) -> Walked
    requires noted { Sound text.now ctx.variables lent.old.ends }
    requires near { Near text.now c.at c.row }
    requires ready { Ready (world e code.old book.old pool.old) }
    requires left_bound { ctx.inside + 1 + ctx.left ≤ max_nesting }
    ensures { RanIf (sheet_in sheet.now) ctx text.now n m (cursor_of c) (world e code.old book.old pool.old) (world result.emitter code.new book.new pool.new) lent.old.loops lent.new result.cursor }
{
    let (n, m) = (usize::from(n), usize::from(m));
    let NewLabel {
        emitter,
        label: next,
    } = e.create_label(book);
    let Walked { emitter, cursor } = conditions::branch_unless(
        text, sheet, code, book, pool, ctx, emitter, c, next,
    );
    let Walked { emitter, cursor } = sequence(
        text, sheet, code, book, pool, lent, ctx, true, n, emitter, cursor,
    );
    else_(
        text, sheet, code, book, pool, lent, ctx, m, emitter, cursor, next,
    )
}

// Its ELSE, which is jumped over only where there is one.
#[cycle(stmts)]
fn else_(
    text: &[u8],
    sheet: &[u8],
    code: &mut [u8],
    book: &mut Book,
    pool: &mut Pool,
    lent: &mut Lent,
    ctx: Context,
    m: usize,
    e: Emitter,
    c: Cursor,
    next: Label,
) -> Walked
    requires noted { Sound text.now ctx.variables lent.old.ends }
    requires near { Near text.now c.at c.row }
    requires ready { Ready (world e code.old book.old pool.old) }
    requires left_bound { ctx.inside + 1 + ctx.left ≤ max_nesting }
    ensures { RanElse (sheet_in sheet.now) ctx text.now m next.0 (cursor_of c) (world e code.old book.old pool.old) (world result.emitter code.new book.new pool.new) lent.old.loops lent.new result.cursor }
{
    if m == 0 {
        let emitter = e.bind_label(book, next);
        return Walked { cursor: c, emitter };
    }
    let NewLabel {
        emitter,
        label: end,
    } = e.create_label(book);
    let e = emitter.emit_jmp(sheet, code, book, end);
    let e = e.bind_label(book, next);
    let Walked { emitter, cursor } = sequence(
        text, sheet, code, book, pool, lent, ctx, true, m, e, c,
    );
    let emitter = emitter.bind_label(book, end);
    Walked { cursor, emitter }
}

// A CASE, behind its line: n arms, and m statements if none fits.
#[cycle(stmts)]
fn case(
    text: &[u8],
    sheet: &[u8],
    code: &mut [u8],
    book: &mut Book,
    pool: &mut Pool,
    lent: &mut Lent,
    ctx: Context,
    n: u16,
    m: u16,
    e: Emitter,
    c: Cursor,
) -> Walked
    requires noted { Sound text.now ctx.variables lent.old.ends }
    requires near { Near text.now c.at c.row }
    requires ready { Ready (world e code.old book.old pool.old) }
    requires left_bound { ctx.inside + 1 + ctx.left ≤ max_nesting }
    ensures { RanCase (sheet_in sheet.now) ctx text.now n m (cursor_of c) (world e code.old book.old pool.old) (world result.emitter code.new book.new pool.new) lent.old.loops lent.new result.cursor }
{
    let (n, m) = (usize::from(n), usize::from(m));
    let Context {
        variables,
        left,
        ..
    } = ctx;
    let Walked { emitter, cursor } = expr::emit_expr(
        text, sheet, code, book, pool, variables, left, 0, e, c,
    );
    let NewLabel {
        emitter,
        label: end,
    } = emitter.create_label(book);
    let Walked { emitter, cursor } = arms(
        text, sheet, code, book, pool, lent, ctx, n, emitter, cursor, end,
    );
    let e = emitter.emit_opcode(sheet, code, book, Role::Pop);
    let Walked { emitter, cursor } = sequence(
        text, sheet, code, book, pool, lent, ctx, true, m, e, cursor,
    );
    let emitter = emitter.bind_label(book, end);
    Walked { cursor, emitter }
}

// n arms. A line that is at fault ends them.
#[cycle(stmts)]
fn arms(
    text: &[u8],
    sheet: &[u8],
    code: &mut [u8],
    book: &mut Book,
    pool: &mut Pool,
    lent: &mut Lent,
    ctx: Context,
    n: usize,
    e: Emitter,
    c: Cursor,
    end: Label,
) -> Walked
    requires noted { Sound text.now ctx.variables lent.old.ends }
    requires near { Near text.now c.at c.row }
    requires ready { Ready (world e code.old book.old pool.old) }
    requires left_bound { ctx.inside + 1 + ctx.left ≤ max_nesting }
    ensures { RanArms (sheet_in sheet.now) ctx text.now n end.0 (cursor_of c) (world e code.old book.old pool.old) (world result.emitter code.new book.new pool.new) lent.old.loops lent.new result.cursor }
{
    let mut on = e;
    let mut here = c;
    for _ in 0..n {
        let next = match program_line::next_arm(text, ctx.left, here.at) {
            Ok(next) => next,
            Err(refusal) => {
                let emitter = on.fail(refusal, here.row);
                return Walked {
                    cursor: here,
                    emitter,
                };
            }
        };
        let to = program::next_line(text, here, next.end);
        let done = arm(
            text, sheet, code, book, pool, lent, ctx, next.line, on, to, end,
        );
        on = done.emitter;
        here = done.cursor;
    }
    Walked {
        cursor: here,
        emitter: on,
    }
}

// An arm behind its line. Without a label it is gone over, and not emitted.
#[cycle(stmts)]
fn arm(
    text: &[u8],
    sheet: &[u8],
    code: &mut [u8],
    book: &mut Book,
    pool: &mut Pool,
    lent: &mut Lent,
    ctx: Context,
    line: ArmLine,
    e: Emitter,
    c: Cursor,
    end: Label,
) -> Walked
    requires noted { Sound text.now ctx.variables lent.old.ends }
    requires near { Near text.now c.at c.row }
    requires ready { Ready (world e code.old book.old pool.old) }
    requires left_bound { ctx.inside + 1 + ctx.left ≤ max_nesting }
    ensures { RanArm (sheet_in sheet.now) ctx text.now line.labels line.statements end.0 (cursor_of c) (world e code.old book.old pool.old) (world result.emitter code.new book.new pool.new) lent.old.loops lent.new result.cursor }
{
    let Context {
        variables,
        left,
        ..
    } = ctx;
    let (n, m) = (usize::from(line.labels), usize::from(line.statements));
    if n == 0 {
        let cursor = program_shape::skip_block(text, &mut lent.ends, variables, left, m, c);
        return Walked { cursor, emitter: e };
    }
    let NewLabel {
        emitter,
        label: next,
    } = e.create_label(book);
    let Walked { emitter, cursor } = labels::open_arm(
        text, sheet, code, book, pool, left, n, emitter, c, next,
    );
    let e = emitter.emit_opcode(sheet, code, book, Role::Pop);
    let Walked { emitter, cursor } = sequence(
        text, sheet, code, book, pool, lent, ctx, true, m, e, cursor,
    );
    let emitter = labels::close_arm(emitter, sheet, code, book, next, end);
    Walked { cursor, emitter }
}

// A FOR, behind its line. Its end is looked at before its start is emitted.
#[cycle(stmts)]
fn for_(
    text: &[u8],
    sheet: &[u8],
    code: &mut [u8],
    book: &mut Book,
    pool: &mut Pool,
    lent: &mut Lent,
    ctx: Context,
    i: u16,
    v: u16,
    step: Constant,
    n: u16,
    e: Emitter,
    c: Cursor,
) -> Walked
    requires noted { Sound text.now ctx.variables lent.old.ends }
    requires near { Near text.now c.at c.row }
    requires ready { Ready (world e code.old book.old pool.old) }
    requires left_bound { ctx.inside + 1 + ctx.left ≤ max_nesting }
    ensures { RanFor (sheet_in sheet.now) ctx text.now i v step n (cursor_of c) (world e code.old book.old pool.old) (world result.emitter code.new book.new pool.new) lent.old.loops lent.new result.cursor }
{
    let Context {
        variables,
        left,
        ..
    } = ctx;
    let to = program_shape::skip_expr(text, variables, left, c);
    let seen = program_shape::operand_at(text, variables, left, to);
    let e = expr::emit_expr(text, sheet, code, book, pool, variables, left, 0, e, c).emitter;
    let e = compile_expr::emit_store_var(e, sheet, code, book, v);
    let NewLabel {
        emitter,
        label: head,
    } = e.create_label(book);
    let NewLabel {
        emitter,
        label: end,
    } = emitter.create_label(book);
    let e = emitter.bind_label(book, head);
    let Walked { emitter, cursor } = conditions::end_test(
        text, sheet, code, book, pool, ctx, v, step, seen, e, to, end,
    );
    let Walked { emitter, cursor } = loop_body(
        text,
        sheet,
        code,
        book,
        pool,
        lent,
        ctx,
        i,
        end,
        usize::from(n),
        emitter,
        cursor,
    );
    let emitter = conditions::for_end(emitter, sheet, code, book, pool, v, step, head, end);
    Walked { cursor, emitter }
}

// A loop, behind its line, by its shape.
#[cycle(stmts)]
fn loop_(
    text: &[u8],
    sheet: &[u8],
    code: &mut [u8],
    book: &mut Book,
    pool: &mut Pool,
    lent: &mut Lent,
    ctx: Context,
    i: u16,
    n: u16,
    m: u16,
    e: Emitter,
    c: Cursor,
) -> Walked
    requires noted { Sound text.now ctx.variables lent.old.ends }
    requires near { Near text.now c.at c.row }
    requires ready { Ready (world e code.old book.old pool.old) }
    requires left_bound { ctx.inside + 1 + ctx.left ≤ max_nesting }
    ensures { RanLoop (sheet_in sheet.now) ctx text.now i n m (cursor_of c) (world e code.old book.old pool.old) (world result.emitter code.new book.new pool.new) lent.old.loops lent.new result.cursor }
{
    let Context {
        variables,
        left,
        ..
    } = ctx;
    let ends = &mut lent.ends;
    match program_shape::loop_shape(text, ends, variables, left, c, i, n, m) {
        Shape::While { condition, rest } => {
            let k = usize::from(n).saturating_sub(1);
            while_(
                text, sheet, code, book, pool, lent, ctx, i, k, e, condition, rest,
            )
        }
        Shape::Repeat { condition, end } => {
            let k = usize::from(n);
            repeat(
                text, sheet, code, book, pool, lent, ctx, i, k, e, c, condition, end,
            )
        }
        Shape::Plain => plain(text, sheet, code, book, pool, lent, ctx, i, n, m, e, c),
    }
}

// A loop of no shape, behind its line.
#[cycle(stmts)]
fn plain(
    text: &[u8],
    sheet: &[u8],
    code: &mut [u8],
    book: &mut Book,
    pool: &mut Pool,
    lent: &mut Lent,
    ctx: Context,
    i: u16,
    n: u16,
    m: u16,
    e: Emitter,
    c: Cursor,
) -> Walked
    requires noted { Sound text.now ctx.variables lent.old.ends }
    requires near { Near text.now c.at c.row }
    requires ready { Ready (world e code.old book.old pool.old) }
    requires left_bound { ctx.inside + 1 + ctx.left ≤ max_nesting }
    ensures { RanPlain (sheet_in sheet.now) ctx text.now i n m (cursor_of c) (world e code.old book.old pool.old) (world result.emitter code.new book.new pool.new) lent.old.loops lent.new result.cursor }
{
    let (n, m) = (usize::from(n), usize::from(m));
    let NewLabel {
        emitter,
        label: head,
    } = e.create_label(book);
    let NewLabel {
        emitter,
        label: end,
    } = emitter.create_label(book);
    let e = emitter.bind_label(book, head);
    let Walked { emitter, cursor } = loop_body(
        text, sheet, code, book, pool, lent, ctx, i, end, n, e, c,
    );
    let Walked { emitter, cursor } = sequence(
        text, sheet, code, book, pool, lent, ctx, true, m, emitter, cursor,
    );
    let e = emitter.emit_jmp(sheet, code, book, head);
    let emitter = e.bind_label(book, end);
    Walked { cursor, emitter }
}

// A WHILE: its body without the IF, of n statements, stands at c.
#[cycle(stmts)]
fn while_(
    text: &[u8],
    sheet: &[u8],
    code: &mut [u8],
    book: &mut Book,
    pool: &mut Pool,
    lent: &mut Lent,
    ctx: Context,
    i: u16,
    n: usize,
    e: Emitter,
    condition: Cursor,
    c: Cursor,
) -> Walked
    requires noted { Sound text.now ctx.variables lent.old.ends }
    requires near { Near text.now condition.at condition.row }
    requires near_2 { Near text.now c.at c.row }
    requires ready { Ready (world e code.old book.old pool.old) }
    requires left_bound { ctx.inside + 1 + ctx.left ≤ max_nesting }
    ensures { RanWhile (sheet_in sheet.now) ctx text.now i n (cursor_of condition) (cursor_of c) (world e code.old book.old pool.old) (world result.emitter code.new book.new pool.new) lent.old.loops lent.new result.cursor }
{
    let inner = ctx.inner();
    let NewLabel {
        emitter,
        label: end,
    } = e.create_label(book);
    let NewLabel {
        emitter,
        label: back,
    } = conditions::while_head(
        text, sheet, code, book, pool, inner, emitter, condition, end,
    );
    let Walked { emitter, cursor } = loop_body(
        text, sheet, code, book, pool, lent, ctx, i, end, n, emitter, c,
    );
    let e = conditions::while_end(
        text, sheet, code, book, pool, inner, emitter, condition, back,
    );
    let emitter = e.bind_label(book, end);
    Walked { cursor, emitter }
}

// A REPEAT: its body stands at c, its condition in the IF behind that, and it ends at `last`.
#[cycle(stmts)]
fn repeat(
    text: &[u8],
    sheet: &[u8],
    code: &mut [u8],
    book: &mut Book,
    pool: &mut Pool,
    lent: &mut Lent,
    ctx: Context,
    i: u16,
    n: usize,
    e: Emitter,
    c: Cursor,
    condition: Cursor,
    last: Cursor,
) -> Walked
    requires noted { Sound text.now ctx.variables lent.old.ends }
    requires near { Near text.now c.at c.row }
    requires near_2 { Near text.now condition.at condition.row }
    requires near_3 { Near text.now last.at last.row }
    requires ready { Ready (world e code.old book.old pool.old) }
    requires left_bound { ctx.inside + 1 + ctx.left ≤ max_nesting }
    ensures { RanRepeat (sheet_in sheet.now) ctx text.now i n (cursor_of condition) (cursor_of c) (cursor_of last) (world e code.old book.old pool.old) (world result.emitter code.new book.new pool.new) lent.old.loops lent.new result.cursor }
{
    let inner = ctx.inner();
    let NewLabel {
        emitter,
        label: head,
    } = e.create_label(book);
    let NewLabel {
        emitter,
        label: end,
    } = emitter.create_label(book);
    let e = conditions::pool_first(text, pool, inner, emitter, condition);
    let e = e.bind_label(book, head);
    let e = loop_body(text, sheet, code, book, pool, lent, ctx, i, end, n, e, c).emitter;
    let e = conditions::branch_unless(
        text, sheet, code, book, pool, inner, e, condition, head,
    ).emitter;
    let emitter = e.bind_label(book, end);
    Walked {
        cursor: last,
        emitter,
    }
}

// The body of loop i, and the label of its CONTINUEs.
#[cycle(stmts)]
fn loop_body(
    text: &[u8],
    sheet: &[u8],
    code: &mut [u8],
    book: &mut Book,
    pool: &mut Pool,
    lent: &mut Lent,
    ctx: Context,
    i: u16,
    end: Label,
    n: usize,
    e: Emitter,
    c: Cursor,
) -> Walked
    requires noted { Sound text.now ctx.variables lent.old.ends }
    requires near { Near text.now c.at c.row }
    requires ready { Ready (world e code.old book.old pool.old) }
    requires left_bound { ctx.inside + 1 + ctx.left ≤ max_nesting }
    ensures { RanBody (sheet_in sheet.now) ctx text.now i end.0 n (cursor_of c) (world e code.old book.old pool.old) (world result.emitter code.new book.new pool.new) lent.old.loops lent.new result.cursor }
{
    let NewLabel {
        emitter,
        label: next,
    } = e.create_label(book);
    loops::open_loop(&mut lent.loops, ctx.inside, i, end, next);
    let within = ctx.in_loop();
    let Walked { emitter, cursor } = sequence(
        text, sheet, code, book, pool, lent, within, true, n, emitter, c,
    );
    let used = loops::next_used(&lent.loops, ctx.inside);
    let emitter = loops::bind_next(emitter, book, next, used);
    Walked { cursor, emitter }
}

// The top statements (`emit_stmts`): no loop is open, and none records its position.
pub fn emit_stmts(
    text: &[u8],
    sheet: &[u8],
    code: &mut [u8],
    book: &mut Book,
    pool: &mut Pool,
    variables: u16,
    n: usize,
    e: Emitter,
    c: Cursor,
) -> Walked
    requires near { Near text.now c.at c.row }
    requires ready { Ready (world e code.old book.old pool.old) }
    ensures { Went (sheet_in sheet.now) (emit_stmts (block_at max_nesting variables text.now n (cursor_of c)).0) text.now (block_at max_nesting variables text.now n (cursor_of c)).1 (world e code.old book.old pool.old) (world result.emitter code.new book.new pool.new) result.cursor }
{
    let mut lent = Lent {
        loops: [OpenLoop::NONE; MAX_NESTING],
        ends: Ends::new(),
    };
    let ctx = Context {
        variables,
        left: MAX_NESTING,
        inside: 0,
    };
    sequence(
        text, sheet, code, book, pool, &mut lent, ctx, false, n, e, c,
    )
}
