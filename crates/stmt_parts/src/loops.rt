// The open loops (the source's `loops`), outermost first, in a lent array. How many are open is known to the walk (`Context`).
ghost use Rattle.std.specs.Prelude.{◌≡◌, ◌≤◌, ◌<◌, length};
ghost use Rattle.definition.specs.Limits.{max_code, max_nesting};
ghost use Rattle.definition.specs.Program.{next_line};
ghost use Rattle.definition.specs.Stmt.{labels, exit_of};
ghost use Rattle.opcode.specs.Table.{sheet_in};
ghost use Rattle.program.specs.Walk.{cursor_of, Skipped};
ghost use Rattle.emit.specs.Steps.{Fine};
ghost use Rattle.stmt_parts.specs.Loops.{open_at, opens_in, loops_of, Opened, Finds};
ghost use Rattle.stmt_parts.specs.Parts.{jump_row, Stepped, Continued, BindsNext};

use definition::{MAX_NESTING, Refusal};
use emit::{Book, Emitter, Label};
use expr::Walked;
use program::Cursor;

// An open loop: its number, where EXIT and CONTINUE lead, and whether a CONTINUE led there (the source's `next_used`).
#[derive(Clone, Copy)]
pub struct OpenLoop {
    pub number: u16,
    pub exit: Label,
    pub next: Label,
    pub used: bool,
}

impl OpenLoop {
    // What a list of open loops is filled with.
    pub const NONE: OpenLoop = OpenLoop {
        number: 0,
        exit: Label(0),
        next: Label(0),
        used: false,
    };
}

pub type OpenLoops = [OpenLoop; MAX_NESTING];

// A loop more, its CONTINUEs not used yet.
pub fn open_loop(loops: &mut OpenLoops, inside: usize, i: u16, exit: Label, next: Label)
    requires { inside < max_nesting }
    ensures { Opened inside i exit.0 next.0 loops.old loops.new }
{
    loops[inside] = OpenLoop {
        number: i,
        exit,
        next,
        used: false,
    };
}

// The place of the innermost open loop of a number.
pub fn labels(loops: &OpenLoops, inside: usize, i: u16) -> Option<usize>
    requires { inside ≤ max_nesting }
    ensures { Finds loops.now inside i result }
{
    loops[..inside].iter().rposition(|open| open.number == i)
}

// EXIT, whose line stands at c, and the next at `on`: to the end of its loop (4).
pub fn exit(
    text: &[u8],
    sheet: &[u8],
    code: &mut [u8],
    book: &mut Book,
    loops: &OpenLoops,
    inside: usize,
    i: u16,
    e: Emitter,
    c: Cursor,
    on: Cursor,
) -> Walked
    requires skipped { Skipped text.now (next_line text.now (cursor_of c)) on }
    requires fine { Fine e }
    requires code_len { length code.old ≡ max_code }
    requires inside_le_max_nesting { inside ≤ max_nesting }
    ensures { Stepped (sheet_in sheet.now) (jump_row c.row (exit_of (labels i (loops_of (opens_in loops.now inside))))) text.now (next_line text.now (cursor_of c)) e code.old book.old result code.new book.new }
{
    let found = labels(loops, inside, i);
    let emitter = match found {
        Some(k) => e.emit_jmp(sheet, code, book, loops[k].exit),
        None => e.fail(Refusal::NoLoop, c.row),
    };
    Walked {
        cursor: on,
        emitter,
    }
}

// CONTINUE, whose line stands at c, and the next at `on`: to where its loop goes on (4); that label is used from here on.
pub fn continue_(
    text: &[u8],
    sheet: &[u8],
    code: &mut [u8],
    book: &mut Book,
    loops: &mut OpenLoops,
    inside: usize,
    i: u16,
    e: Emitter,
    c: Cursor,
    on: Cursor,
) -> Walked
    requires skipped { Skipped text.now (next_line text.now (cursor_of c)) on }
    requires fine { Fine e }
    requires code_len { length code.old ≡ max_code }
    requires inside_le_max_nesting { inside ≤ max_nesting }
    ensures { Continued (sheet_in sheet.now) inside i text.now (cursor_of c) e code.old book.old loops.old result code.new book.new loops.new }
{
    let emitter = match labels(loops, inside, i) {
        Some(k) => {
            let open = &mut loops[k];
            open.used = true;
            e.emit_jmp(sheet, code, book, open.next)
        }
        None => e.fail(Refusal::NoLoop, c.row),
    };
    Walked {
        cursor: on,
        emitter,
    }
}

// Did a CONTINUE lead to the loop that was opened here?
pub fn next_used(loops: &OpenLoops, inside: usize) -> bool
    requires { inside < max_nesting }
    ensures { result ≡ (open_at loops.now inside).used }
{
    loops[inside].used
}

// The label of a loop's CONTINUEs is bound only if one leads there: binding ends the window in which a load folds.
pub fn bind_next(e: Emitter, book: &mut Book, next: Label, used: bool) -> Emitter
    requires fine { Fine e }
    ensures { BindsNext used next.0 e book.old result book.new }
{
    if used { e.bind_label(book, next) } else { e }
}
