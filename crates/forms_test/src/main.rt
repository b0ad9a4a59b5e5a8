// The two forms that lent_emitter and line_run add to the core, run: the emitter lent to each step in turn, and line entries handed over as a run.
#![tactic(auto)]

ghost use Rattle.std.specs.Prelude.{◌≡◌, [], ◌∷◌, length};
ghost use Rattle.definition.specs.Limits.{max_code};
ghost use Rattle.emit.specs.View.{world};
ghost use Rattle.emit.specs.Steps.{Fine, Ready};
ghost use Rattle.line_run.specs.Run.{entries_in, kept, over};

use definition::{ENTRY_SIZE, MAX_CODE, MAX_PROGRAM};
use emit::book::BOOK_SIZE;
use emit::{Book, Emitter, Label, POOL_SIZE, Pool, book};
use lent_emitter::Lent;
use line_map::{LineEntry, Pos};
use opcode::CompareOp;
use opcode::sheet::TABLE_SIZE;
use program::Cursor;
use replay::print;
use std::io;
use std::io::Write;

// ---- two entries of a local, lent as a run

fn remap_two(a: LineEntry, b: LineEntry, moves: &[u16], end: usize) -> [LineEntry; 2]
    ensures { entries_in result ≡ over (kept moves.now end 2 (a ∷ b ∷ [])) (entries_in (a ∷ b ∷ [])) }
{
    let mut es = [a, b];
    line_run::remap_line_map(&mut es, 2, moves, end);
    es
}

// ---- what is run

fn print_bytes<W: Write>(out: &mut W, bytes: &[u8]) -> io::Result<()> {
    for b in bytes {
        write!(out, "{b:02x} ")?;
    }
    out.write_all(b"\n")
}

// The code, and where each branch stands and leads.
fn print_emitted<W: Write>(out: &mut W, e: Emitter, code: &[u8], book: &Book) -> io::Result<()>
    requires fine { Fine e }
    requires code_len { length code.now ≡ max_code }
{
    print_bytes(out, &code[..e.size])?;
    for n in 0..e.patches {
        let patch = book::patch_at(book, n);
        print(out, patch.instruction_offset as u64, b',')?;
        print(out, e.bound_label(book, patch.label) as u64, b'\n')?;
    }
    Ok(())
}

fn start() -> Emitter
    ensures { Fine result }
{
    Emitter::new(Pos { line: 1, column: 1 })
}

// ---- LOOP v0 := 7; v1 := v0; IF v0 >= 5 THEN EXIT; END_IF; END_LOOP, step by step

// Sheet, code, book and pool go along one by one, as Lent's methods take them.
fn assignments(e: &mut Lent, sheet: &[u8], code: &mut [u8], book: &mut Book, pool: &mut Pool)
    requires { Ready (world e.old.emitter code.old book.old pool.old) }
    ensures { Ready (world e.new.emitter code.new book.new pool.new) }
{
    e.load_constant(sheet, code, book, pool, 7);
    e.emit_store_var(sheet, code, book, 0);
    e.emit_load_var(sheet, code, book, 0);
    e.emit_store_var(sheet, code, book, 1);
}

fn conditional_exit(
    e: &mut Lent,
    sheet: &[u8],
    code: &mut [u8],
    book: &mut Book,
    pool: &mut Pool,
    end: Label,
)
    requires { Ready (world e.old.emitter code.old book.old pool.old) }
    ensures { Ready (world e.new.emitter code.new book.new pool.new) }
{
    let next = e.create_label(book);
    e.emit_cmp_br(sheet, code, book, pool, CompareOp::Lt, 0, 5, next);
    e.emit_jmp(sheet, code, book, end);
    e.bind_label(book, next);
}

fn loop_statement(e: &mut Lent, sheet: &[u8], code: &mut [u8], book: &mut Book, pool: &mut Pool)
    requires { Ready (world e.old.emitter code.old book.old pool.old) }
    ensures { Ready (world e.new.emitter code.new book.new pool.new) }
{
    let head = e.create_label(book);
    let end = e.create_label(book);
    let _ = e.create_label(book);
    e.bind_label(book, head);
    assignments(e, sheet, code, book, pool);
    conditional_exit(e, sheet, code, book, pool, end);
    e.emit_jmp(sheet, code, book, head);
    e.bind_label(book, end);
}

fn by_steps<W: Write>(out: &mut W, sheet: &[u8]) -> io::Result<()> {
    let mut code = [0u8; MAX_CODE];
    let mut book = [0u16; BOOK_SIZE];
    let mut pool = [0u32; POOL_SIZE];
    let mut lent = Lent { emitter: start() };
    loop_statement(&mut lent, sheet, &mut code, &mut book, &mut pool);
    print_emitted(out, lent.emitter, &code, &book)
}

// ---- the statements of a text: with the emitter lent, and by the core

fn by_reference<W: Write>(out: &mut W, sheet: &[u8], text: &[u8], n: usize) -> io::Result<()> {
    if text.len() > MAX_PROGRAM {
        return Ok(());
    }
    let mut code = [0u8; MAX_CODE];
    let mut book = [0u16; BOOK_SIZE];
    let mut pool = [0u32; POOL_SIZE];
    let top = Cursor { at: 0, row: 1 };
    let mut lent = Lent { emitter: start() };
    lent.emit_stmts(text, sheet, &mut code, &mut book, &mut pool, 2, n, top);
    print_emitted(out, lent.emitter, &code, &book)
}

fn by_value<W: Write>(out: &mut W, sheet: &[u8], text: &[u8], n: usize) -> io::Result<()> {
    if text.len() > MAX_PROGRAM {
        return Ok(());
    }
    let mut code = [0u8; MAX_CODE];
    let mut book = [0u16; BOOK_SIZE];
    let mut pool = [0u32; POOL_SIZE];
    let top = Cursor { at: 0, row: 1 };
    let w = stmt::emit_stmts(
        text,
        sheet,
        &mut code,
        &mut book,
        &mut pool,
        2,
        n,
        start(),
        top,
    );
    print_emitted(out, w.emitter, &code, &book)
}

// ---- entries

fn print_entry<W: Write>(out: &mut W, e: LineEntry) -> io::Result<()> {
    print(out, u64::from(e.offset), b',')?;
    print(out, u64::from(e.pos.line), b',')?;
    print(out, u64::from(e.pos.column), b'\n')
}

fn entry(offset: u16, line: u16) -> LineEntry {
    LineEntry {
        offset,
        pos: Pos { line, column: 1 },
    }
}

// Two entries remapped as a run of structs, and then as numbers, with the count that is kept.
fn remapped<W: Write>(
    out: &mut W,
    a: LineEntry,
    b: LineEntry,
    moves: &[u16],
    end: usize,
) -> io::Result<()> {
    for e in remap_two(a, b, moves, end) {
        print_entry(out, e)?;
    }
    let mut lines = [0u16; 2 * ENTRY_SIZE];
    let behind = line_map::put_entry(&mut lines, 0, a);
    line_map::put_entry(&mut lines, behind, b);
    let mut mapped = [0u16; 2 * ENTRY_SIZE];
    let n = optimize::remap_line_map(moves, end, &lines, &mut mapped);
    print_entry(out, line_map::entry_at(&mapped, 0))?;
    print_entry(out, line_map::entry_at(&mapped, ENTRY_SIZE))?;
    print(out, n as u64, b'\n')
}

fn main(rt: HostRuntime) -> io::Result<()> {
    let mut sheet = [0u8; TABLE_SIZE];
    let _ = opcode::sheet::read_sheet(
        b"1,2,3,4,5,6,7,8,9,10,11,12,13,14,15,16,17,18,19,20,21,22,23,24,25,26,27,1,2,3,4,5,6\n",
        &mut sheet,
    );
    let text = b"L,1,1,0,3,0\nA,1,1,0\nK,7\nA,1,1,1\nD,0\nI,1,1,1,0\nC,5\nD,0\nK,5\nX,1,1,0\n";
    let out = &mut rt.stdout();
    by_steps(out, &sheet)?;
    by_reference(out, &sheet, text, 1)?;
    by_value(out, &sheet, text, 1)?;
    let moves = [0u16, 9, 0, 2, 0, 0, 4];
    remapped(out, entry(0, 1), entry(3, 2), &moves, 4)?;
    remapped(out, entry(0, 1), entry(2, 2), &moves, 4)?;
    remapped(out, entry(1, 1), entry(3, 2), &moves, 4)?;
    remapped(out, entry(3, 1), entry(6, 2), &moves, 4)
}
