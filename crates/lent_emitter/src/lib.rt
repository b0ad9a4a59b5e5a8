// One emitter, lent to each step in turn (emit.rs's `&mut self`): thin methods over the by-value core, each with the core's contract, and each proved with no
// file. Methods of another crate's struct are refused: `Lent` holds the emitter.
#![tactic(auto)]

ghost use Rattle.std.specs.Prelude.{◌≡◌, length};
ghost use Rattle.definition.specs.Limits.{max_code, max_nesting};
ghost use Rattle.definition.specs.Emit.{load_variable, store_variable, emit_jmp, load_constant, emit_cmp_br, bind_label};
ghost use Rattle.definition.specs.Stmt.{emit_stmts};
ghost use Rattle.opcode.specs.View.{compare_view};
ghost use Rattle.opcode.specs.Table.{sheet_in};
ghost use Rattle.program.specs.Walk.{cursor_of, Near};
ghost use Rattle.program_shape.specs.Shape.{block_at};
ghost use Rattle.emit.specs.View.{world};
ghost use Rattle.emit.specs.Steps.{call, Fine, Ready, Booked, Created, Coded, Filled};
ghost use Rattle.expr.specs.Went.{Went};

use emit::{Book, Constant, Emitter, Label, Pool};
use opcode::CompareOp;
use program::Cursor;

#[derive(Clone, Copy)]
pub struct Lent {
    pub emitter: Emitter,
}

// ---- labels

impl Lent {
    // A label more (11).
    pub fn create_label(&mut self, book: &mut Book) -> Label
        requires fine { Fine self.old.emitter }
        ensures { Created self.old.emitter book.old self.new.emitter book.new result.0 }
    {
        let new = self.emitter.create_label(book);
        self.emitter = new.emitter;
        new.label
    }

    pub fn bind_label(&mut self, book: &mut Book, label: Label)
        requires fine { Fine self.old.emitter }
        ensures { Booked (bind_label label.0) self.old.emitter book.old self.new.emitter book.new }
    {
        self.emitter = self.emitter.bind_label(book, label);
    }
}

// ---- variables and constants

impl Lent {
    pub fn emit_load_var(&mut self, sheet: &[u8], code: &mut [u8], book: &mut Book, variable: u16)
        requires fine { Fine self.old.emitter }
        requires code_len { length code.old ≡ max_code }
        ensures { Coded (call (sheet_in sheet.now) (load_variable variable)) self.old.emitter code.old book.old self.new.emitter code.new book.new }
    {
        self.emitter = compile_expr::emit_load_var(self.emitter, sheet, code, book, variable);
    }

    pub fn emit_store_var(&mut self, sheet: &[u8], code: &mut [u8], book: &mut Book, variable: u16)
        requires fine { Fine self.old.emitter }
        requires code_len { length code.old ≡ max_code }
        ensures { Coded (call (sheet_in sheet.now) (store_variable variable)) self.old.emitter code.old book.old self.new.emitter code.new book.new }
    {
        self.emitter = compile_expr::emit_store_var(self.emitter, sheet, code, book, variable);
    }

    // 13, 10, 12.
    pub fn load_constant(
        &mut self,
        sheet: &[u8],
        code: &mut [u8],
        book: &mut Book,
        pool: &mut Pool,
        k: Constant,
    )
        requires { Ready (world self.old.emitter code.old book.old pool.old) }
        ensures { Filled (call (sheet_in sheet.now) (load_constant k)) (world self.old.emitter code.old book.old pool.old) (world self.new.emitter code.new book.new pool.new) }
    {
        self.emitter = self.emitter.load_constant(sheet, code, book, pool, k);
    }
}

// ---- branches

impl Lent {
    pub fn emit_jmp(&mut self, sheet: &[u8], code: &mut [u8], book: &mut Book, label: Label)
        requires fine { Fine self.old.emitter }
        requires code_len { length code.old ≡ max_code }
        ensures { Coded (call (sheet_in sheet.now) (emit_jmp label.0)) self.old.emitter code.old book.old self.new.emitter code.new book.new }
    {
        self.emitter = self.emitter.emit_jmp(sheet, code, book, label);
    }

    // A CMP_BR of a variable and a constant (13, 10, 12).
    pub fn emit_cmp_br(
        &mut self,
        sheet: &[u8],
        code: &mut [u8],
        book: &mut Book,
        pool: &mut Pool,
        op: CompareOp,
        v: u16,
        k: Constant,
        label: Label,
    )
        requires { Ready (world self.old.emitter code.old book.old pool.old) }
        ensures { Filled (call (sheet_in sheet.now) (emit_cmp_br (compare_view op) v k label.0)) (world self.old.emitter code.old book.old pool.old) (world self.new.emitter code.new book.new pool.new) }
    {
        self.emitter = self
            .emitter
            .emit_cmp_br(sheet, code, book, pool, op, v, k, label);
    }
}

// ---- statements

impl Lent {
    // The top statements, from c on; the place behind them is answered.
    pub fn emit_stmts(
        &mut self,
        text: &[u8],
        sheet: &[u8],
        code: &mut [u8],
        book: &mut Book,
        pool: &mut Pool,
        variables: u16,
        n: usize,
        c: Cursor,
    ) -> Cursor
        requires near { Near text.now c.at c.row }
        requires ready { Ready (world self.old.emitter code.old book.old pool.old) }
        ensures { Went (sheet_in sheet.now) (emit_stmts (block_at max_nesting variables text.now n (cursor_of c)).0) text.now (block_at max_nesting variables text.now n (cursor_of c)).1 (world self.old.emitter code.old book.old pool.old) (world self.new.emitter code.new book.new pool.new) result }
    {
        let e = self.emitter;
        let w = stmt::emit_stmts(text, sheet, code, book, pool, variables, n, e, c);
        self.emitter = w.emitter;
        w.cursor
    }
}
