// The emitter (emit.rs, and the pool of compile.rs): counts, the last instruction, depths, position and refusal by value; its tables are lent.
//
// Lent are the code (MAX_CODE bytes), the book (BOOK_SIZE numbers: labels, patches and line entries) and the pool (POOL_SIZE constants), each exactly as
// long. A method has only those that its call can change, so they are no struct. Its contract names the definition's call that it is, in every state: one that
// refuses leaves the state that it met, a refusal is sticky, and a refused emitter comes back as it was, with what is lent. `Fine` is a clause and no ghost
// field: contracts name emitters made of parts (`altered`, `readied`), and each would have to carry its proof.
#![tactic(auto)]

ghost use Rattle.std.specs.Prelude.{◌≡◌, ◌≤◌, ◌<◌, ◌+◌, max, [], length};
ghost use Rattle.definition.specs.Limits.{max_code};
ghost use Rattle.definition.specs.Opcode.{shift, effect, cmp_br};
ghost use Rattle.definition.specs.Emit.{branch, fold_store, stands_at, last_entry, le16, bind_label, store_variable, load_constant, add_constant, emit_opcode, emit_jmp, emit_jmp_if_not, emit_cmp_br, reset_stack_depth, set_position, refused};
ghost use Rattle.definition.specs.Compile.{bound_label};
ghost use Rattle.definition.specs.View.{refusal_number};
ghost use Rattle.opcode.specs.View.{role_view, compare_view};
ghost use Rattle.opcode.specs.Table.{sheet_in};
ghost use Rattle.line_map.specs.View.{pos_view};
ghost use Rattle.emit.specs.Book.{labels_in, lines_in};
ghost use Rattle.emit.specs.Pool.{Held};
ghost use Rattle.emit.specs.View.{world, patch_view};
ghost use Rattle.emit.specs.Steps.{once, call, LastAt, Fine, Ready, Bare, Booked, Created, Pooled, Coded, Filled, Begun};
ghost use Rattle.emit.specs.Load.{Loads};
ghost use Rattle.emit.specs.Parts.{altered, readied, Noted, Prepared, Written, Branched, Put, Added, cmp_operand, patching};

use crate::book::BOOK_SIZE;
use crate::load::{LoadForm, Loaded};
use crate::patch::PendingPatch;
use definition::{MAX_CODE, MAX_LABELS, MAX_LINES, Refusal, Refused};
use line_map::{LineEntry, Pos};
use opcode::{CompareOp, Role, sheet};

pub mod book; // book.rt: the book's tables, written and read back
pub mod bytes; // bytes.rt: operands, and a byte put before the store that ends the code
pub mod load; // load.rt: how a load is emitted, and what it did
pub mod patch; // patch.rt: pending patches
mod pool; // pool.rt: the pool's lookup, and the table behind the constants

// A constant's bits. The pool's width is this type.
pub type Constant = u32;

// Elements of a pool: the constants, and a table that finds them.
pub const POOL_SIZE: usize = pool::SIZE;

// A pool as it is lent.
pub type Pool = [Constant; POOL_SIZE];

// A book as it is lent: labels, patches and line entries (book.rt).
pub type Book = [u16; BOOK_SIZE];

// Bytes of a store, which a load may fold into.
const STORE_SIZE: usize = 3;

// The instruction that a load may fold into: the source's `last_load` and `last_store`.
#[derive(Clone, Copy)]
pub enum Last {
    Other,
    Loaded(u16),
    Stored(u16),
}

// A label's number, counted as labels are created. It is never an offset.
#[derive(Clone, Copy)]
pub struct Label(pub u16);

#[derive(Clone, Copy)]
pub struct Emitter {
    // Bytes of code, labels, patches, line entries and constants so far.
    pub size: usize,
    pub labels: usize,
    pub patches: usize,
    pub lines: usize,
    pub constants: usize,
    pub last: Last,
    // The stack's depth here, and the greatest so far (`max_stack_depth`).
    pub depth: usize,
    pub deepest: usize,
    pub position: Pos,
    pub refused: Option<Refused>,
}

// What `create_label` answers.
#[derive(Clone, Copy)]
pub struct NewLabel {
    pub emitter: Emitter,
    pub label: Label,
}

// ---- state

impl Emitter {
    // An empty emitter at the header's position.
    pub fn new(position: Pos) -> Emitter
        ensures { Begun (pos_view position) result }
    {
        Emitter {
            size: 0,
            labels: 0,
            patches: 0,
            lines: 0,
            constants: 0,
            last: Last::Other,
            depth: 0,
            deepest: 0,
            position,
            refused: None,
        }
    }

    // Refused for good by a number, unless it was before.
    pub fn refuse(self, number: u8, place: usize) -> Emitter
        requires fine { Fine self }
        requires number_nonzero { 0 < number }
        ensures { Bare (refused (record { number = number; place = place })) self result }
    {
        self.fail(Refusal::of(number), place)
    }

    // The same by a refusal.
    pub fn fail(self, refusal: Refusal, place: usize) -> Emitter
        requires { Fine self }
        ensures { Bare (refused (record { number = refusal_number refusal; place = place })) self result }
    {
        if self.refused.is_some() {
            return self;
        }
        Emitter {
            refused: Some(Refused { refusal, place }),
            ..self
        }
    }

    // The position of what is emitted from here on (`set_source_position`).
    pub fn set_position(self, position: Pos) -> Emitter
        requires { Fine self }
        ensures { Bare (set_position (pos_view position)) self result }
    {
        if self.refused.is_some() {
            return self;
        }
        Emitter { position, ..self }
    }

    pub fn reset_stack_depth(self, depth: u16) -> Emitter
        requires { Fine self }
        ensures { Bare (reset_stack_depth depth) self result }
    {
        if self.refused.is_some() {
            return self;
        }
        Emitter {
            depth: usize::from(depth),
            ..self
        }
    }
}

// ---- labels

impl Emitter {
    // A label more, not bound yet (11). Its number is the count before, refused or not.
    pub fn create_label(self, book: &mut Book) -> NewLabel
        requires fine { Fine self }
        ensures { Created self book.old result.emitter book.new result.label.0 }
    {
        let n = self.labels;
        let label = Label(n as u16);
        if self.refused.is_some() {
            return NewLabel {
                emitter: self,
                label,
            };
        }
        if n >= MAX_LABELS {
            return NewLabel {
                emitter: self.fail(Refusal::LabelsFull, 0),
                label,
            };
        }
        book::put_bound(book, n, None);
        NewLabel {
            emitter: Emitter {
                labels: n + 1,
                ..self
            },
            label,
        }
    }

    // The label is bound to the end of the code, and no load folds across it. One that was never created is bound nowhere.
    pub fn bind_label(self, book: &mut Book, label: Label) -> Emitter
        requires fine { Fine self }
        ensures { Booked (bind_label label.0) self book.old result book.new }
    {
        if self.refused.is_some() {
            return self;
        }
        let n = usize::from(label.0);
        if n < self.labels {
            book::put_bound(book, n, Some(self.size as u16));
        }
        Emitter {
            last: Last::Other,
            ..self
        }
    }

    // Where a label is bound; 0 where it is not (`bound_label`).
    pub fn bound_label(self, book: &Book, label: Label) -> usize
        requires fine { Fine self }
        ensures { result ≡ bound_label (labels_in book.now self.labels) label.0 }
    {
        let n = usize::from(label.0);
        if n >= self.labels {
            return 0;
        }
        book::label_place(book, n)
    }
}

// ---- an instruction more

impl Emitter {
    // Is the last line entry of the position?
    fn stands_here(self, book: &Book) -> bool
        requires fine { Fine self }
        ensures { result ≡ stands_at (pos_view self.position) (last_entry (lines_in book.now self.lines)) }
    {
        self.lines > 0 && book::line_at(book, self.lines - 1).pos.same(self.position)
    }

    // Room for an instruction of so many bytes (10), and its line entry unless the last one is of this position (`record_position_for_next_opcode`, 12): how
    // many line entries there are then. The emitter is not given back: it would be copied for every instruction.
    fn note(self, book: &mut Book, bytes: usize) -> Result<usize, Refusal>
        requires fine { Fine self }
        requires going { self.refused ≡ None }
        requires bytes_le_max_code { bytes ≤ max_code }
        ensures { Prepared bytes self book.old (readied self result) book.new }
    {
        let n = self.lines;
        if self.size + bytes > MAX_CODE {
            return Err(Refusal::CodeFull);
        }
        if self.stands_here(book) {
            return Ok(n);
        }
        if n >= MAX_LINES {
            return Err(Refusal::LinesFull);
        }
        let entry = LineEntry {
            offset: self.size as u16,
            pos: self.position,
        };
        book::put_line(book, n, entry);
        Ok(n + 1)
    }

    // An instruction of so many bytes is about to be added (10, 12).
    fn prepare(self, book: &mut Book, bytes: usize) -> Emitter
        requires fine { Fine self }
        requires bytes_le_max_code { bytes ≤ max_code }
        ensures { Prepared bytes self book.old result book.new }
    {
        if self.refused.is_some() {
            return self;
        }
        match self.note(book, bytes) {
            Ok(lines) => Emitter { lines, ..self },
            Err(refusal) => Emitter {
                refused: Some(Refused { refusal, place: 0 }),
                ..self
            },
        }
    }

    // Size, last instruction and depths once an instruction of so many bytes stands.
    fn grow(self, bytes: usize, role: Role, last: Last) -> Emitter
        requires fine { Fine self }
        requires bytes_nonzero { (0 < bytes) × (self.size + bytes ≤ max_code) }
        requires last_at { LastAt last (self.size + bytes) }
        ensures fine_2 { Fine result }
        ensures value { result ≡ altered self (self.size + bytes) last (shift (effect (role_view role)) self.depth) (max self.deepest (shift (effect (role_view role)) self.depth)) }
    {
        let depth = role.traits().effect.shift(self.depth as u32) as usize;
        Emitter {
            size: self.size + bytes,
            last,
            depth,
            deepest: self.deepest.max(depth),
            ..self
        }
    }

    fn add_plain(self, sheet: &[u8], code: &mut [u8], book: &mut Book, role: Role) -> Emitter
        requires fine { Fine self }
        requires code_len { length code.old ≡ max_code }
        ensures { Added (sheet_in sheet.now) (role_view role) [] Last.Other self code.old book.old result code.new book.new }
    {
        let e = self.prepare(book, 1);
        if e.refused.is_some() {
            return e;
        }
        let opcode = sheet::opcode_of(sheet, role);
        store::push(code, e.size, opcode);
        e.grow(1, role, Last::Other)
    }

    // The bytes of a prepared instruction with an operand of 16 bits.
    fn put_u16(self, sheet: &[u8], code: &mut [u8], role: Role, x: u16, last: Last) -> Emitter
        requires fine { Fine self }
        requires code_len { length code.old ≡ max_code }
        requires refused_value { (self.refused ≡ None) × (self.size + 3 ≤ max_code) }
        ensures { Put (sheet_in sheet.now) (role_view role) (le16 x) last self code.old result code.new }
    {
        let opcode = sheet::opcode_of(sheet, role);
        let at = store::push(code, self.size, opcode);
        bytes::push_u16(code, at, x);
        self.grow(3, role, last)
    }

    // With an operand of 16 bits.
    fn add_u16(
        self,
        sheet: &[u8],
        code: &mut [u8],
        book: &mut Book,
        role: Role,
        x: u16,
        last: Last,
    ) -> Emitter
        requires fine { Fine self }
        requires code_len { length code.old ≡ max_code }
        ensures { Added (sheet_in sheet.now) (role_view role) (le16 x) last self code.old book.old result code.new book.new }
    {
        let e = self.prepare(book, 3);
        if e.refused.is_some() {
            return e;
        }
        e.put_u16(sheet, code, role, x, last)
    }

    // The bytes of a prepared CMP_BR whose branch operand is 0.
    fn put_cmp_br(self, sheet: &[u8], code: &mut [u8], op: CompareOp, v: u16, index: u16) -> Emitter
        requires fine { Fine self }
        requires code_len { length code.old ≡ max_code }
        requires refused_value { (self.refused ≡ None) × (self.size + 8 ≤ max_code) }
        ensures { Put (sheet_in sheet.now) cmp_br (cmp_operand (sheet_in sheet.now) (compare_view op) v index) Last.Other self code.old result code.new }
    {
        let opcode = sheet::opcode_of(sheet, Role::CmpBr);
        let comparison = sheet::comparison_byte(sheet, op);
        bytes::push_cmp_br(code, self.size, opcode, comparison, v, index);
        self.grow(8, Role::CmpBr, Last::Other)
    }

    // An instruction of one byte.
    #[tactic(auto, unfolding(definition::specs::Emit::act))]
    pub fn emit_opcode(self, sheet: &[u8], code: &mut [u8], book: &mut Book, role: Role) -> Emitter
        requires fine { Fine self }
        requires code_len { length code.old ≡ max_code }
        ensures { Coded (call (sheet_in sheet.now) (emit_opcode (role_view role))) self code.old book.old result code.new book.new }
    {
        self.add_plain(sheet, code, book, role)
    }
}

// ---- variables

impl Emitter {
    // A DUP put before the store that ends the code; no line entry is added or moved (10).
    fn fold_store(self, sheet: &[u8], code: &mut [u8]) -> Emitter
        requires fine { Fine self }
        requires code_len { length code.old ≡ max_code }
        requires le_size { 3 ≤ self.size }
        ensures { Written (once (fold_store (sheet_in sheet.now))) self code.old result code.new }
    {
        if self.refused.is_some() {
            return self;
        }
        if self.size >= MAX_CODE {
            return self.fail(Refusal::CodeFull, 0);
        }
        let opcode = sheet::opcode_of(sheet, Role::Dup);
        bytes::insert_before_three(code, self.size - STORE_SIZE, opcode);
        Emitter {
            size: self.size + 1,
            last: Last::Other,
            depth: self.depth + 1,
            deepest: self.deepest.max(self.depth + 2),
            ..self
        }
    }

    // `emit_load_with_dup_check`: a load, a DUP of the last load, or a DUP before the last store.
    pub fn load_variable(self, sheet: &[u8], code: &mut [u8], book: &mut Book, v: u16) -> Loaded
        requires fine { Fine self }
        requires code_len { length code.old ≡ max_code }
        ensures { Loads (sheet_in sheet.now) v self code.old book.old result code.new book.new }
    {
        let form = load::form(self.last, v);
        let e = match form {
            LoadForm::Load => self.add_u16(sheet, code, book, Role::LoadVar, v, Last::Loaded(v)),
            LoadForm::Dup => self.add_plain(sheet, code, book, Role::Dup),
            LoadForm::Fold => self.fold_store(sheet, code),
        };
        load::done(e, load::read_by(form, self.size))
    }

    // `emit_store_with_tracking`: a store that the next load may fold into.
    #[tactic(auto, unfolding(definition::specs::Emit::act))]
    pub fn store_variable(self, sheet: &[u8], code: &mut [u8], book: &mut Book, v: u16) -> Emitter
        requires fine { Fine self }
        requires code_len { length code.old ≡ max_code }
        ensures { Coded (call (sheet_in sheet.now) (store_variable v)) self code.old book.old result code.new book.new }
    {
        self.add_u16(sheet, code, book, Role::StoreVar, v, Last::Stored(v))
    }
}

// ---- constants

impl Emitter {
    // A constant that enters the pool before the instruction that names it. Equal ones share an index, new ones stand behind the others (`intern_i32_constant`):
    // its index is at most the count, so 13 is met by a new one where there is no room.
    pub fn add_constant(self, pool: &mut Pool, k: Constant) -> Emitter
        requires fine { Fine self }
        requires held { Held pool.old }
        ensures { Pooled (add_constant k) self pool.old result pool.new }
    {
        if self.refused.is_some() {
            return self;
        }
        let Some(i) = pool::place_of(pool, self.constants, k) else {
            return self.fail(Refusal::ConstantsFull, 0);
        };
        Emitter {
            constants: pool::keep(pool, self.constants, i, k),
            ..self
        }
    }

    pub fn load_constant(
        self,
        sheet: &[u8],
        code: &mut [u8],
        book: &mut Book,
        pool: &mut Pool,
        k: Constant,
    ) -> Emitter
        requires { Ready (world self code.old book.old pool.old) }
        ensures { Filled (call (sheet_in sheet.now) (load_constant k)) (world self code.old book.old pool.old) (world result code.new book.new pool.new) }
    {
        let Some(i) = pool::place_of(pool, self.constants, k) else {
            return self.fail(Refusal::ConstantsFull, 0);
        };
        let mut e = self.prepare(book, 3);
        if e.refused.is_some() { // by 10 or 12, or before: nothing is appended
            return e;
        }
        e.constants = pool::keep(pool, e.constants, i, k);
        e.put_u16(sheet, code, Role::LoadConst, i as u16, Last::Other)
    }
}

// ---- branches

impl Emitter {
    // A patch more.
    fn add_patch(self, book: &mut Book, patch: PendingPatch) -> Emitter
        requires fine { Fine self }
        requires branched { Branched self }
        ensures { Noted (once (patching (patch_view patch))) self book.old result book.new }
    {
        if self.refused.is_some() {
            return self;
        }
        book::put_patch(book, self.patches, patch);
        Emitter {
            patches: self.patches + 1,
            ..self
        }
    }

    // A JMP or JMP_IF_NOT whose offset is 0 until it is patched.
    fn emit_branch(
        self,
        sheet: &[u8],
        code: &mut [u8],
        book: &mut Book,
        role: Role,
        patch: PendingPatch,
    ) -> Emitter
        requires fine { Fine self }
        requires code_len { length code.old ≡ max_code }
        requires instruction_offset_value { patch.instruction_offset ≡ self.size }
        ensures { Coded (once (branch (sheet_in sheet.now) (role_view role) [] patch.operand_delta patch.label.0)) self code.old book.old result code.new book.new }
    {
        let e = self.add_u16(sheet, code, book, role, 0, Last::Other);
        e.add_patch(book, patch)
    }

    pub fn emit_jmp(self, sheet: &[u8], code: &mut [u8], book: &mut Book, label: Label) -> Emitter
        requires fine { Fine self }
        requires code_len { length code.old ≡ max_code }
        ensures { Coded (call (sheet_in sheet.now) (emit_jmp label.0)) self code.old book.old result code.new book.new }
    {
        let patch = PendingPatch::jmp(self.size as u16, label);
        self.emit_branch(sheet, code, book, Role::Jmp, patch)
    }

    // The source's two methods, each one call.
    pub fn emit_jmp_if_not(
        self,
        sheet: &[u8],
        code: &mut [u8],
        book: &mut Book,
        label: Label,
    ) -> Emitter
        requires fine { Fine self }
        requires code_len { length code.old ≡ max_code }
        ensures { Coded (call (sheet_in sheet.now) (emit_jmp_if_not label.0)) self code.old book.old result code.new book.new }
    {
        let patch = PendingPatch::jmp_if_not(self.size as u16, label);
        self.emit_branch(sheet, code, book, Role::JmpIfNot, patch)
    }

    // A CMP_BR of a variable and a constant (13, 10, 12).
    pub fn emit_cmp_br(
        self,
        sheet: &[u8],
        code: &mut [u8],
        book: &mut Book,
        pool: &mut Pool,
        op: CompareOp,
        v: u16,
        k: Constant,
        label: Label,
    ) -> Emitter
        requires { Ready (world self code.old book.old pool.old) }
        ensures { Filled (call (sheet_in sheet.now) (emit_cmp_br (compare_view op) v k label.0)) (world self code.old book.old pool.old) (world result code.new book.new pool.new) }
    {
        let Some(i) = pool::place_of(pool, self.constants, k) else {
            return self.fail(Refusal::ConstantsFull, 0);
        };
        let mut e = self.prepare(book, 8);
        if e.refused.is_some() {
            return e;
        }
        e.constants = pool::keep(pool, e.constants, i, k);
        let patch = PendingPatch::cmp_br(e.size as u16, label);
        let b = e.put_cmp_br(sheet, code, op, v, i as u16);
        b.add_patch(book, patch)
    }
}
