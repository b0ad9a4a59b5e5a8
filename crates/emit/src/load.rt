// How a load is emitted, and what it did: known here and nowhere else.
ghost use Rattle.std.specs.Prelude.{◌≡◌, ◌≤◌};
ghost use Rattle.emit.specs.View.{last_view};
ghost use Rattle.emit.specs.Load.{load_form, read_by};

use crate::{Emitter, Last, STORE_SIZE};

// What a load did: the offset of the byte that carries the read, whether that is a DUP, and whether the store before it moved by one.
#[derive(Clone, Copy)]
pub struct Read {
    pub offset: usize,
    pub dup: bool,
    pub moved: bool,
}

// What `load_variable` answers: nothing is read after a refusal.
#[derive(Clone, Copy)]
pub struct Loaded {
    pub emitter: Emitter,
    pub read: Option<Read>,
}

// How a load is emitted.
#[derive(Clone, Copy)]
pub enum LoadForm {
    Load,
    Dup,
    Fold,
}

// How a load of v is emitted, by the last instruction.
#[tactic(auto, using(std::proofs::lemmas::Bool::Decides::nat_tests), unfolding(crate::specs::Load::load_form))]
pub fn form(last: Last, v: u16) -> LoadForm
    ensures { result ≡ load_form (last_view last) v }
{
    match last {
        Last::Loaded(w) if w == v => LoadForm::Dup,
        Last::Stored(w) if w == v => LoadForm::Fold,
        _ => LoadForm::Load,
    }
}

// What each form reads, where the code had `size` bytes before.
#[tactic(auto, unfolding(crate::specs::Load::read_by))]
pub fn read_by(form: LoadForm, size: usize) -> Read
    requires { form ≡ LoadForm.Fold → 3 ≤ size }
    ensures { result ≡ read_by form size }
{
    match form {
        LoadForm::Load => Read {
            offset: size,
            dup: false,
            moved: false,
        },
        LoadForm::Dup => Read {
            offset: size,
            dup: true,
            moved: false,
        },
        LoadForm::Fold => Read {
            offset: size - STORE_SIZE,
            dup: true,
            moved: true,
        },
    }
}

// What a load did, unless it is refused.
pub fn done(emitter: Emitter, read: Read) -> Loaded
    ensures emitter_value { result.emitter ≡ emitter }
    ensures going { emitter.refused ≡ None → result.read ≡ Some read }
    ensures refused { (emitter.refused ≡ None → ⊥) → result.read ≡ None }
{
    let read = if emitter.refused.is_some() {
        None
    } else {
        Some(read)
    };
    Loaded { emitter, read }
}
