// What statement emission (body/stmt.rs) is made of below blocks: where a statement stands, conditions, the labels of CASE arms, and open loops.
#![tactic(auto)]

ghost use Rattle.std.specs.Prelude.{◌≡◌, ◌<◌};
ghost use Rattle.definition.specs.Limits.{max_nesting};
ghost use Rattle.stmt_parts.specs.Context.{inner_of, in_loop};

pub mod conditions; // conditions.rt: conditions, fused or not
pub mod labels; // labels.rt: the labels of CASE arms
pub mod loops; // loops.rt: the open loops

// Where a statement stands: the program's variables, the nesting levels left, and how many loops are open around it.
#[derive(Clone, Copy)]
pub struct Context {
    pub variables: u16,
    pub left: usize,
    pub inside: usize,
}

impl Context {
    // Where a statement's parts stand.
    pub fn inner(self) -> Context
        ensures { result ≡ inner_of self }
    {
        Context {
            left: self.left.saturating_sub(1),
            ..self
        }
    }

    // Where the body of a loop stands.
    pub fn in_loop(self) -> Context
        requires { self.inside < max_nesting }
        ensures { result ≡ in_loop self }
    {
        Context {
            inside: self.inside + 1,
            ..self
        }
    }
}
