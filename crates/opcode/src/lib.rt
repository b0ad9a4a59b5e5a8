// Roles and comparisons: the stand-in for the source's `opcode` and `cmp_op` (document 01, 'Sheet').
#![tactic(auto, unfolding(crate::specs::View::open_opcode))]

ghost use Rattle.std.specs.Prelude.{◌≡◌, ◌<◌};
ghost use Rattle.definition.specs.Opcode.{binary_role, unary_role, size, number, traits, shift, negate, commute, compare_index};
ghost use Rattle.definition.specs.Rules.{role_numbered};
ghost use Rattle.opcode.specs.View.{binary_view, unary_view, compare_view, role_view, effect_view, AreTraits};

use definition::ROLE_COUNT;

pub mod sheet; // sheet.rt: reading a sheet, and what a sheet gives

// Operators of two numbers, each at its role's number.
#[derive(Clone, Copy, PartialEq, Eq)]
pub enum ArithmeticOp {
    Add = 7,
    Sub = 8,
    Mul = 9,
    Div = 10,
    Mod = 11,
}

// Operators of two truth values, each at its role's number.
#[derive(Clone, Copy, PartialEq, Eq)]
pub enum BoolOp {
    BoolAnd = 13,
    BoolOr = 14,
    BoolXor = 15,
}

#[derive(Clone, Copy, PartialEq, Eq)]
pub enum BinaryOp {
    Arithmetic(ArithmeticOp),
    Logic(BoolOp),
}

#[derive(Clone, Copy, PartialEq, Eq)]
pub enum UnaryOp {
    Neg,
    BoolNot,
}

// Comparisons, each at its place in the sheet's comparison bytes.
#[derive(Clone, Copy, PartialEq, Eq)]
pub enum CompareOp {
    Eq = 0,
    Ne = 1,
    Lt = 2,
    Le = 3,
    Gt = 4,
    Ge = 5,
}

// AND_THEN and OR_ELSE: no roles, emission spells them with branches.
#[derive(Clone, Copy, PartialEq, Eq)]
pub enum ShortCircuitOp {
    AndThen,
    OrElse,
}

// The roles, by class.
#[derive(Clone, Copy, PartialEq, Eq)]
pub enum Role {
    Dup,
    Pop,
    LoadVar,
    StoreVar,
    LoadConst,
    LoadTrue,
    LoadFalse,
    Arithmetic(ArithmeticOp),
    Logic(BoolOp),
    Neg,
    BoolNot,
    Compare(CompareOp),
    Jmp,
    JmpIfNot,
    CmpBr,
    Ret,
}

// Every role at its number. A static: a const of this size is copied where it is indexed.
static ROLES: [Role; ROLE_COUNT] = [
    Role::Dup,
    Role::Pop,
    Role::LoadVar,
    Role::StoreVar,
    Role::LoadConst,
    Role::LoadTrue,
    Role::LoadFalse,
    Role::Arithmetic(ArithmeticOp::Add),
    Role::Arithmetic(ArithmeticOp::Sub),
    Role::Arithmetic(ArithmeticOp::Mul),
    Role::Arithmetic(ArithmeticOp::Div),
    Role::Arithmetic(ArithmeticOp::Mod),
    Role::Neg,
    Role::Logic(BoolOp::BoolAnd),
    Role::Logic(BoolOp::BoolOr),
    Role::Logic(BoolOp::BoolXor),
    Role::BoolNot,
    Role::Compare(CompareOp::Eq),
    Role::Compare(CompareOp::Ne),
    Role::Compare(CompareOp::Lt),
    Role::Compare(CompareOp::Le),
    Role::Compare(CompareOp::Gt),
    Role::Compare(CompareOp::Ge),
    Role::Jmp,
    Role::JmpIfNot,
    Role::CmpBr,
    Role::Ret,
];

// What an instruction does to the stack's height.
#[derive(Clone, Copy, PartialEq, Eq)]
pub enum Effect {
    Up,
    Down,
    Same,
}

// Where a run goes on: behind the instruction, at its target, at either by the outcome, or nowhere.
#[derive(Clone, Copy, PartialEq, Eq)]
pub enum Flow {
    Onward,
    Away,
    Either,
    Stop,
}

// What the sheet's table says of a role: bytes, values that must be on the stack, height change, flow.
#[derive(Clone, Copy)]
pub struct Traits {
    pub size: u8,
    pub needs: u8,
    pub effect: Effect,
    pub flow: Flow,
}

impl Effect {
    // A height after it; one above the largest of 32 bits is a height too.
    pub fn shift(self, height: u32) -> u64
        ensures { result ≡ shift (effect_view self) height }
    {
        let height = u64::from(height);
        match self {
            Effect::Up => height + 1,
            Effect::Down => height.saturating_sub(1),
            Effect::Same => height,
        }
    }
}

impl CompareOp {
    // Its place in the sheet's comparison bytes.
    pub fn index(self) -> u8
        ensures { result ≡ compare_index (compare_view self) }
    {
        self as u8
    }

    // The comparison that holds where this one does not.
    pub fn negate(self) -> CompareOp
        ensures { compare_view result ≡ negate (compare_view self) }
    {
        match self {
            CompareOp::Eq => CompareOp::Ne,
            CompareOp::Ne => CompareOp::Eq,
            CompareOp::Lt => CompareOp::Ge,
            CompareOp::Le => CompareOp::Gt,
            CompareOp::Gt => CompareOp::Le,
            CompareOp::Ge => CompareOp::Lt,
        }
    }

    // The comparison with its sides exchanged.
    pub fn commute(self) -> CompareOp
        ensures { compare_view result ≡ commute (compare_view self) }
    {
        match self {
            CompareOp::Eq | CompareOp::Ne => self,
            CompareOp::Lt => CompareOp::Gt,
            CompareOp::Le => CompareOp::Ge,
            CompareOp::Gt => CompareOp::Lt,
            CompareOp::Ge => CompareOp::Le,
        }
    }
}

impl BinaryOp {
    pub fn role(self) -> Role
        ensures { role_view result ≡ binary_role (binary_view self) }
    {
        match self {
            BinaryOp::Arithmetic(o) => Role::Arithmetic(o),
            BinaryOp::Logic(o) => Role::Logic(o),
        }
    }
}

impl UnaryOp {
    pub fn role(self) -> Role
        ensures { role_view result ≡ unary_role (unary_view self) }
    {
        match self {
            UnaryOp::Neg => Role::Neg,
            UnaryOp::BoolNot => Role::BoolNot,
        }
    }
}

impl Role {
    // Its number in the sheet and in rules.
    pub fn number(self) -> u8
        ensures { result ≡ number (role_view self) }
    {
        match self {
            Role::Dup => 0,
            Role::Pop => 1,
            Role::LoadVar => 2,
            Role::StoreVar => 3,
            Role::LoadConst => 4,
            Role::LoadTrue => 5,
            Role::LoadFalse => 6,
            Role::Arithmetic(o) => o as u8,
            Role::Neg => 12,
            Role::Logic(o) => o as u8,
            Role::BoolNot => 16,
            Role::Compare(c) => 17 + c as u8,
            Role::Jmp => 23,
            Role::JmpIfNot => 24,
            Role::CmpBr => 25,
            Role::Ret => 26,
        }
    }

    // The role with a number; RET past the last.
    pub fn numbered(n: u8) -> Role
        ensures { role_view result ≡ role_numbered n }
    {
        // Over a literal table of this length the proof of `get(..).copied().unwrap_or(..)` does not close (three tries).
        let i = usize::from(n);
        if i < ROLE_COUNT { ROLES[i] } else { Role::Ret }
    }

    // Its traits: the same for a class.
    pub fn traits(self) -> Traits
        ensures { AreTraits (traits (role_view self)) result }
    {
        match self {
            Role::Dup => traits_of(1, 1, Effect::Up, Flow::Onward),
            Role::Pop => traits_of(1, 1, Effect::Down, Flow::Onward),
            Role::LoadVar | Role::LoadConst => traits_of(3, 0, Effect::Up, Flow::Onward),
            Role::StoreVar => traits_of(3, 1, Effect::Down, Flow::Onward),
            Role::LoadTrue | Role::LoadFalse => traits_of(1, 0, Effect::Up, Flow::Onward),
            Role::Arithmetic(_) | Role::Logic(_) | Role::Compare(_) => traits_of(
                1,
                2,
                Effect::Down,
                Flow::Onward,
            ),
            Role::Neg | Role::BoolNot => traits_of(1, 1, Effect::Same, Flow::Onward),
            Role::Jmp => traits_of(3, 0, Effect::Same, Flow::Away),
            Role::JmpIfNot => traits_of(3, 1, Effect::Down, Flow::Either),
            Role::CmpBr => traits_of(8, 0, Effect::Same, Flow::Either),
            Role::Ret => traits_of(1, 0, Effect::Same, Flow::Stop),
        }
    }
}

// A line for each role above, where a struct's literal would take six.
fn traits_of(size: u8, needs: u8, effect: Effect, flow: Flow) -> Traits
    ensures { (result.size ≡ size) × (result.needs ≡ needs) × (result.effect ≡ effect) × (result.flow ≡ flow) }
{
    Traits {
        size,
        needs,
        effect,
        flow,
    }
}

// Bytes of an instruction of the role with this number.
pub fn size_numbered(n: u8) -> usize
    ensures { result ≡ size (role_numbered n) }
{
    usize::from(Role::numbered(n).traits().size)
}
