// The fused compare and branch, loads and stores of variables, and operations of one byte (compile_expr.rs). What is fused is `classify`'s answer
// (program_shape), already mirrored where the constant stood on the left.
#![tactic(auto)]

ghost use Rattle.std.specs.Prelude.{◌≡◌, length};
ghost use Rattle.definition.specs.Limits.{max_code};
ghost use Rattle.definition.specs.Emit.{emit_opcode, load_variable, store_variable};
ghost use Rattle.definition.specs.CompileExpr.{emit_classified_cmp_br};
ghost use Rattle.opcode.specs.View.{compare_view, role_view};
ghost use Rattle.opcode.specs.Table.{sheet_in};
ghost use Rattle.program_shape.specs.Shape.{cmp_view};
ghost use Rattle.emit.specs.View.{world};
ghost use Rattle.emit.specs.Steps.{run, call, Fine, Ready, Coded, Filled};
ghost use Rattle.compile_expr.specs.Branching.{branching_on};

use emit::{Book, Emitter, Label, Pool};
use opcode::{CompareOp, Role};
use program_shape::ClassifiedCmp;

// The comparison whose CMP_BR branches where `op` holds, or where it does not.
#[tactic(auto, unfolding(crate::specs::Branching::branching_on))]
fn branching_on(op: CompareOp, on: bool) -> CompareOp
    ensures { compare_view result ≡ branching_on (compare_view op) on }
{
    if on { op } else { op.negate() }
}

// A CMP_BR to `target`, taken where the comparison is true (`on`, the source's `branch_when_true`) or false.
pub fn emit_classified_cmp_br(
    e: Emitter,
    sheet: &[u8],
    code: &mut [u8],
    book: &mut Book,
    pool: &mut Pool,
    classified: ClassifiedCmp,
    on: bool,
    target: Label,
) -> Emitter
    requires { Ready (world e code.old book.old pool.old) }
    ensures { Filled (run (sheet_in sheet.now) (emit_classified_cmp_br (cmp_view classified) on target.0)) (world e code.old book.old pool.old) (world result code.new book.new pool.new) }
{
    let ClassifiedCmp {
        op,
        variable,
        constant,
    } = classified;
    let op = branching_on(op, on);
    e.emit_cmp_br(sheet, code, book, pool, op, variable, constant, target)
}

// A variable loaded: the source's `emit_load_var`. Every variable has one type here.
pub fn emit_load_var(
    e: Emitter,
    sheet: &[u8],
    code: &mut [u8],
    book: &mut Book,
    variable: u16,
) -> Emitter
    requires fine { Fine e }
    requires code_len { length code.old ≡ max_code }
    ensures { Coded (call (sheet_in sheet.now) (load_variable variable)) e code.old book.old result code.new book.new }
{
    e.load_variable(sheet, code, book, variable).emitter
}

// A variable stored: `emit_store_var`.
pub fn emit_store_var(
    e: Emitter,
    sheet: &[u8],
    code: &mut [u8],
    book: &mut Book,
    variable: u16,
) -> Emitter
    requires fine { Fine e }
    requires code_len { length code.old ≡ max_code }
    ensures { Coded (call (sheet_in sheet.now) (store_variable variable)) e code.old book.old result code.new book.new }
{
    e.store_variable(sheet, code, book, variable)
}

// An operation of one byte, its type in its role: the source's `emit_add`, `emit_eq` and the like.
pub fn emit_typed(e: Emitter, sheet: &[u8], code: &mut [u8], book: &mut Book, role: Role) -> Emitter
    requires fine { Fine e }
    requires code_len { length code.old ≡ max_code }
    ensures { Coded (call (sheet_in sheet.now) (emit_opcode (role_view role))) e code.old book.old result code.new book.new }
{
    e.emit_opcode(sheet, code, book, role)
}
