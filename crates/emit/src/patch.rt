// Pending patches.
ghost use Rattle.std.specs.Prelude.{◌≡◌};
ghost use Rattle.definition.specs.Emit.{jmp_operand_delta, cmp_br_operand_delta};
ghost use Rattle.emit.specs.View.{patch_view};

use crate::Label;

// A branch whose operand is patched once its label is bound.
#[derive(Clone, Copy)]
pub struct PendingPatch {
    pub instruction_offset: u16,
    pub operand_delta: u16,
    pub label: Label,
}

impl PendingPatch {
    // Where the branch operand stands in a JMP or JMP_IF_NOT, and in a CMP_BR.
    pub const JMP_OPERAND_DELTA: u16 = 1;

    pub const CMP_BR_OPERAND_DELTA: u16 = 6;

    pub fn jmp(instruction_offset: u16, label: Label) -> PendingPatch
        ensures { patch_view result ≡ record { instruction_offset = instruction_offset; operand_delta = jmp_operand_delta; label = label.0 } }
    {
        PendingPatch {
            instruction_offset,
            operand_delta: PendingPatch::JMP_OPERAND_DELTA,
            label,
        }
    }

    pub fn jmp_if_not(instruction_offset: u16, label: Label) -> PendingPatch
        ensures { patch_view result ≡ record { instruction_offset = instruction_offset; operand_delta = jmp_operand_delta; label = label.0 } }
    {
        PendingPatch::jmp(instruction_offset, label)
    }

    pub fn cmp_br(instruction_offset: u16, label: Label) -> PendingPatch
        ensures { patch_view result ≡ record { instruction_offset = instruction_offset; operand_delta = cmp_br_operand_delta; label = label.0 } }
    {
        PendingPatch {
            instruction_offset,
            operand_delta: PendingPatch::CMP_BR_OPERAND_DELTA,
            label,
        }
    }
}
