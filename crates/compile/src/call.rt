// What the call answers, and what the lent outputs then hold.
ghost use Rattle.std.specs.Prelude.{◌≡◌};
ghost use Rattle.definition.specs.Compile.{roomy};
ghost use Rattle.compile.specs.Call.{room_of, output_after};

use definition::{ENTRY_SIZE, MAX_CODE, MAX_CONSTANTS, MAX_LINES};
use emit::Constant;

// A program that is compiled: how many bytes, constants and line entries the outputs hold, and the depth.
#[derive(Clone, Copy, PartialEq, Eq)]
pub struct Compiled {
    pub bytes: usize,
    pub depth: usize,
    pub constants: usize,
    pub entries: usize,
}

// Has each lent output room for any result?
pub fn roomy(code: usize, constants: usize, lines: usize) -> bool
    ensures { result ≡ roomy (room_of code constants lines) }
{
    store::have_room(
        code,
        constants,
        lines,
        MAX_CODE,
        MAX_CONSTANTS,
        MAX_LINES * ENTRY_SIZE,
    )
}

// What a program came to, as it is answered: a refusal zeroes every output, and a result is in them already. Any type may say what a refusal is.
pub fn settle<E>(
    outcome: Result<Compiled, E>,
    code: &mut [u8],
    constants: &mut [Constant],
    lines: &mut [u16],
) -> Result<Compiled, E>
    ensures same { result ≡ outcome }
    ensures code { code.new ≡ output_after outcome code.old }
    ensures constants { constants.new ≡ output_after outcome constants.old }
    ensures lines { lines.new ≡ output_after outcome lines.old }
{
    if outcome.is_err() {
        store::set_from(code, 0, 0);
        store::set_from(constants, 0, 0);
        store::set_from(lines, 0, 0);
    }
    outcome
}
