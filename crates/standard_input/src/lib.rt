// An input, as standard input, read to its end into the intake of the listing's and the passes program's input.
#![tactic(auto)]

ghost use Rattle.std.specs.Prelude.{◌-◌, ◌^◌};
ghost use Rattle.input_reader.specs.View.{phase_view, intake_view, SameBuffers};
ghost use Rattle.standard_input.specs.Turns.{Turned};

use input_reader::Intake;
use std::io;
use std::io::Read;

// Bytes that a read is asked for.
const READ_SIZE: usize = 65536;

// One read: may there be more? An error is the input's, and then nothing was read.
fn read_some<R: Read>(input: &mut R, intake: &mut Intake) -> io::Result<bool>
    ensures buffers { SameBuffers intake.old intake.new }
    ensures turned { Turned (R.remaining input.old) (R.remaining input.new) (phase_view intake.old.follows) (intake_view intake.old) (intake_view intake.new) 1 result }
{
    let mut bytes = [0u8; READ_SIZE];
    let n = input.read(&mut bytes)?;
    intake.feed(&bytes[..n]);
    Ok(n > 0)
}

// All of the input: a proved loop has to end, and nothing says that the input does, so no more turns are taken than any run takes. There may be
// more only after all of them, so of an input that has no more bytes than that there is none. An error is the input's; what was read before it was fed.
pub fn read_all<R: Read>(input: &mut R, intake: &mut Intake) -> io::Result<bool>
    ensures buffers { SameBuffers intake.old intake.new }
    ensures turned { Turned (R.remaining input.old) (R.remaining input.new) (phase_view intake.old.follows) (intake_view intake.old) (intake_view intake.new) (2 ^ 64 - 1) result }
{
    for _ in 0..u64::MAX {
        if !read_some(input, intake)? {
            return Ok(false);
        }
    }
    Ok(true)
}
