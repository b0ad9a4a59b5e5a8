// The library for the phone, the rig and the log reader: the call, rewriting called alone, the check of an image, and the slowest call of its code, each with all of
// its answer in a lent array. Crate `mezhukan_c` exports them for a program in C or Rust to link.
#![tactic(auto)]

ghost use Rattle.std.specs.Prelude.{◌≡◌, length, get_or};
ghost use Rattle.definition.specs.Compile.{Compiles};
ghost use Rattle.definition.specs.Alone.{Rewrites};
ghost use Rattle.definition.specs.Claims.{Safe, Faithful};
ghost use Rattle.definition.specs.Check.{Checks};
ghost use Rattle.definition.specs.Slowest.{Measures};
ghost use Rattle.compile.specs.Call as call;
ghost use Rattle.optimize.specs.View as alone;
ghost use Rattle.mezhukan.specs.Exported.{compiled, rewritten, measured};

use definition::Refused;
use emit::Constant;
use slowest::Measured;

// Numbers of an answer of the call: number, place, bytes, depth, constants, line entries.
pub const COMPILED: usize = 6;
// Numbers of an answer of rewriting called alone: number, place, bytes, protected offsets, line entries.
pub const REWRITTEN: usize = 5;
// Numbers of an answer of the check of an image: number, place.
pub const CHECKED: usize = 2;
// Numbers of an answer of the slowest call: number, place, is it 'loops', instructions, outcomes.
pub const MEASURED: usize = 5;

// The call. A refusal's number is answered, or 0.
pub fn mezhukan_compile(
    sheet: &[u8],
    rules: &[u8],
    program: &[u8],
    code: &mut [u8],
    constants: &mut [Constant],
    lines: &mut [u16],
    answer: &mut [u64; COMPILED],
) -> u8
    ensures compiles { Compiles (call.room code.old constants.old lines.old) sheet.now rules.now program.now (compiled answer.new code.new constants.new lines.new) }
    ensures value { result ≡ (compiled answer.new code.new constants.new lines.new).number }
    ensures safe { result ≡ 0 → Safe sheet.now rules.now program.now (compiled answer.new code.new constants.new lines.new) }
    ensures faithful { result ≡ 0 → length rules.now ≡ 0 → Faithful sheet.now program.now (compiled answer.new code.new constants.new lines.new) }
{
    match compile::entry::compile(sheet, rules, program, code, constants, lines) {
        Err(Refused { refusal, place }) => {
            *answer = [u64::from(refusal.number()), place as u64, 0, 0, 0, 0];
            refusal.number()
        }
        Ok(c) => {
            *answer = [
                0,
                0,
                c.bytes as u64,
                c.depth as u64,
                c.constants as u64,
                c.entries as u64,
            ];
            0
        }
    }
}

// Rewriting and line mapping called alone. A refusal's number is answered, or 0.
pub fn mezhukan_rewrite_alone(
    sheet: &[u8],
    rules: &[u8],
    code: &[u8],
    protected: &[u16],
    lines: &[u16],
    bytes: &mut [u8],
    offsets: &mut [u16],
    entries: &mut [u16],
    answer: &mut [u64; REWRITTEN],
) -> u8
    ensures rewrites { Rewrites (alone.room bytes.old offsets.old entries.old) sheet.now rules.now (alone.given code.now protected.now lines.now) (rewritten answer.new bytes.new offsets.new entries.new) }
    ensures value { result ≡ (rewritten answer.new bytes.new offsets.new entries.new).number }
{
    match optimize::rewrite_alone(
        sheet, rules, code, protected, lines, bytes, offsets, entries,
    ) {
        Err(Refused { refusal, place }) => {
            *answer = [u64::from(refusal.number()), place as u64, 0, 0, 0];
            refusal.number()
        }
        Ok(r) => {
            *answer = [0, 0, r.bytes as u64, r.protected as u64, r.entries as u64];
            0
        }
    }
}

// Code of an image from the old configurator, checked against a sheet and its declared depth. A refusal's number is answered, or 0 if it passes.
pub fn mezhukan_check_image(
    sheet: &[u8],
    code: &[u8],
    depth: u64,
    answer: &mut [u64; CHECKED],
) -> u8
    ensures checks { Checks sheet.now code.now depth (get_or answer.new 0 0) (get_or answer.new 1 0) }
    ensures value { result ≡ get_or answer.new 0 0 }
{
    match image_check::check_image(sheet, code, depth) {
        Err(Refused { refusal, place }) => {
            *answer = [u64::from(refusal.number()), place as u64];
            refusal.number()
        }
        Ok(()) => {
            *answer = [0, 0];
            0
        }
    }
}

// The slowest call of code, checked as an image is. A refusal's number is answered, or 0.
pub fn mezhukan_slowest(
    sheet: &[u8],
    code: &[u8],
    depth: u64,
    outcomes: &mut [u8],
    answer: &mut [u64; MEASURED],
) -> u8
    ensures measures { Measures (length outcomes.old) sheet.now code.now depth (measured answer.new outcomes.new) }
    ensures value { result ≡ (measured answer.new outcomes.new).number }
{
    match slowest::slowest(sheet, code, depth, outcomes) {
        Err(Refused { refusal, place }) => {
            *answer = [u64::from(refusal.number()), place as u64, 0, 0, 0];
            refusal.number()
        }
        Ok(Measured::Loops) => {
            *answer = [0, 0, 1, 0, 0];
            0
        }
        Ok(
            Measured::Run {
                instructions,
                outcomes,
            },
        ) => {
            *answer = [0, 0, 0, u64::from(instructions), outcomes as u64];
            0
        }
    }
}
