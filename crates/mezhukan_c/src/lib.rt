// The static library for the phone, the rig and the log reader, for a program in C or Rust to link (`tools/build mezhukan`; include/mezhukan.h): crate `mezhukan`'s
// functions, exported.
#![tactic(auto)]

ghost use Rattle.std.specs.Prelude.{◌≡◌, length, get_or};
ghost use Rattle.definition.specs.Compile.{Compiles};
ghost use Rattle.definition.specs.Alone.{Rewrites};
ghost use Rattle.definition.specs.Claims.{Safe, Faithful};
ghost use Rattle.definition.specs.Check.{Checks};
ghost use Rattle.definition.specs.Slowest.{Measures};
ghost use Rattle.compile.specs.Call as call;
ghost use Rattle.optimize.specs.View as alone;
ghost use Rattle.mezhukan.specs.Exported.{compiled, rewritten, measured};

use emit::Constant;
use mezhukan::{CHECKED, COMPILED, MEASURED, REWRITTEN};

// The call. A refusal's number is answered, or 0.
#[unsafe(no_mangle)]
pub extern "C" fn mezhukan_compile(
    sheet: &[u8],
    rules: &[u8],
    program: &[u8],
    code: &mut [u8],
    constants: &mut [Constant],
    lines: &mut [u16],
    answer: &mut [u64; COMPILED],
) -> u8
    ensures compiles { Compiles (call.room code.old constants.old lines.old) sheet.now rules.now program.now (compiled answer.new code.new constants.new lines.new) }
    ensures value { result ≡ (compiled answer.new code.new constants.new lines.new).number }
    ensures safe { result ≡ 0 → Safe sheet.now rules.now program.now (compiled answer.new code.new constants.new lines.new) }
    ensures faithful { result ≡ 0 → length rules.now ≡ 0 → Faithful sheet.now program.now (compiled answer.new code.new constants.new lines.new) }
{
    mezhukan::mezhukan_compile(sheet, rules, program, code, constants, lines, answer)
}

// Rewriting and line mapping called alone. A refusal's number is answered, or 0.
#[unsafe(no_mangle)]
pub extern "C" fn mezhukan_rewrite_alone(
    sheet: &[u8],
    rules: &[u8],
    code: &[u8],
    protected: &[u16],
    lines: &[u16],
    bytes: &mut [u8],
    offsets: &mut [u16],
    entries: &mut [u16],
    answer: &mut [u64; REWRITTEN],
) -> u8
    ensures rewrites { Rewrites (alone.room bytes.old offsets.old entries.old) sheet.now rules.now (alone.given code.now protected.now lines.now) (rewritten answer.new bytes.new offsets.new entries.new) }
    ensures value { result ≡ (rewritten answer.new bytes.new offsets.new entries.new).number }
{
    mezhukan::mezhukan_rewrite_alone(
        sheet, rules, code, protected, lines, bytes, offsets, entries, answer,
    )
}

// Code of an image from the old configurator, checked against a sheet and its declared depth. A refusal's number is answered, or 0 if it passes.
#[unsafe(no_mangle)]
pub extern "C" fn mezhukan_check_image(
    sheet: &[u8],
    code: &[u8],
    depth: u64,
    answer: &mut [u64; CHECKED],
) -> u8
    ensures checks { Checks sheet.now code.now depth (get_or answer.new 0 0) (get_or answer.new 1 0) }
    ensures value { result ≡ get_or answer.new 0 0 }
{
    mezhukan::mezhukan_check_image(sheet, code, depth, answer)
}

// The slowest call of code, checked as an image is. A refusal's number is answered, or 0.
#[unsafe(no_mangle)]
pub extern "C" fn mezhukan_slowest(
    sheet: &[u8],
    code: &[u8],
    depth: u64,
    outcomes: &mut [u8],
    answer: &mut [u64; MEASURED],
) -> u8
    ensures measures { Measures (length outcomes.old) sheet.now code.now depth (measured answer.new outcomes.new) }
    ensures value { result ≡ (measured answer.new outcomes.new).number }
{
    mezhukan::mezhukan_slowest(sheet, code, depth, outcomes, answer)
}
