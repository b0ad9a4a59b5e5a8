// The listing: reads a sheet, rules and a program from standard input, and prints the finished code with its constants and lines, or a refusal. Where
// the input cannot be read, or the output not written, it says so on standard error; bin/listing makes an exit status of that.
#![tactic(auto)]

use input_reader::{Intake, PROGRAM_ROOM, Phase, RULE_ROOM, Reader, SHEET_ROOM};
use std::io;
use std::io::Write;
use text::LISTING_ROOM;

// Writes the text of the answer.
fn print<W: Write>(to: &mut W, reader: &Reader) -> io::Result<()> {
    let mut out = [0u8; LISTING_ROOM];
    let n = listing_answer::finish(reader, &mut out);
    to.write_all(&out[..n])
}

fn main(rt: HostRuntime) {
    let mut sheet = [0u8; SHEET_ROOM];
    let mut rules = [0u8; RULE_ROOM];
    let mut program = [0u8; PROGRAM_ROOM];
    let mut intake = Intake::start(
        Phase::ProgramText,
        &mut sheet,
        &mut rules,
        &mut program,
        &mut [],
        &mut [],
    );
    if standard_input::read_all(&mut rt.stdin(), &mut intake).is_err() {
        let _ = rt.eprintln("listing: standard input cannot be read");
        return;
    }
    if print(&mut rt.stdout(), &intake.read()).is_err() {
        let _ = rt.eprintln("listing: standard output cannot be written");
    }
}
