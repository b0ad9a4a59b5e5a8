// Rewriting called alone, as the rig uses it: reads a sheet, rules, code, protected offsets and line entries from standard input, and prints
// the rewritten code, the moved offsets and the mapped lines, or a refusal. Where the input cannot be read, or the output not written, it says so on
// standard error; bin/passes makes an exit status of that.
#![tactic(auto)]

use input_reader::{
    CODE_ROOM, ENTRY_ROOM, Intake, OFFSET_ROOM, Phase, RULE_ROOM, Reader, SHEET_ROOM,
};
use std::io;
use std::io::Write;
use text::TEXT_ROOM;

// Writes the text of the answer.
fn print<W: Write>(to: &mut W, reader: &Reader) -> io::Result<()> {
    let mut out = [0u8; TEXT_ROOM];
    let n = passes_answer::finish(reader, &mut out);
    to.write_all(&out[..n])
}

fn main(rt: HostRuntime) {
    let mut sheet = [0u8; SHEET_ROOM];
    let mut rules = [0u8; RULE_ROOM];
    let mut code = [0u8; CODE_ROOM];
    let mut offsets = [0u16; OFFSET_ROOM];
    let mut entries = [0u16; ENTRY_ROOM];
    let mut intake = Intake::start(
        Phase::CodeLine,
        &mut sheet,
        &mut rules,
        &mut code,
        &mut offsets,
        &mut entries,
    );
    if standard_input::read_all(&mut rt.stdin(), &mut intake).is_err() {
        let _ = rt.eprintln("passes: standard input cannot be read");
        return;
    }
    if print(&mut rt.stdout(), &intake.read()).is_err() {
        let _ = rt.eprintln("passes: standard output cannot be written");
    }
}
