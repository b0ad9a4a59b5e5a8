// The end of the listing's input: what was read is compiled, and the text of the answer is put into a lent output.
#![tactic(auto)]

ghost use Rattle.std.specs.Prelude.{◌≡◌, Ok};
ghost use Rattle.definition.specs.Sheet.{read_sheet};
ghost use Rattle.definition.specs.Compile.{Compiles};
ghost use Rattle.definition.specs.Listing.{cut_line, listed, text};
ghost use Rattle.store.specs.Store.{at, contents, push_all};
ghost use Rattle.input_machine.specs.Machine.{ending, listed_at};
ghost use Rattle.input_reader.specs.View.{head_view, stores_view, state_view, handed_rules};
ghost use Rattle.compile.specs.Call.{room, answer_view};
ghost use Rattle.text.specs.Text.{listing_room, store_of, Told};
ghost use Rattle.listing_answer.specs.View.{handed_program, whole_text, answer_text, Known};

use compile::call::Compiled;
use definition::{BAD_RULE, ENTRY_SIZE, MAX_CODE, MAX_CONSTANTS, MAX_LINES, Refusal, Refused};
use emit::Constant;
use input_reader::{Intake, PROGRAM_ROOM, Phase, RULE_ROOM, Reader, SHEET_ROOM};
use text::{LISTING_ROOM, Text};

// Numbers that a full line list takes.
const LINE_NUMBERS: usize = MAX_LINES * ENTRY_SIZE;

// What was read, compiled; where no rules were counted only the sheet is handed over.
fn compile_read(
    reader: &Reader,
    code: &mut [u8],
    constants: &mut [Constant],
    lines: &mut [u16],
) -> Result<Compiled, Refused>
    ensures { let s = stores_view reader.now in let e = ending (head_view reader.now.head) in Compiles (room code.old constants.old lines.old) (contents s.sheet) (handed_rules e s) (handed_program e s) (answer_view result code.new constants.new lines.new) }
{
    let counted = input_reader::is_counted(input_reader::ending_of(reader.head));
    compile::entry::compile(
        reader.sheet.handed(true),
        reader.rules.handed(counted),
        reader.code.handed(counted),
        code,
        constants,
        lines,
    )
}

fn put_whole(
    f: Compiled,
    sheet: &[u8],
    code: &[u8],
    constants: &[Constant],
    lines: &[u16],
    to: &mut Text,
)
    ensures is { store_of to.new ≡ push_all (store_of to.old) (whole_text (read_sheet sheet.now) (answer_view (Ok f) code.now constants.now lines.now)) }
    ensures same { to.new.out.ghost_name ≡ to.old.out.ghost_name }
{
    let n = f.bytes.min(code.len());
    let k = f.constants.min(constants.len());
    let m = text::entry_numbers(f.entries, lines.len());
    to.put_sizes(
        f.bytes as u64,
        f.depth as u64,
        f.constants as u64,
        f.entries as u64,
    );
    to.put_constants(&constants[..k]);
    to.put_entries(&lines[..m]);
    to.put_instructions(sheet, &code[..n]);
}

// Where no rules were counted only the sheet's refusal stands; else the count line is refused. With what the types of the outputs say of their
// elements: the text is then short.
#[tactic(auto, using(std::proofs::lemmas::Bool::Decides::nat_tests), unfolding(crate::specs::View::answer_text, crate::specs::View::countless_text))]
fn put_answer(
    counted: bool,
    answer: Result<Compiled, Refused>,
    sheet: &[u8],
    code: &[u8],
    constants: &[Constant],
    lines: &[u16],
    to: &mut Text,
)
    ensures is { store_of to.new ≡ push_all (store_of to.old) (answer_text counted (read_sheet sheet.now) (answer_view answer code.now constants.now lines.now)) }
    ensures same { to.new.out.ghost_name ≡ to.old.out.ghost_name }
    ensures known { Known code.now constants.now lines.now }
{
    match answer {
        Err(e) if counted || e.refusal == Refusal::BadSheet => {
            to.put_refusal(u64::from(e.refusal.number()), e.place as u64)
        }
        Ok(f) if counted => put_whole(f, sheet, code, constants, lines, to),
        _ => to.put_refusal(u64::from(BAD_RULE), 0),
    }
}

// The text for what a reader has read, from the output's start, and 0 behind it; its length is answered. Every text fits.
pub fn finish(reader: &Reader, out: &mut [u8; LISTING_ROOM]) -> usize
    ensures { Told listing_room text (contents (at reader.now.sheet.cells.now reader.now.sheet.used)) (λ place. listed_at place (state_view reader.now)) out.new result }
{
    let mut code = [0u8; MAX_CODE];
    let mut constants = [0u32; MAX_CONSTANTS];
    let mut lines = [0u16; LINE_NUMBERS];
    let answer = compile_read(reader, &mut code, &mut constants, &mut lines);
    let counted = input_reader::is_counted(input_reader::ending_of(reader.head));
    let sheet = reader.sheet.handed(true);
    let mut to = Text::new(out);
    put_answer(counted, answer, sheet, &code, &constants, &lines, &mut to);
    let n = to.used;
    store::set_from(out, n, 0);
    n
}

// The same for an input that is at hand as a whole.
pub fn answer(input: &[u8], out: &mut [u8; LISTING_ROOM]) -> usize
    ensures { Told listing_room text (cut_line input.now).0 (λ place. listed place input.now) out.new result }
{
    let mut sheet = [0u8; SHEET_ROOM];
    let mut rules = [0u8; RULE_ROOM];
    let mut program = [0u8; PROGRAM_ROOM];
    let mut intake = Intake::start(
        Phase::ProgramText,
        &mut sheet,
        &mut rules,
        &mut program,
        &mut [],
        &mut [],
    );
    intake.feed(input);
    finish(&intake.read(), out)
}
