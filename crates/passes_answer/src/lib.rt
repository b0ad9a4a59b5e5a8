// The end of the passes program's input: what was read is rewritten, and the text of the answer is put into a lent output.
#![tactic(auto)]

ghost use Rattle.std.specs.Prelude.{◌≡◌, Ok};
ghost use Rattle.definition.specs.Sheet.{read_sheet};
ghost use Rattle.definition.specs.Alone.{Rewrites};
ghost use Rattle.store.specs.Store.{at, contents, push_all};
ghost use Rattle.definition.specs.Listing.{cut_line};
ghost use Rattle.definition.specs.Passes.{passed, text};
ghost use Rattle.input_machine.specs.Machine.{ending, concluded};
ghost use Rattle.input_reader.specs.View.{head_view, ending_view, stores_view, state_view, handed_rules};
ghost use Rattle.optimize.specs.View.{answer_view, room};
ghost use Rattle.passes_answer.specs.View.{handed, is_whole, whole_text, answer_text, Known};
ghost use Rattle.text.specs.Text.{text_room, store_of, Told};

use definition::{BAD_RULE, ENTRY_SIZE, MAX_CODE, MAX_LINES, MAX_PROTECTED, Refused};
use input_reader::{
    CODE_ROOM, ENTRY_ROOM, Ending, Intake, OFFSET_ROOM, Phase, RULE_ROOM, Reader, SHEET_ROOM,
};
use optimize::Rewritten;
use text::{TEXT_ROOM, Text};

// Numbers that a full line list takes.
const LINE_NUMBERS: usize = MAX_LINES * ENTRY_SIZE;

#[tactic(auto, unfolding(crate::specs::View::is_whole))]
fn is_whole(e: Ending) -> bool
    ensures { result ≡ is_whole (ending_view e) }
{
    matches!(e, Ending::Whole)
}

// What was read, rewritten: all of it after a whole input; else only the sheet and the rules can be refused.
fn rewrite_read(
    reader: &Reader,
    bytes: &mut [u8],
    moved: &mut [u16],
    lines: &mut [u16],
) -> Result<Rewritten, Refused>
    ensures { let s = stores_view reader.now in let e = ending (head_view reader.now.head) in Rewrites (room bytes.old moved.old lines.old) (contents s.sheet) (handed_rules e s) (handed e s) (answer_view result bytes.new moved.new lines.new) }
{
    let end = input_reader::ending_of(reader.head);
    let whole = is_whole(end);
    optimize::rewrite_alone(
        reader.sheet.handed(true),
        reader.rules.handed(input_reader::is_counted(end)),
        reader.code.handed(whole),
        reader.offsets.handed(whole),
        reader.entries.handed(whole),
        bytes,
        moved,
        lines,
    )
}

fn put_whole(r: Rewritten, sheet: &[u8], bytes: &[u8], moved: &[u16], lines: &[u16], to: &mut Text)
    ensures is { store_of to.new ≡ push_all (store_of to.old) (whole_text (read_sheet sheet.now) (answer_view (Ok r) bytes.now moved.now lines.now)) }
    ensures same { to.new.out.ghost_name ≡ to.old.out.ghost_name }
{
    let n = r.bytes.min(bytes.len());
    let k = r.protected.min(moved.len());
    let m = text::entry_numbers(r.entries, lines.len());
    to.put_counts(r.bytes as u64, r.protected as u64, r.entries as u64);
    to.put_offsets(&moved[..k]);
    to.put_entries(&lines[..m]);
    to.put_instructions(sheet, &bytes[..n]);
}

// With what the types of the outputs say of their elements: the text is then short.
#[tactic(auto, using(std::proofs::lemmas::Bool::Decides::nat_tests), unfolding(crate::specs::View::answer_text, crate::specs::View::ending_text))]
fn put_answer(
    end: Ending,
    answer: Result<Rewritten, Refused>,
    sheet: &[u8],
    bytes: &[u8],
    moved: &[u16],
    lines: &[u16],
    to: &mut Text,
)
    ensures is { store_of to.new ≡ push_all (store_of to.old) (answer_text (ending_view end) (read_sheet sheet.now) (answer_view answer bytes.now moved.now lines.now)) }
    ensures same { to.new.out.ghost_name ≡ to.old.out.ghost_name }
    ensures known { Known bytes.now moved.now lines.now }
{
    match answer {
        Err(e) => to.put_refusal(u64::from(e.refusal.number()), e.place as u64),
        Ok(r) => match end {
            Ending::Whole => put_whole(r, sheet, bytes, moved, lines, to),
            Ending::Cut(n) => to.put_malformed(n),
            Ending::Countless => to.put_refusal(u64::from(BAD_RULE), 0),
        },
    }
}

// The text for what a reader has read, from the output's start, and 0 behind it; its length is answered. Every text fits.
pub fn finish(reader: &Reader, out: &mut [u8; TEXT_ROOM]) -> usize
    ensures { Told text_room text (contents (at reader.now.sheet.cells.now reader.now.sheet.used)) (λ place. concluded place (state_view reader.now)) out.new result }
{
    let mut bytes = [0u8; MAX_CODE];
    let mut moved = [0u16; MAX_PROTECTED];
    let mut lines = [0u16; LINE_NUMBERS];
    let answer = rewrite_read(reader, &mut bytes, &mut moved, &mut lines);
    let end = input_reader::ending_of(reader.head);
    let sheet = reader.sheet.handed(true);
    let mut to = Text::new(out);
    put_answer(end, answer, sheet, &bytes, &moved, &lines, &mut to);
    let n = to.used;
    store::set_from(out, n, 0);
    n
}

// The same for an input that is at hand as a whole.
pub fn answer(input: &[u8], out: &mut [u8; TEXT_ROOM]) -> usize
    ensures { Told text_room text (cut_line input.now).0 (λ place. passed place input.now) out.new result }
{
    let mut sheet = [0u8; SHEET_ROOM];
    let mut rules = [0u8; RULE_ROOM];
    let mut code = [0u8; CODE_ROOM];
    let mut offsets = [0u16; OFFSET_ROOM];
    let mut entries = [0u16; ENTRY_ROOM];
    let mut intake = Intake::start(
        Phase::CodeLine,
        &mut sheet,
        &mut rules,
        &mut code,
        &mut offsets,
        &mut entries,
    );
    intake.feed(input);
    finish(&intake.read(), out)
}
