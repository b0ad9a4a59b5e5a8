// The slowest call (document 02, L12): from the last place back to the first, the instructions of the longest run from there; then that run is followed.
#![tactic(auto)]

ghost use Rattle.std.specs.Prelude.{◌≡◌, true, ◌+◌, ◌≤◌, ◌<◌, ◌^◌, length};
ghost use Rattle.definition.specs.Limits.{max_code, max_outcomes};
ghost use Rattle.definition.specs.Claims.{branches};
ghost use Rattle.definition.specs.Slowest.{Measures};
ghost use Rattle.opcode.specs.View.{flow_view};
ghost use Rattle.opcode.specs.Table.{IsTable, sheet_in};
ghost use Rattle.rewrite.specs.View.{Clear};
ghost use Rattle.store.specs.Store.{at, push_all};
ghost use Rattle.slowest.specs.View.{count_in, way_by, way_at, way_next, way_count, way_bytes, Counted, Sweeps, Follows, Works, Fronts, used, answer_view};

use definition::{MAX_OUTCOMES, Refusal, Refused};
use image_check::Flagged;
use opcode::{Flow, sheet};

// How the longest run goes on from a place: not at all, after so many instructions; onwards; or behind a branch, which falls through or jumps. Back: the branch there
// leads to its own start or before it.
#[derive(Clone, Copy)]
pub enum Way {
    Back,
    Ends(u16),
    Onwards(usize),
    Falls(usize),
    Jumps(usize),
}

// Instructions of the longest run from a place; none past the end.
fn count_at(counts: &[u16], end: usize, q: usize) -> u16
    requires { end < length counts.now }
    ensures { result ≡ count_in counts.now end q }
{
    if end < q {
        return 0;
    }
    counts[q]
}

// How it goes on from an instruction at `p`, behind which `next` stands. Of two ways as long as each other it falls through.
fn way_by(code: &[u8], counts: &[u16], flow: Flow, p: usize, next: usize) -> Way
    requires le_next { branches (flow_view flow) ≡ true → 2 ≤ next }
    requires next_in_bounds { next ≤ length code.now + 255 }
    requires code_len_bound { length code.now ≤ max_code }
    requires code_in_bounds { length code.now < length counts.now }
    ensures { result ≡ way_by (flow_view flow) code.now p next (count_in counts.now (length code.now)) }
{
    let end = code.len();
    match flow {
        Flow::Onward => Way::Onwards(next),
        Flow::Away => {
            let q = image_check::target_of(code, next).unwrap_or(0);
            if q <= p {
                return Way::Back;
            }
            Way::Onwards(q)
        }
        Flow::Either => {
            let q = image_check::target_of(code, next).unwrap_or(0);
            if q <= p {
                return Way::Back;
            }
            if count_at(counts, end, q) <= count_at(counts, end, next) {
                return Way::Falls(next);
            }
            Way::Jumps(q)
        }
        Flow::Stop => Way::Ends(1),
    }
}

// The same from any place: where no instruction starts, nothing is run.
fn way_at(image: Flagged, counts: &[u16], p: usize) -> Way
    requires { length image.code.now < length counts.now }
    ensures { result ≡ way_at (sheet_in image.entry.sheet.now) image.entry.code.now counts.now p }
{
    let code = image.code;
    if p >= code.len() || image.flags[p] == 0 {
        return Way::Ends(0);
    }
    let seen = image_check::traits_at(image.sheet, code, p);
    way_by(code, counts, seen.flow, p, p + usize::from(seen.size))
}

// Where it goes on, if it does.
fn place_behind(way: Way) -> Option<usize>
    ensures { result ≡ way_next way }
{
    match way {
        Way::Back | Way::Ends(_) => None,
        Way::Onwards(q) | Way::Falls(q) | Way::Jumps(q) => Some(q),
    }
}

// Instructions of the longest run that goes on so.
fn count_by(counts: &[u16], end: usize, way: Way) -> u16
    requires end_in_bounds { end < length counts.now }
    requires way_bound { way_count (count_in counts.now end) way < 2 ^ 16 }
    ensures { result ≡ way_count (count_in counts.now end) way }
{
    match way {
        Way::Back => 0,
        Way::Ends(n) => n,
        Way::Onwards(q) | Way::Falls(q) | Way::Jumps(q) => count_at(counts, end, q) + 1,
    }
}

// A count for each place, the last first; true where a branch leads back.
fn sweep(image: Flagged, counts: &mut [u16]) -> bool
    requires { length image.code.now < length counts.old }
    ensures { Sweeps image.entry.sheet.now image.entry.code.now counts.new result }
{
    let end = image.code.len();
    counts[end] = 0;
    for p in (0..end).rev() {
        let way = way_at(image, counts, p);
        if let Way::Back = way {
            return true;
        }
        counts[p] = count_by(counts, end, way);
    }
    false
}

// The outcome of a branch is noted.
#[tactic(auto, unfolding(definition::specs::Slowest::outcome_bytes, store::specs::Store::push_all))]
fn note(outcomes: &mut [u8], used: usize, way: Way) -> usize
    ensures { at outcomes.new result ≡ push_all (at outcomes.old used) (way_bytes way) }
{
    match way {
        Way::Falls(_) => store::push(outcomes, used, 0),
        Way::Jumps(_) => store::push(outcomes, used, 1),
        Way::Back | Way::Ends(_) | Way::Onwards(_) => used,
    }
}

// The longest run from the first place, followed; how many outcomes it has is answered.
fn follow(image: Flagged, counts: &[u16], outcomes: &mut [u8]) -> usize
    requires counted { Counted image.sheet.now image.code.now counts.now }
    requires max_outcomes_in_bounds { max_outcomes ≤ length outcomes.old }
    ensures { Follows image.entry.sheet.now image.entry.code.now outcomes.new result }
{
    let mut p = 0;
    let mut n = 0;
    // No `for`: each place says where the run goes on.
    loop {
        let way = way_at(image, counts, p);
        let Some(q) = place_behind(way) else {
            return n;
        };
        n = note(outcomes, n, way);
        p = q;
    }
}

// The answer of code that passes as an image: the plain 'loops', or the slowest run's instructions, and how many outcomes lead it.
#[derive(Clone, Copy, PartialEq, Eq)]
pub enum Measured {
    Loops,
    Run { instructions: u32, outcomes: usize },
}

// Code whose starts are flagged, over lent tables. The counts lie in the list in which the check's places waited.
fn measure_over(
    image: Flagged,
    depth: u64,
    marks: &mut [u32],
    work: &mut [u16],
    outcomes: &mut [u8],
) -> Result<Measured, Refusal>
    requires clear { Clear (length image.code.now) marks.old }
    requires code_in_bounds { length image.code.now < length work.old }
    requires max_outcomes_in_bounds { max_outcomes ≤ length outcomes.old }
    ensures { Works image.entry.sheet.now image.entry.code.now depth outcomes.new result }
{
    image_check::check_over(image, depth, marks, work)?;
    if sweep(image, work) {
        return Ok(Measured::Loops);
    }
    let n = follow(image, work, outcomes);
    Ok(Measured::Run {
        instructions: u32::from(work[0]),
        outcomes: n,
    })
}

// The same of code that tables of `N` slots hold. Never inlined, so that each size has a frame of its own, and short code doesn't pay for the longest tables.
#[inline(never)]
fn measure_in<const N: usize>(
    sheet: &[u8],
    code: &[u8],
    depth: u64,
    outcomes: &mut [u8],
) -> Result<Measured, Refusal>
    requires table { IsTable sheet.now }
    requires code_len_bound { length code.now ≤ max_code }
    requires slots { length code.now < N }
    requires most { N ≤ max_code + 1 }
    requires max_outcomes_in_bounds { max_outcomes ≤ length outcomes.old }
    ensures { Works sheet.now code.now depth outcomes.new result }
{
    let mut flags = [0u8; N];
    let mut marks = [0u32; N];
    let mut work = [0u16; N];
    image_check::mark_starts(sheet, code, &mut flags);
    let image = Flagged {
        sheet,
        code,
        flags: &flags,
    };
    measure_over(image, depth, &mut marks, &mut work, outcomes)
}

// Code of at most MAX_CODE bytes.
fn measure_table(
    sheet: &[u8],
    code: &[u8],
    depth: u64,
    outcomes: &mut [u8],
) -> Result<Measured, Refusal>
    requires table { IsTable sheet.now }
    requires code_len_bound { length code.now ≤ max_code }
    requires max_outcomes_in_bounds { max_outcomes ≤ length outcomes.old }
    ensures { Works sheet.now code.now depth outcomes.new result }
{
    if code.len() <= rewrite::SMALL_CODE {
        measure_in::<{ rewrite::SMALL_SLOTS }>(sheet, code, depth, outcomes)
    } else if code.len() <= rewrite::MIDDLE_CODE {
        measure_in::<{ rewrite::MIDDLE_SLOTS }>(sheet, code, depth, outcomes)
    } else {
        measure_in::<{ rewrite::SLOTS }>(sheet, code, depth, outcomes)
    }
}

// The answer, and the outcomes from the start of what is lent for them.
fn measure(sheet: &[u8], code: &[u8], depth: u64, outcomes: &mut [u8]) -> Result<Measured, Refused>
    ensures { Fronts sheet.now code.now depth outcomes.new result }
{
    if outcomes.len() < MAX_OUTCOMES {
        return Err(Refused {
            refusal: Refusal::OutputShort,
            place: 0,
        });
    }
    let mut table = [0u8; sheet::TABLE_SIZE];
    image_check::admit(sheet, code, &mut table)?;
    match measure_table(&table, code, depth, outcomes) {
        Ok(measured) => Ok(measured),
        Err(refusal) => Err(Refused { refusal, place: 0 }),
    }
}

// How many outcomes are given?
fn used(answer: Result<Measured, Refused>) -> usize
    ensures { result ≡ used answer }
{
    match answer {
        Ok(Measured::Run { outcomes, .. }) => outcomes,
        _ => 0,
    }
}

// The slowest call of code, checked as an image first, from any bytes into any output.
pub fn slowest(
    sheet: &[u8],
    code: &[u8],
    depth: u64,
    outcomes: &mut [u8],
) -> Result<Measured, Refused>
    ensures { Measures (length outcomes.old) sheet.now code.now depth (answer_view result outcomes.new) }
{
    let answer = measure(sheet, code, depth, outcomes);
    store::set_from(outcomes, used(answer), 0);
    answer
}
