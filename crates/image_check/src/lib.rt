// An image checked (document 02, L11): every place that a walk reaches is met, and looked at once, at the height of the first walk that is followed.
#![tactic(auto)]

ghost use Rattle.std.specs.Prelude.{◌≡◌, true, ◌+◌, ◌≤◌, ◌<◌, length, MatchResult};
ghost use Rattle.definition.specs.Limits.{max_code};
ghost use Rattle.definition.specs.Field.{has};
ghost use Rattle.definition.specs.Runs.{target};
ghost use Rattle.definition.specs.Check.{starts, listed, Answers, Checks};
ghost use Rattle.definition.specs.Claims.{Either};
ghost use Rattle.field.specs.View.{option_of};
ghost use Rattle.opcode.specs.View.{flow_view};
ghost use Rattle.opcode.specs.Table.{table_size, IsTable, sheet_in};
ghost use Rattle.rewrite.specs.View.{Clear};
ghost use Rattle.image_check.specs.Place.{halts};
ghost use Rattle.image_check.specs.View.{fault_of, number_of, place_of, is_place, wrong_by, behind_by, blanks, Ready, Meets, TraitsAt, Looks, Image, Expands, Traverses, Admitted, Rejects};

use definition::{MAX_CODE, Refusal, Refused};
use opcode::{Effect, Flow, Role, Traits, sheet};

// Code with its sheet's table and a flag at each start.
#[derive(Clone, Copy)]
pub struct Flagged<'a> {
    pub sheet: &'a [u8],
    pub code: &'a [u8],
    pub flags: &'a [u8],
    pub ghost image: { Image sheet.now code.now flags.now },
}

// How far a traversal is: places still to be looked at; was a height at fault. There is none once a walk went astray.
#[derive(Clone, Copy)]
pub struct Trip {
    pub count: usize,
    // No error: behind a fault of height the traversal goes on, since going astray comes before it.
    pub bad: bool,
}

// Is a place a start or the end?
fn is_place(flags: &[u8], end: usize, q: usize) -> bool
    requires { end < length flags.now }
    ensures { result ≡ is_place flags.now end q }
{
    q == end || (q < end && flags[q] != 0)
}

// A place is met at a height: the first time it is marked with it, and is to be looked at.
fn meet(
    flags: &[u8],
    end: usize,
    marks: &mut [u32],
    work: &mut [u16],
    t: Trip,
    h: u32,
    q: usize,
) -> Option<Trip>
    requires ready { Ready end flags.now marks.old work.old t.count }
    requires end_bound { h + blanks marks.old end ≤ end + 2 }
    ensures { Meets end flags.now marks.old work.old t h q marks.new work.new result }
{
    if !is_place(flags, end, q) {
        return None; // astray
    }
    // A mark is a height and one, 0 where nothing was: lent numbers, cleared once.
    let mark = marks[q];
    if mark == 0 {
        marks[q] = h + 1;
        work[t.count] = q as u16;
        return Some(Trip {
            count: t.count + 1,
            bad: t.bad,
        });
    }
    if mark == h + 1 {
        return Some(t);
    }
    Some(Trip {
        count: t.count,
        bad: true,
    })
}

// Where a branch leads, whose offset bytes stand before `next`; None is below 0.
pub fn target_of(code: &[u8], next: usize) -> Option<usize>
    requires le_next { 2 ≤ next }
    requires next_in_bounds { next ≤ length code.now + 255 }
    requires code_len_bound { length code.now ≤ max_code }
    ensures { option_of result ≡ target code.now next }
{
    let low = field::byte_or(code, next - 2, 0);
    let high = field::byte_or(code, next - 1, 0);
    let d = usize::from(low) + 256 * usize::from(high);
    if d < 32768 {
        return Some(next + d);
    }
    next.checked_sub(65536 - d)
}

// The traits of the instruction at a start.
pub fn traits_at(sheet: &[u8], code: &[u8], p: usize) -> Traits
    requires table { IsTable sheet.now }
    requires p_value { has (starts (sheet_in sheet.now) code.now) p ≡ true }
    ensures { TraitsAt sheet.now code.now p result }
{
    Role::numbered(sheet::role_number(sheet, code[p])).traits()
}

// The traits of what stands at a place, a start or the end: a run stops at the end as at a RET.
fn look(sheet: &[u8], code: &[u8], p: usize) -> Traits
    requires table { IsTable sheet.now }
    requires either { Either (has (starts (sheet_in sheet.now) code.now) p ≡ true) (p ≡ length code.now) }
    requires p_in_bounds { p ≤ length code.now }
    ensures { Looks sheet.now code.now p result }
{
    if p == code.len() {
        return Traits {
            size: 0,
            needs: 0,
            effect: Effect::Same,
            flow: Flow::Stop,
        };
    }
    traits_at(sheet, code, p)
}

// Does a run finish there?
fn stops(flow: Flow) -> bool
    ensures { result ≡ halts (flow_view flow) }
{
    matches!(flow, Flow::Stop)
}

// Is a height at fault at a place?
fn is_wrong(depth: u64, needs: u8, stops: bool, g: u32) -> bool
    ensures { result ≡ wrong_by depth needs stops g }
{
    depth < u64::from(g) || g < u32::from(needs) || (stops && 0 < g)
}

// The height behind an instruction; behind a fault it no longer matters.
fn height_behind(wrong: bool, effect: Effect, g: u32) -> u32
    requires { g ≤ max_code + 2 }
    ensures { result ≡ behind_by wrong effect g }
{
    if wrong {
        return 0;
    }
    effect.shift(g) as u32
}

// A place is looked at: its exits are met.
fn expand(
    image: Flagged,
    marks: &mut [u32],
    work: &mut [u16],
    t: Trip,
    depth: u64,
    p: usize,
) -> Option<Trip>
    requires { Ready (length image.code.now) image.flags.now marks.old work.old t.count }
    ensures { Expands image.entry.sheet.now image.entry.code.now image.entry.flags.now marks.old work.old t depth p marks.new work.new result }
{
    let flags = image.flags;
    let end = image.code.len();
    if !is_place(flags, end, p) {
        return None;
    }
    let seen = look(image.sheet, image.code, p);
    let next = p + usize::from(seen.size);
    let g = marks[p].saturating_sub(1);
    let wrong = is_wrong(depth, seen.needs, stops(seen.flow), g);
    let h = height_behind(wrong, seen.effect, g);
    let u = Trip {
        count: t.count,
        bad: t.bad | wrong,
    };
    match seen.flow {
        Flow::Onward => meet(flags, end, marks, work, u, h, next),
        Flow::Away => {
            let q = target_of(image.code, next)?;
            meet(flags, end, marks, work, u, h, q)
        }
        Flow::Either => {
            let v = meet(flags, end, marks, work, u, h, next)?;
            let q = target_of(image.code, next)?;
            meet(flags, end, marks, work, v, h, q)
        }
        Flow::Stop => Some(u),
    }
}

// Until no place is left: each was met once, so that there are no more than places.
fn traverse(
    image: Flagged,
    marks: &mut [u32],
    work: &mut [u16],
    first: Trip,
    depth: u64,
) -> Option<Trip>
    requires { Ready (length image.code.now) image.flags.now marks.old work.old first.count }
    ensures { Traverses image.entry.sheet.now image.entry.code.now marks.old work.old first depth marks.new work.new result }
{
    let mut t = first;
    for _step in 0..=image.code.len() {
        if t.count == 0 {
            return Some(t);
        }
        let last = t.count - 1;
        let p = usize::from(work[last]);
        let u = Trip {
            count: last,
            bad: t.bad,
        };
        t = expand(image, marks, work, u, depth, p)?;
    }
    Some(t)
}

// Is an instruction's comparison byte listed, if it is a CMP_BR?
fn is_listed(sheet: &[u8], i: &[u8]) -> bool
    requires table { IsTable sheet.now }
    requires in_bounds { 1 ≤ length i.now }
    ensures { result ≡ listed (sheet_in sheet.now) i.now }
{
    if sheet::role_number(sheet, i[0]) != Role::CmpBr.number() {
        return true;
    }
    let c = field::byte_or(i, 1, 0);
    sheet::is_comparison(sheet, c)
}

// The starts of some code are flagged.
pub fn mark_starts(sheet: &[u8], code: &[u8], flags: &mut [u8])
    requires table { IsTable sheet.now }
    requires code_len_bound { length code.now ≤ max_code }
    requires clear { Clear (length code.now) flags.old }
    ensures { Image sheet.now code.now flags.new }
{
    let mut at = 0;
    // No `for`: the step is the instruction's size.
    while let Some(i) = rewrite::decode(sheet, code, at) {
        if !is_listed(sheet, i) {
            return;
        }
        flags[at] = 1;
        at += i.len();
    }
}

// Is code at fault whose starts are flagged, and why? Over lent tables.
pub fn check_over(
    image: Flagged,
    depth: u64,
    marks: &mut [u32],
    work: &mut [u16],
) -> Result<(), Refusal>
    requires clear { Clear (length image.code.now) marks.old }
    requires code_in_bounds { length image.code.now < length work.old }
    ensures { Answers (sheet_in image.entry.sheet.now) image.entry.code.now depth (fault_of result) }
{
    let none = Trip {
        count: 0,
        bad: false,
    };
    let Some(first) = meet(image.flags, image.code.len(), marks, work, none, 0, 0) else {
        return Err(Refusal::Astray);
    };
    let Some(last) = traverse(image, marks, work, first, depth) else {
        return Err(Refusal::Astray);
    };
    if last.bad {
        return Err(Refusal::BadHeight);
    }
    Ok(())
}

// The same of code that tables of `N` slots hold. Never inlined, so that each size has a frame of its own, and short code doesn't pay for the longest tables.
#[inline(never)]
fn check_in<const N: usize>(sheet: &[u8], code: &[u8], depth: u64) -> Result<(), Refusal>
    requires table { IsTable sheet.now }
    requires code_len_bound { length code.now ≤ max_code }
    requires slots { length code.now < N }
    requires most { N ≤ max_code + 1 }
    ensures { Answers (sheet_in sheet.now) code.now depth (fault_of result) }
{
    let mut flags = [0u8; N];
    let mut marks = [0u32; N];
    let mut work = [0u16; N];
    mark_starts(sheet, code, &mut flags);
    let image = Flagged {
        sheet,
        code,
        flags: &flags,
    };
    check_over(image, depth, &mut marks, &mut work)
}

// The same of code of at most MAX_CODE bytes.
fn check_table(sheet: &[u8], code: &[u8], depth: u64) -> Result<(), Refusal>
    requires table { IsTable sheet.now }
    requires code_len_bound { length code.now ≤ max_code }
    ensures { Answers (sheet_in sheet.now) code.now depth (fault_of result) }
{
    if code.len() <= rewrite::SMALL_CODE {
        check_in::<{ rewrite::SMALL_SLOTS }>(sheet, code, depth)
    } else if code.len() <= rewrite::MIDDLE_CODE {
        check_in::<{ rewrite::MIDDLE_SLOTS }>(sheet, code, depth)
    } else {
        check_in::<{ rewrite::SLOTS }>(sheet, code, depth)
    }
}

// A sheet read into a table, and the code's length tested: 7, then 10.
pub fn admit(sheet: &[u8], code: &[u8], table: &mut [u8]) -> Result<(), Refused>
    requires { length table.old ≡ table_size }
    ensures { MatchResult result (λ _. Admitted sheet.now code.now table.new) (λ e. Rejects sheet.now code.now e) }
{
    sheet::read_sheet(sheet, table)?;
    if code.len() > MAX_CODE {
        return Err(Refused {
            refusal: Refusal::CodeFull,
            place: 0,
        });
    }
    Ok(())
}

// Code of an image against a sheet and its declared depth, from any bytes.
pub fn check_image(sheet: &[u8], code: &[u8], depth: u64) -> Result<(), Refused>
    ensures { Checks sheet.now code.now depth (number_of result) (place_of result) }
{
    let mut table = [0u8; sheet::TABLE_SIZE];
    admit(sheet, code, &mut table)?;
    match check_table(&table, code, depth) {
        Ok(()) => Ok(()),
        Err(refusal) => Err(Refused { refusal, place: 0 }),
    }
}
