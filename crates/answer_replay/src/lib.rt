// Replays stored answers (crate replay says how they lie): the number of each case that is answered otherwise, and at the end how many cases there were and how
// many differ.
#![tactic(auto)]

ghost use Rattle.std.specs.Prelude.{◌≡◌, ℕ, ◌≤◌, List, length, IfOk, OnErr};
ghost use Rattle.std.specs.Io.KnownBytes.{Consumes};
ghost use Rattle.replay.specs.Case.{case_count, Replayed};

use definition::{MAX_CODE, MAX_OUTCOMES};
use replay::INPUT_ROOM;
use slowest::Measured;
use std::io;
use std::io::{Read, Write};
use text::{LISTING_ROOM, TEXT_ROOM, Text};

// Whose answers they are. A closure in its place would make public what it stands for here, one function of this crate for each.
#[derive(Clone, Copy)]
pub enum Asked {
    Listing,
    Passes,
    Images,
    Slowest,
}

// One byte more than an image's code may have.
const CODE_ROOM: usize = MAX_CODE + 1;
// More than the text of two numbers takes.
const ANSWER_ROOM: usize = 48;
// More than the text of four numbers and of the outcomes takes.
const MEASURED_ROOM: usize = 96 + 2 * MAX_OUTCOMES;

// An image: the sheet, the depth, and the code's bytes by commas.
#[derive(Clone, Copy)]
struct Image<'a> {
    sheet: &'a [u8],
    depth: u64,
    bytes: &'a [u8],
}

fn is_told(out: &[u8], used: usize, expected: &[u8]) -> bool {
    out.get(..used).is_some_and(|told| told == expected)
}

fn is_listed(input: &[u8], expected: &[u8]) -> bool {
    let mut out = [0u8; LISTING_ROOM];
    let n = listing_answer::answer(input, &mut out);
    is_told(&out, n, expected)
}

fn is_passed(input: &[u8], expected: &[u8]) -> bool {
    let mut out = [0u8; TEXT_ROOM];
    let n = passes_answer::answer(input, &mut out);
    is_told(&out, n, expected)
}

fn digit(b: u8) -> u64
    ensures { result ≤ 9 }
{
    if b.is_ascii_digit() {
        u64::from(b - b'0')
    } else {
        0
    }
}

// The number that some digits spell; the largest depth where that is larger.
fn number(bytes: &[u8]) -> u64 {
    bytes
        .iter()
        .try_fold(0u64, |n, b| n.checked_mul(10)?.checked_add(digit(*b)))
        .unwrap_or(u64::MAX)
}

// An image's three lines: the sheet, the depth, and the code's bytes; none where a line is missing.
fn read_image(input: &[u8]) -> Option<Image<'_>> {
    let first = input.iter().position(|b| *b == b'\n')?;
    let (sheet, rest) = input.split_at(first + 1);
    let second = rest.iter().position(|b| *b == b'\n')?;
    let bytes = &rest[second + 1..];
    Some(Image {
        sheet,
        depth: number(&rest[..second]),
        bytes: &bytes[..field::line_end(bytes, 0)],
    })
}

// The bytes that a line spells, as far as there is room; how many is answered.
fn read_code(line: &[u8], code: &mut [u8]) -> usize
    ensures { result ≤ length code.new }
{
    let mut n = 0;
    for part in line.split_inclusive(|b| *b == b',') {
        if n >= code.len() {
            break;
        }
        let digits = part.strip_suffix(b",").unwrap_or(part);
        code[n] = (number(digits) % 256) as u8;
        n += 1;
    }
    n
}

// Number and place.
fn is_checked(i: Image<'_>, expected: &[u8]) -> bool {
    let mut code = [0u8; CODE_ROOM];
    let n = read_code(i.bytes, &mut code);
    let (number, place) = match image_check::check_image(i.sheet, &code[..n], i.depth) {
        Ok(()) => (0, 0),
        Err(r) => (r.refusal.number(), r.place),
    };
    let mut out = [0u8; ANSWER_ROOM];
    let mut told = Text::new(&mut out);
    told.put_refusal(u64::from(number), place as u64);
    let used = told.used;
    is_told(&out, used, expected)
}

// Number, place, is it 'loops', instructions, and the outcomes.
fn is_measured(i: Image<'_>, expected: &[u8]) -> bool {
    let mut code = [0u8; CODE_ROOM];
    let n = read_code(i.bytes, &mut code);
    let mut outcomes = [0u8; MAX_OUTCOMES];
    let (numbers, count) = match slowest::slowest(i.sheet, &code[..n], i.depth, &mut outcomes) {
        Err(r) => ([u64::from(r.refusal.number()), r.place as u64, 0, 0], 0),
        Ok(Measured::Loops) => ([0, 0, 1, 0], 0),
        Ok(
            Measured::Run {
                instructions,
                outcomes,
            },
        ) => ([0, 0, 0, u64::from(instructions)], outcomes),
    };
    let mut out = [0u8; MEASURED_ROOM];
    let mut told = Text::new(&mut out);
    told.put_decimal(numbers[0]);
    told.put_field(numbers[1]);
    told.put_field(numbers[2]);
    told.put_field(numbers[3]);
    told.put_fields(&outcomes[..count.min(MAX_OUTCOMES)]);
    let used = told.used;
    is_told(&out, used, expected)
}

fn is_answered(asked: Asked, input: &[u8], expected: &[u8]) -> bool {
    match asked {
        Asked::Listing => is_listed(input, expected),
        Asked::Passes => is_passed(input, expected),
        Asked::Images => read_image(input).is_some_and(|i| is_checked(i, expected)),
        Asked::Slowest => read_image(input).is_some_and(|i| is_measured(i, expected)),
    }
}

// How many cases there were is answered; which of them differ is printed. An error is the writer's.
#[tactic(auto, unfolding(replay::specs::Case::missing))]
pub fn replay_all<W: Write>(out: &mut W, asked: Asked, input: &[u8]) -> io::Result<u64>
    ensures { IfOk result (λ n. n ≡ case_count input.now) }
{
    let mut at = 0;
    let mut cases = 0u64;
    let mut differ = 0u64;
    // Each case says where the next one starts, so the step varies.
    while at < input.len() {
        let case = replay::case_at(input, at);
        cases += 1;
        let same = is_answered(asked, &input[at..case.end], &input[case.answer..case.stop]);
        differ += replay::missed(out, cases, same)?;
        at = case.next;
    }
    replay::total(out, cases, differ)
}

// The stored answers that a reader gives, as far as there is room for them: how many cases there were. An error is the reader's or the writer's; what was read before it
// is the first of what the reader had.
pub fn replay_input<R: Read, W: Write>(from: &mut R, out: &mut W, asked: Asked) -> io::Result<u64>
    ensures ok { IfOk result (λ n. Replayed (R.remaining from.old) (R.remaining from.new) n) }
    ensures err { OnErr result ((bs : List ℕ) × Consumes (R.remaining from.old) (R.remaining from.new) bs) }
{
    let mut input = [0u8; INPUT_ROOM];
    let n = replay::read_full(from, &mut input)?;
    replay_all(out, asked, &input[..n])
}
