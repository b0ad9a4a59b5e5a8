// Stored answers, which programs of the gate replay: a case is an input, a line ====, the answer, a line ====. Finds the cases, and tells the
// number of each that differs.
#![tactic(auto)]

ghost use Rattle.std.specs.Prelude.{◌≡◌, ℕ, ◌≤◌, ◌<◌, [], ◌∷◌, ◌++◌, false, length, take, drop, IfOk, OnOk, OnErr};
ghost use Rattle.std.specs.Fmt.{decimal};
ghost use Rattle.std.specs.Io.{ReadsAtMost};
ghost use Rattle.std.specs.Io.KnownBytes.{Appends, Consumes, IsAtEnd};
ghost use Rattle.replay.specs.Case.{begins, separator, part_end, behind, case_at, missing, missed_line, total_line, Parts};

use std::io;
use std::io::{Read, Write};

// More than the stored answers of one program take: a case that was cut off would differ.
pub const INPUT_ROOM: usize = 700000;

const SEPARATOR: [u8; 5] = *b"====\n";

// Offsets and not slices, since what `case_at` promises is where the parts lie: where a case's input ends, where its answer starts and ends, and where the next case starts.
#[derive(Clone, Copy)]
pub struct Case {
    pub end: usize,
    pub answer: usize,
    pub stop: usize,
    pub next: usize,
}

// The separator line at or after a line's start; the end where there is none.
fn part_end(input: &[u8], from: usize) -> usize
    requires { from ≤ length input.now }
    ensures is { result ≡ part_end input.now from }
    ensures lies { (from ≤ result) × (result ≤ length input.now) }
{
    let mut starts = true;
    for at in from..input.len() {
        if starts && input[at..].starts_with(&SEPARATOR) {
            return at;
        }
        starts = input[at] == b'\n';
    }
    input.len()
}

// Behind the separator line that stands here; the end where there is none.
#[tactic(auto, unfolding(crate::specs::Case::behind))]
fn behind(input: &[u8], at: usize) -> usize
    requires { at ≤ length input.now }
    ensures { result ≡ behind input.now at }
{
    (at + SEPARATOR.len()).min(input.len())
}

// The case that starts here.
#[tactic(auto, unfolding(crate::specs::Case::behind, crate::specs::Case::case_at))]
pub fn case_at(input: &[u8], at: usize) -> Case
    requires { at < length input.now }
    ensures is { result ≡ case_at input.now at }
    ensures lies { Parts (length input.now) at result }
{
    let end = part_end(input, at);
    let answer = behind(input, end);
    let stop = part_end(input, answer);
    let next = behind(input, stop);
    Case {
        end,
        answer,
        stop,
        next,
    }
}

// Reads until `buf` is full or the input ends, and answers how many bytes it put at the start of `buf`. An error is the reader's; what was read before it stands at the
// start of `buf` too.
pub fn read_full<R: Read>(input: &mut R, buf: &mut [u8]) -> io::Result<usize>
    ensures within { ReadsAtMost result buf.new }
    ensures bytes { IfOk result (λ n. Consumes (R.remaining input.old) (R.remaining input.new) (take n buf.new)) }
    ensures end { IfOk result (λ n. n < length buf.new → IsAtEnd (R.remaining input.new)) }
    ensures err { OnErr result ((n : ℕ) × (n ≤ length buf.new) × Consumes (R.remaining input.old) (R.remaining input.new) (take n buf.new)) }
{
    let mut done = 0;
    // A read gives as many bytes as it likes, so the step varies.
    while done < buf.len() {
        let n = input.read(&mut buf[done..])?;
        if n == 0 {
            return Ok(done);
        }
        done += n;
    }
    Ok(done)
}

// A number, and the byte behind it. An error is the writer's.
pub fn print<W: Write>(out: &mut W, n: u64, last: u8) -> io::Result<()>
    ensures printed { OnOk result (Appends (W.contents out.old) (W.contents out.new) (decimal n ++ last ∷ [])) }
{
    write!(out, "{n}")?;
    out.write_all(&[last])
}

// 1 for a case that differs, whose number is printed. An error is the writer's, and comes only there.
#[tactic(auto, unfolding(crate::specs::Case::missing, crate::specs::Case::missed_line))]
pub fn missed<W: Write>(out: &mut W, number: u64, same: bool) -> io::Result<u64>
    ensures ok { IfOk result (λ n. n ≡ missing same) }
    ensures printed { OnOk result (Appends (W.contents out.old) (W.contents out.new) (missed_line same number)) }
    ensures err { OnErr result (same ≡ false) }
{
    if same {
        return Ok(0);
    }
    print(out, number, b'\n')?;
    Ok(1)
}

// How many cases there were, which is answered too, and how many differ. An error is the writer's.
pub fn total<W: Write>(out: &mut W, cases: u64, differ: u64) -> io::Result<u64>
    ensures ok { IfOk result (λ n. n ≡ cases) }
    ensures printed { OnOk result (Appends (W.contents out.old) (W.contents out.new) (total_line cases differ)) }
{
    print(out, cases, b',')?;
    print(out, differ, b'\n')?;
    Ok(cases)
}
