// Reads stored texts from standard input, checks each and prints what the check answers. tests/program-texts/make writes the texts and the
// answers. A text is chunks, each a line `times,length` and then its bytes; a line `0,0` ends it.
#![tactic(auto)]

ghost use Rattle.std.specs.Prelude.{◌≤◌, ◌<◌, length, IfSome};

use program::Checked;
use replay::print;
use std::io;
use std::io::Write;

// More than the stored texts take: a text that was cut off would be answered otherwise.
const INPUT_ROOM: usize = 65536;

const TEXT_ROOM: usize = 70000;

// A chunk of a text: bytes and how often they are to be repeated, and what follows it in the input.
#[derive(Clone, Copy)]
struct Chunk<'a> {
    times: usize,
    bytes: &'a [u8],
    rest: &'a [u8],
}

// A number of a chunk's line, as far as there is room for a text; 0 for what is none, or is past it.
fn number(bytes: &[u8]) -> usize
    ensures { result ≤ 70000 }
{
    field::up_to(bytes, TEXT_ROOM as u32)
        .map_or(0, |n| n as usize)
        .min(TEXT_ROOM)
}

// The chunk whose line starts the input; none where no line ends, or it has no comma.
fn read_chunk(input: &[u8]) -> Option<Chunk<'_>>
    ensures { IfSome result (λ c. length c.rest.now < length input.now) }
{
    let end = input.iter().position(|b| *b == b'\n')?;
    let middle = input[..end].iter().position(|b| *b == b',')?;
    let times = number(&input[..middle]);
    let size = number(&input[middle + 1..end]);
    let behind = &input[end + 1..];
    let (bytes, rest) = behind.split_at(size.min(behind.len()));
    Some(Chunk { times, bytes, rest })
}

// The bytes behind those of `text` that are used already, as far as there is room.
fn put(text: &mut [u8], used: usize, bytes: &[u8]) -> usize
    requires { used ≤ length text.old }
    ensures { result ≤ length text.new }
{
    let n = bytes.len().min(text.len() - used);
    text[used..used + n].copy_from_slice(&bytes[..n]);
    used + n
}

fn put_all(text: &mut [u8], used: usize, c: Chunk<'_>) -> usize
    requires { used ≤ length text.old }
    ensures { result ≤ length text.new }
{
    let mut at = used;
    for _ in 0..c.times {
        at = put(text, at, c.bytes);
    }
    at
}

fn answer<W: Write>(out: &mut W, text: &[u8]) -> io::Result<()> {
    match program::check_program(text) {
        Err(refused) => {
            print(out, u64::from(refused.refusal.number()), b',')?;
            print(out, refused.place as u64, b'\n')
        }
        Ok(
            Checked {
                variables,
                statements,
                pos,
                next,
            },
        ) => {
            print(out, 0, b',')?;
            print(out, u64::from(variables), b',')?;
            print(out, u64::from(statements), b',')?;
            print(out, u64::from(pos.line), b',')?;
            print(out, u64::from(pos.column), b',')?;
            print(out, next as u64, b'\n')
        }
    }
}

// Every text of the input, made in `text`. A chunk that is repeated no times ends one, and so does what is no chunk.
fn answer_all<W: Write>(out: &mut W, input: &[u8], text: &mut [u8]) -> io::Result<()> {
    let mut rest = input;
    let mut used = 0;
    // Each chunk says where the next one starts, so the step varies.
    while !rest.is_empty() {
        let Some(c) = read_chunk(rest) else {
            return answer(out, &text[..used]);
        };
        if c.times == 0 {
            answer(out, &text[..used])?;
            used = 0;
        } else {
            used = put_all(text, used, c);
        }
        rest = c.rest;
    }
    Ok(())
}

fn main(rt: HostRuntime) -> io::Result<()> {
    let mut input = [0u8; INPUT_ROOM];
    let n = replay::read_full(&mut rt.stdin(), &mut input)?;
    let mut text = [0u8; TEXT_ROOM];
    answer_all(&mut rt.stdout(), &input[..n], &mut text)
}
