// Runs a list of cases through the whole call (stdin: its first lines say how a case is written). Prints the name of each case that is answered otherwise,
// and at the end how many cases there were and how many differ.
#![tactic(auto)]

ghost use Rattle.std.specs.Prelude.{◌≤◌};

use compile::call::Compiled;
use definition::{ENTRY_SIZE, MAX_CODE, MAX_CONSTANTS, MAX_LINES, Refused};
use replay::{print, read_full};
use std::io;
use std::io::Write;
use text::{TEXT_ROOM, Text};

// More than the list takes: a case that was cut off would differ.
const INPUT_ROOM: usize = 65536;

// Sheet, rules and program of a case, and its answer's text.
const CASE_ROOM: usize = 262144;

// What is lent is OVER longer than its limit, and 1 shorter where the case says so.
const OVER: usize = 3;

const CODE_ROOM: usize = MAX_CODE + OVER;

const CONSTANT_ROOM: usize = MAX_CONSTANTS + OVER;

const LINE_ROOM: usize = MAX_LINES * ENTRY_SIZE + OVER;

// A case as far as it was read: its name; where in its text rules, program and answer begin, and where the text ends; the key of the last line; the output that
// is lent short. The parts are places and not slices, since the text grows under them.
#[derive(Clone, Copy)]
struct Case<'a> {
    name: Option<&'a [u8]>,
    rules: usize,
    program: usize,
    answer: usize,
    used: usize,
    key: u8,
    short: Option<u8>,
}

// The parts of a case's text.
#[derive(Clone, Copy)]
struct Parts<'a> {
    sheet: &'a [u8],
    rules: &'a [u8],
    program: &'a [u8],
    expected: &'a [u8],
}

impl<'a> Case<'a> {
    fn named(name: Option<&'a [u8]>) -> Case<'a> {
        Case {
            name,
            rules: 0,
            program: 0,
            answer: 0,
            used: 0,
            key: b's',
            short: None,
        }
    }

    // A line with this key ends where the text is used: the later parts begin there.
    fn mark(&mut self, key: u8, used: usize) {
        self.used = used;
        self.key = key;
        if key != b'=' {
            self.answer = used;
        }
        if key == b's' || key == b'r' {
            self.program = used;
        }
        if key == b's' {
            self.rules = used;
        }
    }

    fn parts<'t>(&self, text: &'t [u8]) -> Option<Parts<'t>> {
        Some(Parts {
            sheet: text.get(..self.rules)?,
            rules: text.get(self.rules..self.program)?,
            program: text.get(self.program..self.answer)?,
            expected: text.get(self.answer..self.used)?,
        })
    }
}

// ---- reading

fn number(bytes: &[u8]) -> usize {
    field::up_to(bytes, CASE_ROOM as u32).map_or(0, |n| n as usize)
}

fn put_line(out: &mut [u8], used: usize, bytes: &[u8]) -> usize {
    let mut behind = used;
    for x in bytes {
        behind = store::push(out, behind, *x);
    }
    store::push(out, behind, b'\n')
}

// So many bytes more, each the one `back` before it, as far as there is room.
fn put_again(out: &mut [u8], used: usize, many: usize, back: usize) -> usize {
    if back > used {
        return used;
    }
    let end = used.saturating_add(many).min(out.len());
    for i in used..end {
        out[i] = out[i - back];
    }
    end.max(used)
}

// `many,back`
fn put_repeated(out: &mut [u8], used: usize, bytes: &[u8]) -> usize {
    match bytes.iter().position(|b| *b == b',') {
        Some(middle) => {
            let many = number(&bytes[..middle]);
            let back = number(&bytes[middle + 1..]);
            put_again(out, used, many, back)
        }
        None => used,
    }
}

// A line of a case, which has a key and what follows it.
fn read_line<'a>(c: &mut Case<'a>, line: &'a [u8], text: &mut [u8]) {
    let Some((key, rest)) = line.split_first() else {
        return;
    };
    match *key {
        b'n' => *c = Case::named(rest.get(1..)),
        b's' | b'r' | b'p' | b'=' => c.mark(*key, put_line(text, c.used, rest)),
        b'*' => c.mark(c.key, put_repeated(text, c.used, rest)),
        b'-' => c.mark(c.key, c.used.saturating_sub(1)),
        b'o' => c.short = rest.first().copied().or(c.short),
        _ => {}
    }
}

// ---- answering

// `number,place,depth`, then a line of the code's bytes, one for each constant and one for each line entry.
fn is_told(
    numbers: [u64; 3],
    code: &[u8],
    constants: &[u32],
    lines: &[u16],
    expected: &[u8],
) -> bool {
    let mut out = [0u8; TEXT_ROOM];
    let mut told = Text::new(&mut out);
    told.put_decimal(numbers[0]);
    told.put_field(numbers[1]);
    told.put_last(numbers[2]);
    told.push(b'c');
    told.put_fields(code);
    for k in constants {
        told.push(b'k');
        told.put_last(u64::from(*k));
    }
    told.put_entries(lines);
    let used = told.used;
    out.get(..used).is_some_and(|told| told == expected)
}

// The answer is the one that is expected, and behind it every output is 0.
fn is_answered(
    answer: Result<Compiled, Refused>,
    code: &[u8],
    constants: &[u32],
    lines: &[u16],
    expected: &[u8],
) -> bool {
    let (number, place, c) = match answer {
        Ok(c) => (0, 0, c),
        Err(e) => (
            u64::from(e.refusal.number()),
            e.place as u64,
            Compiled {
                bytes: 0,
                depth: 0,
                constants: 0,
                entries: 0,
            },
        ),
    };
    if c.entries > MAX_LINES {
        return false;
    }
    let Some((code, after_code)) = code.split_at_checked(c.bytes) else {
        return false;
    };
    let Some((constants, after_constants)) = constants.split_at_checked(c.constants) else {
        return false;
    };
    let Some((lines, after_lines)) = lines.split_at_checked(c.entries * ENTRY_SIZE) else {
        return false;
    };
    is_told(
        [number, place, c.depth as u64],
        code,
        constants,
        lines,
        expected,
    ) && after_code.iter().all(|x| *x == 0)
        && after_constants.iter().all(|x| *x == 0)
        && after_lines.iter().all(|x| *x == 0)
}

// How much less of an output is lent.
fn kept_back(short: Option<u8>, key: u8) -> usize
    ensures { result ≤ 4 }
{
    if short == Some(key) { OVER + 1 } else { 0 }
}

// The outputs hold other than 0 before the call.
fn is_right(p: Parts<'_>, short: Option<u8>) -> bool {
    let mut code = [165u8; CODE_ROOM];
    let mut constants = [2779096485u32; CONSTANT_ROOM];
    let mut lines = [42405u16; LINE_ROOM];
    let code = &mut code[..CODE_ROOM - kept_back(short, b'c')];
    let constants = &mut constants[..CONSTANT_ROOM - kept_back(short, b'k')];
    let lines = &mut lines[..LINE_ROOM - kept_back(short, b'l')];
    let answer = compile::entry::compile(p.sheet, p.rules, p.program, code, constants, lines);
    is_answered(answer, code, constants, lines, p.expected)
}

fn is_passed(c: Case<'_>, text: &[u8]) -> bool {
    c.parts(text).is_some_and(|p| is_right(p, c.short))
}

// ---- the list

fn print_name<W: Write>(out: &mut W, name: Option<&[u8]>) -> io::Result<()> {
    match name {
        Some(name) => {
            out.write_all(name)?;
            out.write_all(b"\n")
        }
        None => Ok(()),
    }
}

fn replay<W: Write>(out: &mut W, input: &[u8], text: &mut [u8]) -> io::Result<()> {
    let mut cases = 0u64;
    let mut differ = 0u64;
    let mut c = Case::named(None);
    for line in input.split(|b| *b == b'\n') {
        if line.first() == Some(&b'.') {
            // Wrapping, which they never do: no fact says how many parts a split has.
            cases = cases.wrapping_add(1);
            if !is_passed(c, text) {
                differ = differ.wrapping_add(1);
                print_name(out, c.name)?;
            }
        }
        read_line(&mut c, line, text);
    }
    print(out, cases, b',')?;
    print(out, differ, b'\n')
}

fn main(rt: HostRuntime) -> io::Result<()> {
    let mut input = [0u8; INPUT_ROOM];
    let n = read_full(&mut rt.stdin(), &mut input)?;
    let mut text = [0u8; CASE_ROOM];
    replay(&mut rt.stdout(), &input[..n], &mut text)
}
