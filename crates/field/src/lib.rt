// Lines, fields and decimal numbers of lent bytes. A number of any length is one: it is counted up to a cap above every bound, so that nothing wraps
// and what is malformed is told apart from what is out of its range.
#![tactic(auto)]

ghost use Rattle.std.specs.Prelude.{◌≡◌, ℕ, Bool, false, ◌≤◌, ◌<◌, ◌+◌, ◌-◌, ◌*◌, ◌^◌, min, ltb, length, get_or, drop};
ghost use Rattle.definition.specs.Limits.{width};
ghost use Rattle.definition.specs.Field.{comma, first_line, natural_within, negative, field, up_to, below, value};
ghost use Rattle.field.specs.View.{read_of, kind_of, option_of, is_digit, separates, cap, spelt, signs, decided, Passes, Capped, until, before, Ends, Stops, Sums, Counts, Reads, separator};

use definition::WIDTH;

// What a field may hold: 0 to a number, 0 to below one, or a value, which may have a minus.
#[derive(Clone, Copy)]
pub enum Kind {
    UpTo(u32),
    Below(u32),
    Value,
}

// Why a field is refused: it spells no number, or one outside its range.
#[derive(Clone, Copy, PartialEq, Eq)]
pub enum Fault {
    Malformed,
    Outside,
}

// A field of a text as it is read, where it ends, and the byte that it ends at: a comma, an LF, or 0 for the text's end (no Option: a byte is what a field's end is compared with, and 0 ends none). A value is its two's complement bits.
#[derive(Clone, Copy)]
pub struct Next {
    pub read: Result<u32, Fault>,
    pub end: usize,
    pub stop: u8,
}

// Where a field of a text ends, and the byte that it ends at.
#[derive(Clone, Copy)]
pub struct End {
    pub end: usize,
    pub stop: u8,
}

// Where counting stops: above every value, of 64 bits too, and a power of ten, so that one test of the number before a digit decides.
const CAP: u64 = 10000000000000000000;

// How many values there are, and how many of them are negative.
const VALUES: u64 = 1 << WIDTH;

const NEGATIVES: u64 = 1 << (WIDTH - 1);

// A byte of lent bytes of any length, and another where they end before it.
pub fn byte_or(bytes: &[u8], i: usize, other: u8) -> u8
    ensures { result ≡ get_or bytes.now i other }
{
    bytes.get(i).copied().unwrap_or(other)
}

// One digit more.
fn add_digit(n: u64, digit: u8) -> u64
    requires { digit ≤ 9 }
    ensures { result ≡ min (n * 10 + digit) cap }
{
    if n < CAP / 10 {
        n * 10 + u64::from(digit)
    } else {
        CAP
    }
}

// The number as a field's, which is below a limit.
#[tactic(auto, unfolding(definition::specs::Field::natural_within, definition::specs::Field::within))]
fn within(number: Option<u64>, limit: u64) -> Result<u32, Fault>
    requires { limit ≤ 2 ^ width }
    ensures { read_of result ≡ natural_within (λ n. ltb n limit) (option_of number) }
{
    match number {
        None => Err(Fault::Malformed),
        Some(n) if n < limit => Ok(n as u32),
        Some(_) => Err(Fault::Outside),
    }
}

// The bits of the number's negative, which is never 0.
#[tactic(auto, unfolding(definition::specs::Field::negative, definition::specs::Field::within))]
fn negative(number: Option<u64>) -> Result<u32, Fault>
    ensures { read_of result ≡ negative width (option_of number) }
{
    match number {
        None | Some(0) => Err(Fault::Malformed),
        Some(n) if n <= NEGATIVES => Ok((VALUES - n) as u32),
        Some(_) => Err(Fault::Outside),
    }
}

// Where what starts at `at` ends: at the first byte that stops it, or with the bytes. A loop, since `position` over the part from `at` on takes a tenth
// more instructions for reading rules.
fn end_where<F: Fn(u8) -> bool>(bytes: &[u8], at: usize, stops: F) -> usize
    requires { F.IsAlwaysCallable stops }
    ensures { (test : ℕ → Bool) → ((b : ℕ) (r : Bool) → F.post stops b r → r ≡ test b) → Ends (until test) bytes.now at result }
{
    for i in at..bytes.len() {
        if stops(bytes[i]) {
            return i;
        }
    }
    at.max(bytes.len())
}

// Where the line that starts at `at` ends: its LF, or the text's end.
pub fn line_end(text: &[u8], at: usize) -> usize
    ensures { Ends first_line text.now at result }
{
    end_where(text, at, |b| b == b'\n')
}

// Where the field that starts at `at` of a line ends: its comma, or the line's end.
pub fn field_end(line: &[u8], at: usize) -> usize
    ensures { Ends (before comma) line.now at result }
{
    end_where(line, at, |b| b == b',')
}

// Does a field of a text end at this byte?
fn is_separator(b: u8) -> bool
    ensures { result ≡ separates b }
{
    b == b',' || b == b'\n'
}

// Where the field that starts at `at` of a text ends, and the byte that it ends at.
pub fn next_end(text: &[u8], at: usize) -> End
    ensures { Stops text.now at result.end result.stop }
{
    let end = end_where(text, at, is_separator);
    End {
        end,
        stop: byte_or(text, end, 0),
    }
}

// What the digits from `at` on make, up to the first byte that is none, and where that is. By index, since where it stops is answered too.
fn digits(text: &[u8], at: usize) -> (u64, usize)
    ensures made { (stops : ℕ → Bool) → Passes stops → Sums stops text.now at result.0 result.1 }
    ensures stopped { false ≡ is_digit (get_or text.now result.1 0) }
{
    let mut n = 0;
    for i in at..text.len() {
        let b = text[i];
        if !b.is_ascii_digit() {
            return (n, i);
        }
        n = add_digit(n, b - b'0');
    }
    (n, at.max(text.len()))
}

// The number of a field that is digits alone, which make `n`: none if there are none, or a zero leads others.
#[tactic(auto, unfolding(crate::specs::View::spelt))]
fn spell(text: &[u8], at: usize, end: usize, n: u64) -> Option<u64>
    requires at_le_end { at ≤ end }
    requires end_bound { end ≤ at + (length text.now - at) }
    ensures { option_of result ≡ spelt (get_or text.now at 0) (end - at) n }
{
    if end == at || end - at > 1 && text[at] == b'0' {
        None
    } else {
        Some(n)
    }
}

// The number of the field that starts at `at` of a text, and where that field ends.
fn count(text: &[u8], at: usize) -> (Option<u64>, End)
    ensures { Counts text.now at (option_of result.0) result.1.end result.1.stop }
{
    let (n, digits_end) = digits(text, at);
    let field = next_end(text, digits_end);
    if field.end == digits_end {
        (spell(text, at, digits_end, n), field)
    } else {
        (None, field)
    }
}

// Does a field of this kind that starts at `at` have a minus?
#[tactic(auto, unfolding(crate::specs::View::signs))]
fn has_minus(text: &[u8], at: usize, kind: Kind) -> bool
    ensures { result ≡ signs (kind_of kind) (get_or text.now at 0) }
{
    matches!(kind, Kind::Value) && byte_or(text, at, 0) == b'-'
}

// The field that this number makes.
#[tactic(auto, unfolding(crate::specs::View::decided))]
fn decide(kind: Kind, minus: bool, number: Option<u64>) -> Result<u32, Fault>
    ensures { (read_of result ≡ decided (kind_of kind) minus (option_of number)) × Capped (kind_of kind) }
{
    match kind {
        Kind::UpTo(max) => within(number, u64::from(max) + 1),
        Kind::Below(limit) => within(number, u64::from(limit)),
        Kind::Value if minus => negative(number),
        Kind::Value => within(number, NEGATIVES),
    }
}

// A field of 0 to `max`, which is all of the bytes.
pub fn up_to(bytes: &[u8], max: u32) -> Result<u32, Fault>
    ensures { read_of result ≡ field (up_to max) bytes.now }
{
    let (n, end) = digits(bytes, 0);
    if end < bytes.len() {
        return Err(Fault::Malformed);
    }
    within(spell(bytes, 0, end, n), u64::from(max) + 1)
}

// The field that starts at `at` of a text, and where it ends: all of it by one scan.
pub fn next_field(text: &[u8], at: usize, kind: Kind) -> Next
    ensures { Reads (kind_of kind) text.now at (read_of result.read) result.end result.stop }
{
    let minus = has_minus(text, at, kind);
    let (number, End { end, stop }) = count(text, at + usize::from(minus));
    Next {
        read: decide(kind, minus, number),
        end,
        stop,
    }
}

// The one of 0 to `max`.
pub fn next_up_to(text: &[u8], at: usize, max: u32) -> Next
    ensures { Reads (up_to max) text.now at (read_of result.read) result.end result.stop }
{
    next_field(text, at, Kind::UpTo(max))
}

// The byte that field `k` of a line ends at, whose last field is `last`.
#[tactic(auto, unfolding(crate::specs::View::separator))]
pub fn separator(k: usize, last: usize) -> u8
    ensures { result ≡ separator k last }
{
    if k < last { b',' } else { b'\n' }
}
