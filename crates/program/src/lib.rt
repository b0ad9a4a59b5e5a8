// The program text: checked in its order (1; then line by line 6, 5, 2, 3), and gone over in place.
#![tactic(auto)]

ghost use Rattle.std.specs.Prelude.{◌≡◌, ◌≤◌, ◌<◌, ◌&&◌, leb, length, IfSome};
ghost use Rattle.definition.specs.Limits.{max_nesting, max_program};
ghost use Rattle.definition.specs.Program.{next_line, ends_in_lf};
ghost use Rattle.definition.specs.View.{res_of};
ghost use Rattle.field.specs.View.{line_end};
ghost use Rattle.program_line.specs.View.{header_line, stmt_line, expr_line};
ghost use Rattle.program.specs.Walk.{cursor_of, cursor_in, Near, Skipped, behind_line, Walked, WalkedOn, many, over_expr, over_stmt, over_label, over_arm, parts_of, operands_of, blocks, failed};
ghost use Rattle.program.specs.Check.{checked_view, checked, Headed};
ghost use Rattle.program.specs.Ends.{no_ends, Sound, NoneNew, body_of, Noting};

use definition::{MAX_NESTING, MAX_PROGRAM, Refusal, Refused};
use line_map::Pos;
use program_line::{ExprLine, HeaderLine, StmtLine};

// A level's second body yields to one that is longer than it divided by this.
const YIELDS_TO: usize = 4;

// A place in the text: the byte where a line starts, and its number.
#[derive(Clone, Copy)]
pub struct Cursor {
    pub at: usize,
    pub row: usize,
}

// Why a walk that heeds faults is refused, and at which line.
#[derive(Clone, Copy)]
pub struct Stop {
    pub refusal: Refusal,
    pub at: Cursor,
}

impl From<Stop> for Refused {
    ghost from_gives = { λ s r. r ≡ record { refusal = s.refusal; place = s.at.row } };

    fn from(stop: Stop) -> Refused {
        Refused {
            refusal: stop.refusal,
            place: stop.at.row,
        }
    }
}

// What follows a statement's line, in this order.
#[derive(Clone, Copy)]
pub struct Parts {
    pub exprs: usize,
    pub arms: usize,
    pub first: usize,
    pub second: usize,
}

// A program that is accepted: what its header says, and where its first top statement stands.
#[derive(Clone, Copy)]
pub struct Checked {
    pub variables: u16,
    pub statements: u16,
    pub pos: Pos,
    pub next: usize,
}

// A loop's body that was noted: the byte and the line where it starts, how many statements it has, and the byte and the line where it ends. Places that do not fit
// into 16 bits are not noted.
#[derive(Clone, Copy)]
pub struct Body {
    pub at: u16,
    pub row: u16,
    pub count: u16,
    pub end: u16,
    pub last: u16,
}

// A body of no statement stands where none is noted: with Options each of 128 would be larger, and what is noted only saves time.
const NO_BODY: Body = Body {
    at: 0,
    row: 0,
    count: 0,
    end: 0,
    last: 0,
};

// The bodies that are noted, two of each nesting level, and the byte from which the present walk skips.
#[derive(Clone, Copy)]
pub struct Ends {
    pub first: [Body; MAX_NESTING],
    pub second: [Body; MAX_NESTING],
    pub from: u16,
}

fn blocks(exprs: usize, first: u16, second: u16) -> Parts
    ensures { result ≡ blocks exprs first second }
{
    Parts {
        exprs,
        arms: 0,
        first: usize::from(first),
        second: usize::from(second),
    }
}

#[tactic(auto, unfolding(crate::specs::Walk::open_parts))]
fn parts_of(line: StmtLine) -> Parts
    ensures { result ≡ parts_of (stmt_line line) }
{
    match line {
        StmtLine::Assign { .. } => blocks(1, 0, 0),
        StmtLine::If {
            then,
            otherwise,
            ..
        } => blocks(1, then, otherwise),
        StmtLine::Case {
            arms,
            otherwise,
            ..
        } => Parts {
            arms: usize::from(arms),
            ..blocks(1, 0, otherwise)
        },
        StmtLine::For { body, .. } => blocks(2, body, 0),
        StmtLine::Loop {
            body,
            continuing,
            ..
        } => blocks(0, body, continuing),
        StmtLine::Exit { .. } | StmtLine::Continue { .. } | StmtLine::Return { .. } => blocks(
            0, 0, 0,
        ),
    }
}

// How many operands follow an expression's line.
#[tactic(auto, unfolding(crate::specs::Walk::open_parts))]
fn operands_of(line: ExprLine) -> usize
    ensures { result ≡ operands_of (expr_line line) }
{
    match line {
        ExprLine::Const(_) | ExprLine::Bool(_) | ExprLine::Read(_) => 0,
        ExprLine::Unary(_) => 1,
        ExprLine::Binary(_) | ExprLine::Compare(_) | ExprLine::ShortCircuit(_) => 2,
    }
}

// The line at a place is at fault: a walk that heeds faults is refused there, and another goes on from there.
#[tactic(auto, unfolding(crate::specs::Walk::open_parts))]
fn fail(c: Cursor, heed: bool, refusal: Refusal) -> Result<Cursor, Stop>
    ensures { result ≡ failed heed c refusal }
{
    if heed {
        Err(Stop { refusal, at: c })
    } else {
        Ok(c)
    }
}

// The place behind a line that ends at `end`.
pub fn behind(text: &[u8], c: Cursor, end: usize) -> Cursor
    requires near { Near text.now c.at c.row }
    requires end_in_bounds { end ≤ length text.now }
    ensures { result ≡ behind_line c end }
{
    Cursor {
        at: end + 1,
        row: c.row + 1,
    }
}

// The place of the next line, where there is one here, which ends at `end`.
pub fn next_line(text: &[u8], c: Cursor, end: usize) -> Cursor
    requires near { Near text.now c.at c.row }
    requires at_in_bounds { c.at < length text.now }
    requires end_value { end ≡ line_end text.now c.at }
    ensures { Skipped text.now (next_line text.now (cursor_of c)) result }
{
    behind(text, c, end)
}

// ---- walks

// A walk over parts of a program of so many variables. One that heeds no fault is never refused: it goes on from a line at fault.
// Its four loops over parts stay four: two of them lend `ends` on, and they stand in two cycles, so one function for them is no plainer.
#[derive(Clone, Copy)]
struct Walk<'a> {
    text: &'a [u8],
    variables: u16,
    heed: bool,
}

impl<'a> Walk<'a> {
    // So many expressions.
    #[cycle(exprs)]
    fn exprs(&self, left: usize, n: usize, c: Cursor) -> Result<Cursor, Stop>
        requires { Near self.now.text.now c.at c.row }
        ensures { Walked (many n (over_expr self.now.heed left self.now.variables self.now.text.now)) self.now.text.now c result }
    {
        let mut on = c;
        for _ in 0..n {
            on = self.expr(left, on)?;
        }
        Ok(on)
    }

    // An expression, with so many nesting levels left.
    #[cycle(exprs)]
    fn expr(&self, left: usize, c: Cursor) -> Result<Cursor, Stop>
        requires { Near self.now.text.now c.at c.row }
        ensures { Walked (over_expr self.now.heed left self.now.variables self.now.text.now) self.now.text.now c result }
    {
        match program_line::next_expr(self.text, self.variables, left, c.at) {
            Err(refusal) => fail(c, self.heed, refusal),
            Ok(next) => {
                let on = next_line(self.text, c, next.end);
                self.exprs(left - 1, operands_of(next.line), on)
            }
        }
    }

    // So many labels.
    fn labels(&self, left: usize, n: usize, c: Cursor) -> Result<Cursor, Stop>
        requires { Near self.now.text.now c.at c.row }
        ensures { Walked (many n (over_label self.now.heed left self.now.text.now)) self.now.text.now c result }
    {
        let mut on = c;
        for _ in 0..n {
            on = self.label(left, on)?;
        }
        Ok(on)
    }

    // A label's line.
    fn label(&self, left: usize, c: Cursor) -> Result<Cursor, Stop>
        requires { Near self.now.text.now c.at c.row }
        ensures { Walked (over_label self.now.heed left self.now.text.now) self.now.text.now c result }
    {
        match program_line::next_label(self.text, left, c.at) {
            Err(refusal) => fail(c, self.heed, refusal),
            Ok(next) => Ok(next_line(self.text, c, next.end)),
        }
    }

    // So many arms.
    #[cycle(stmts)]
    fn arms(&self, ends: &mut Ends, left: usize, n: usize, c: Cursor) -> Result<Cursor, Stop>
        requires near { Near self.now.text.now c.at c.row }
        requires sound { Sound self.now.text.now self.now.variables ends.old }
        ensures walked { Walked (many n (over_arm self.now.heed left self.now.variables self.now.text.now)) self.now.text.now c result }
        ensures sound_2 { Sound self.now.text.now self.now.variables ends.new }
    {
        let mut on = c;
        for _ in 0..n {
            on = self.arm(ends, left, on)?;
        }
        Ok(on)
    }

    // An arm: its line, its labels and its body.
    #[cycle(stmts)]
    fn arm(&self, ends: &mut Ends, left: usize, c: Cursor) -> Result<Cursor, Stop>
        requires near { Near self.now.text.now c.at c.row }
        requires sound { Sound self.now.text.now self.now.variables ends.old }
        ensures walked { Walked (over_arm self.now.heed left self.now.variables self.now.text.now) self.now.text.now c result }
        ensures sound_2 { Sound self.now.text.now self.now.variables ends.new }
    {
        match program_line::next_arm(self.text, left, c.at) {
            Err(refusal) => fail(c, self.heed, refusal),
            Ok(next) => {
                let arm = next.line;
                let on = next_line(self.text, c, next.end);
                let body = self.labels(left, usize::from(arm.labels), on)?;
                self.stmts(ends, left, usize::from(arm.statements), body)
            }
        }
    }

    // So many statements.
    #[cycle(stmts)]
    fn stmts(&self, ends: &mut Ends, left: usize, n: usize, c: Cursor) -> Result<Cursor, Stop>
        requires near { Near self.now.text.now c.at c.row }
        requires sound { Sound self.now.text.now self.now.variables ends.old }
        ensures walked { Walked (many n (over_stmt self.now.heed left self.now.variables self.now.text.now)) self.now.text.now c result }
        ensures sound_2 { Sound self.now.text.now self.now.variables ends.new }
    {
        let mut on = c;
        for _ in 0..n {
            on = self.stmt(ends, left, on)?;
        }
        Ok(on)
    }

    // A statement, with so many nesting levels left: its line, then its parts.
    #[cycle(stmts)]
    fn stmt(&self, ends: &mut Ends, left: usize, c: Cursor) -> Result<Cursor, Stop>
        requires near { Near self.now.text.now c.at c.row }
        requires sound { Sound self.now.text.now self.now.variables ends.old }
        ensures walked { Walked (over_stmt self.now.heed left self.now.variables self.now.text.now) self.now.text.now c result }
        ensures sound_2 { Sound self.now.text.now self.now.variables ends.new }
    {
        match program_line::next_stmt(self.text, self.variables, left, c.at) {
            Err(refusal) => fail(c, self.heed, refusal),
            Ok(next) => {
                let p = parts_of(next.line);
                let l = left - 1;
                let on = next_line(self.text, c, next.end);
                let arms = self.exprs(l, p.exprs, on)?;
                let first = self.arms(ends, l, p.arms, arms)?;
                let second = self.stmts(ends, l, p.first, first)?;
                ends.note(self.heed, l, p, first, second);
                self.stmts(ends, l, p.second, second)
            }
        }
    }
}

// Over an expression, with so many nesting levels left, in a program of so many variables. A walk that is refused already stays so.
pub fn walk_expr(
    text: &[u8],
    variables: u16,
    heed: bool,
    left: usize,
    w: Result<Cursor, Stop>,
) -> Result<Cursor, Stop>
    requires { Near text.now (cursor_in w).at (cursor_in w).row }
    ensures { WalkedOn (over_expr heed left variables text.now) text.now w result }
{
    let c = w?;
    let walk = Walk {
        text,
        variables,
        heed,
    };
    walk.expr(left, c)
}

// Over so many statements. A walk that is refused already stays so.
pub fn walk_stmts(
    text: &[u8],
    ends: &mut Ends,
    variables: u16,
    heed: bool,
    left: usize,
    n: usize,
    w: Result<Cursor, Stop>,
) -> Result<Cursor, Stop>
    requires near { Near text.now (cursor_in w).at (cursor_in w).row }
    requires sound { Sound text.now variables ends.old }
    ensures walked { WalkedOn (many n (over_stmt heed left variables text.now)) text.now w result }
    ensures sound_2 { Sound text.now variables ends.new }
{
    let first = w?;
    let walk = Walk {
        text,
        variables,
        heed,
    };
    walk.stmts(ends, left, n, first)
}

// ---- where bodies of loops end. A REPEAT is seen behind its body, so these are looked up when it is emitted; what is noted only saves time

impl Body {
    // A body of n statements, from b to c.
    fn of(n: usize, b: Cursor, c: Cursor) -> Option<Body>
        ensures { IfSome result (λ x. x ≡ body_of n b c) }
    {
        Some(Body {
            at: u16::try_from(b.at).ok()?,
            row: u16::try_from(b.row).ok()?,
            count: u16::try_from(n).ok()?,
            end: u16::try_from(c.at).ok()?,
            last: u16::try_from(c.row).ok()?,
        })
    }
}

impl Ends {
    // With no body noted.
    pub fn new() -> Ends
        ensures { result ≡ no_ends }
    {
        Ends {
            first: [NO_BODY; MAX_NESTING],
            second: [NO_BODY; MAX_NESTING],
            from: 0,
        }
    }

    // Is a body noted first in its level? Of a level's bodies in the part that is skipped now the longest is: to skip it again would cost most.
    fn replaces(&self, left: usize, body: Body) -> bool
        requires { left < max_nesting }
    {
        let old = self.first[left];
        old.at < self.from
            || old.at >= body.at
            || usize::from(body.end) + usize::from(old.at)
                > usize::from(old.end) + usize::from(body.at)
    }

    // Is a body that is not noted first noted second? A heavy body ahead is found: skips of lighter ones before it note deeper levels only, and what they push
    // out of it there stays here, unless it yields to a body whose length makes up for one skip more.
    fn yields(&self, left: usize, body: Body) -> bool
        requires { left < max_nesting }
    {
        let old = self.second[left];
        old.at < self.from
            || YIELDS_TO * usize::from(body.end) + usize::from(old.at)
                > usize::from(old.end) + YIELDS_TO * usize::from(body.at)
    }

    // A level's first body makes room: it is noted second if it is still ahead and the second yields.
    fn set_aside(&mut self, left: usize)
        requires { left < max_nesting }
        ensures { NoneNew self.old self.new }
    {
        let body = self.first[left];
        if body.at >= self.from && self.yields(left, body) {
            self.second[left] = body;
        }
    }

    // The first statements of a loop, from b to c, are noted for their level if that is of use: by a walk that heeds no fault, and if the loop's `continuing` is one
    // statement.
    fn note(&mut self, heed: bool, left: usize, p: Parts, b: Cursor, c: Cursor)
        ensures { Noting heed left p.first b c self.old self.new }
    {
        if heed || p.exprs != 0 || p.second != 1 || left >= MAX_NESTING {
            return;
        }
        let Some(body) = Body::of(p.first, b, c) else {
            return;
        };
        if self.replaces(left, body) {
            self.set_aside(left);
            self.first[left] = body;
        } else if self.yields(left, body) {
            self.second[left] = body;
        }
    }
}

// ---- the check

// The lines behind an accepted header, which ends at `end`; the top statements at nesting level 1.
fn check_body(text: &[u8], header: HeaderLine, end: usize) -> Result<Checked, Refused>
    requires headed { Headed text.now (header_line header) }
    requires end_value { end ≡ line_end text.now 0 }
    ensures { res_of checked_view result ≡ checked text.now }
{
    let top = next_line(text, Cursor { at: 0, row: 1 }, end);
    let mut ends = Ends::new();
    let variables = header.variables;
    let n = usize::from(header.statements);
    let last = walk_stmts(text, &mut ends, variables, true, MAX_NESTING, n, Ok(top))?;
    if last.at < text.len() {
        return Err(Refused {
            refusal: Refusal::WrongLines,
            place: last.row,
        });
    }
    Ok(Checked {
        variables,
        statements: header.statements,
        pos: header.pos,
        next: top.at,
    })
}

// A program is not empty, not too long, and ended by LF.
fn is_text(text: &[u8]) -> bool
    ensures { result ≡ leb (length text.now) max_program && ends_in_lf text.now }
{
    text.len() <= MAX_PROGRAM && text.ends_with(b"\n")
}

// The check of any text.
pub fn check_program(text: &[u8]) -> Result<Checked, Refused>
    ensures { res_of checked_view result ≡ checked text.now }
{
    if !is_text(text) {
        return Err(Refused {
            refusal: Refusal::BadText,
            place: 0,
        });
    }
    match program_line::next_header(text, MAX_NESTING, 0) {
        Err(refusal) => Err(Refused { refusal, place: 1 }),
        Ok(next) => check_body(text, next.line, next.end),
    }
}
