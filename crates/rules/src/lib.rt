// Pair rules: reading a rule file from any bytes into a lent table, and the lookup that the rewriter asks.
#![tactic(auto, using(std::proofs::lemmas::Bool::Decides::nat_tests), unfolding(crate::specs::View::open_rules))]

ghost use Rattle.std.specs.Prelude.{◌≡◌, map, ℕ, length};
ghost use Rattle.definition.specs.View.{res_of};
ghost use Rattle.definition.specs.Rules.{rule_of, test_numbered, action_numbered, testable, allowed, removed, cancel, has_operand, is_variable, good_rule, test_holds};
ghost use Rattle.opcode.specs.View.{role_view, effect_view};
ghost use Rattle.rules.specs.View.{action_view, row_size, read_into, Answered, Numbered, Bounded, used, row_of, line_at, row_at, row_fits, found_in, actions_in, IsRules, IsRules-prop, head_in, Indexed, Rows};

use definition::{
    LAST_ACTION, LAST_TEST, MAX_FIELD, MAX_RULES, MAX_VARIABLES, NAMEABLE, PASS_COUNT, ROLE_COUNT,
    Refusal, Refused,
};
use opcode::{Effect, Role};

// What is done with one instruction of a matched pair.
#[derive(Clone, Copy)]
pub enum Action {
    Keep,
    Remove,
    RewriteOperand(u16),
}

// An instruction as a rule sees it. A number over the last role's stands for no role.
#[derive(Clone, Copy)]
pub struct Instruction {
    // A number, as the rows of a table and the table of a sheet hold it.
    pub role: u8,
    pub operand: u16,
}

// Rules that were read: the table that they are lent in, and how many they are.
#[derive(Clone, Copy)]
pub struct Rules<'a> {
    pub table: &'a [u16],
    pub count: usize,
    pub ghost read: { IsRules table.now count } by { IsRules-prop table.now count },
}

// The rules of a pass, looked up along its index: by role the first of the pass's rules that start with it, and behind those by rule the
// next that starts as it does.
#[derive(Clone, Copy)]
pub struct Matcher<'a> {
    pub rules: Rules<'a>,
    pub pass: u8,
    pub index: [u16; INDEX_SIZE],
    pub ghost indexed: { Indexed rules.table.now rules.count pass index },
}

// The numbers of a rule line, and where the next line starts.
#[derive(Clone, Copy)]
struct Line {
    numbers: Row,
    next: usize,
}

// The numbers of a rule, in its line and in its row of a table.
// Rows are numbers of a lent table, and so they stay: what a table holds is said of any list.
const PASS: usize = 0;

const FIRST: usize = 1;

const SECOND: usize = 2;

const TEST: usize = 3;

const NUMBER: usize = 4;

const ONE: usize = 5;

const ONE_OPERAND: usize = 6;

const TWO: usize = 7;

const TWO_OPERAND: usize = 8;
// How many they are.
const ROW_SIZE: usize = 9;

type Row = [u16; ROW_SIZE];

// Numbers of a table: a row for each rule that a file may have.
pub const TABLE_SIZE: usize = MAX_RULES * ROW_SIZE;
// In an index, the number of no rule: past every rule's, so that one test ends a chain.
pub const NO_RULE: u16 = MAX_RULES as u16;
// Elements of an index: one for each role, and one for each rule that a file may have.
pub const INDEX_SIZE: usize = ROLE_COUNT + MAX_RULES;

// Tests by number, as a row holds them; any other holds always.
const OPERANDS_EQUAL: u16 = 1;

const FIRST_IS: u16 = 2;

const SECOND_IS: u16 = 3;

// Actions by number, as a row holds them; any other keeps the instruction.
const REMOVE: u16 = 1;

const REWRITE: u16 = 2;

// The largest role that a rule may name.
const LAST_ROLE: u32 = NAMEABLE - 1;

// The largest number of each field.
const MAXIMA: [u32; ROW_SIZE] = [
    PASS_COUNT,
    LAST_ROLE,
    LAST_ROLE,
    LAST_TEST,
    MAX_FIELD,
    LAST_ACTION,
    MAX_FIELD,
    LAST_ACTION,
    MAX_FIELD,
];

// The numbers of the line that starts at `at` and has its LF, by one look at each byte; none where no rule is made of what the line holds.
fn line_numbers(text: &[u8], at: usize) -> Option<Line>
    ensures { Numbered text.now at result }
{
    let mut numbers = [0; ROW_SIZE];
    let mut place = at;
    for k in 0..ROW_SIZE {
        let next = field::next_up_to(text, place, MAXIMA[k]);
        if next.stop != field::separator(k, ROW_SIZE - 1) {
            return None;
        }
        numbers[k] = next.read.ok()? as u16;
        place = next.end + 1;
    }
    Some(Line {
        numbers,
        next: place,
    })
}

// ---- what makes a rule good

fn has_operand(role: Role) -> bool
    ensures { result ≡ has_operand (role_view role) }
{
    role.traits().size == 3
}

// Has each operand that the test reads a role that has one?
fn is_testable(test: u16, first: Role, second: Role) -> bool
    ensures { (n : ℕ) → result ≡ testable (test_numbered test n) (role_view first) (role_view second) }
{
    match test {
        OPERANDS_EQUAL => has_operand(first) && has_operand(second),
        FIRST_IS => has_operand(first),
        SECOND_IS => has_operand(second),
        _ => true,
    }
}

fn is_variable(role: Role) -> bool
    ensures { result ≡ is_variable (role_view role) }
{
    matches!(role, Role::LoadVar | Role::StoreVar)
}

fn is_allowed(action: u16, operand: u16, role: Role) -> bool
    ensures { result ≡ allowed (action_numbered action operand) (role_view role) }
{
    action != REWRITE || is_variable(role) && u32::from(operand) < MAX_VARIABLES
}

// The height change that an action takes out of the code.
fn removed(action: u16, role: Role) -> Effect
    ensures { (n : ℕ) → effect_view result ≡ removed (action_numbered action n) (role_view role) }
{
    if action == REMOVE {
        role.traits().effect
    } else {
        Effect::Same
    }
}

fn cancel(a: Effect, b: Effect) -> bool
    ensures { result ≡ cancel (effect_view a) (effect_view b) }
{
    match a {
        Effect::Up => b == Effect::Down,
        Effect::Down => b == Effect::Up,
        Effect::Same => b == Effect::Same,
    }
}

fn is_good(ns: Row) -> bool
    requires { Bounded ns }
    ensures { result ≡ good_rule (rule_of ns) }
{
    let first = Role::numbered(ns[FIRST] as u8);
    let second = Role::numbered(ns[SECOND] as u8);
    ns[PASS] >= 1
        && is_testable(ns[TEST], first, second)
        && is_allowed(ns[ONE], ns[ONE_OPERAND], first)
        && is_allowed(ns[TWO], ns[TWO_OPERAND], second)
        && cancel(removed(ns[ONE], first), removed(ns[TWO], second))
}

// A number that is read, 0 for one that is not.
fn used(yes: bool, n: u16) -> u16
    ensures { result ≡ used yes n }
{
    if yes { n } else { 0 }
}

// The row of a line's numbers.
fn table_row(ns: Row) -> Row
    requires { Bounded ns }
    ensures { result ≡ row_of (rule_of ns) }
{
    let number = used(ns[TEST] >= FIRST_IS, ns[NUMBER]);
    let one = used(ns[ONE] == REWRITE, ns[ONE_OPERAND]);
    let two = used(ns[TWO] == REWRITE, ns[TWO_OPERAND]);
    [
        ns[PASS], ns[FIRST], ns[SECOND], ns[TEST], number, ns[ONE], one, ns[TWO], two,
    ]
}

// The row of the line that starts at `at`, if it is good.
fn read_line(text: &[u8], at: usize) -> Option<Line>
    ensures { result ≡ line_at text.now at }
{
    let Line { numbers, next } = line_numbers(text, at)?;
    if !is_good(numbers) {
        return None;
    }
    Some(Line {
        numbers: table_row(numbers),
        next,
    })
}

// ---- the file

// The rules of a file into the front of a lent table, one line after the other.
fn read_rows(text: &[u8], table: &mut [u16]) -> Result<usize, Refused>
    ensures { Rows text.now table.old table.new (res_of (λ n. n) result) }
{
    if table.len() < TABLE_SIZE {
        return Err(Refused {
            refusal: Refusal::OutputShort,
            place: 0,
        });
    }
    let mut at = 0;
    let mut count = 0;
    // No `for`: each line says where the next one starts.
    while at < text.len() {
        let bad = Refused {
            refusal: Refusal::BadRule,
            place: count + 1,
        };
        if count == MAX_RULES {
            return Err(bad);
        }
        let Some(line) = read_line(text, at) else {
            return Err(bad);
        };
        let start = count * ROW_SIZE;
        table[start..start + ROW_SIZE].copy_from_slice(&line.numbers);
        count += 1;
        at = line.next;
    }
    Ok(count)
}

// The rules of a file, from any bytes, into a table of TABLE_SIZE numbers or more: 9, or 14 for a shorter one. What lies behind the rules is
// zeroed, and all of it after a refusal.
pub fn read_rules(text: &[u8], table: &mut [u16]) -> Result<usize, Refused>
    ensures { Answered (length table.old) (read_into (length table.old) text.now) (res_of (λ n. n) result) table.new }
{
    let answer = read_rows(text, table);
    store::set_from(table, answer.unwrap_or(0) * ROW_SIZE, 0);
    answer
}

// ---- the lookup

fn action_of(tag: u16, operand: u16) -> Action
    ensures { action_view result ≡ action_numbered tag operand }
{
    match tag {
        REMOVE => Action::Remove,
        REWRITE => Action::RewriteOperand(operand),
        _ => Action::Keep,
    }
}

fn test_holds(test: u16, n: u16, a: u16, b: u16) -> bool
    ensures { result ≡ test_holds (test_numbered test n) a b }
{
    match test {
        OPERANDS_EQUAL => a == b,
        FIRST_IS => a == n,
        SECOND_IS => b == n,
        _ => true,
    }
}

// Does a row fit two instructions of a pass?
fn fits(row: &[u16], pass: u8, a: Instruction, b: Instruction) -> bool
    requires { length row.now ≡ row_size }
    ensures { result ≡ row_fits pass row.now a b }
{
    row[PASS] == u16::from(pass)
        && row[FIRST] == u16::from(a.role)
        && row[SECOND] == u16::from(b.role)
        && test_holds(row[TEST], row[NUMBER], a.operand, b.operand)
}

// The first rule that an index has for a role; NO_RULE for a number that no role has.
pub fn head(index: &[u16; INDEX_SIZE], role: u8) -> u16
    ensures { result ≡ head_in index.now role }
{
    let n = usize::from(role);
    if n < ROLE_COUNT { index[n] } else { NO_RULE }
}

impl<'a> Matcher<'a> {
    // The last rule goes first, so that what stands at a role is the next rule for the one before.
    pub fn new(rules: Rules<'a>, pass: u8) -> Self
        ensures rules { result.rules ≡ rules.entry }
        ensures pass { result.pass ≡ pass }
    {
        let mut index = [NO_RULE; INDEX_SIZE];
        for i in (0..rules.count).rev() {
            let start = i * ROW_SIZE;
            let role = usize::from(rules.table[start + FIRST]);
            index[ROLE_COUNT + i] = index[role];
            if rules.table[start + PASS] == u16::from(pass) {
                index[role] = i as u16;
            }
        }
        Matcher { rules, pass, index }
    }

    // The first rule of the pass that fits two instructions, along the index. It is the definition's (proofs/Lookup.antt, `found-finds`).
    pub fn find(&self, a: Instruction, b: Instruction) -> Option<usize>
        ensures { result ≡ found_in self.now.rules.table.now self.now.rules.count self.now.pass a b }
    {
        let mut i = usize::from(head(&self.index, a.role));
        // No `for`: the index says which rule comes next.
        while i < self.rules.count {
            let start = i * ROW_SIZE;
            if fits(&self.rules.table[start..start + ROW_SIZE], self.pass, a, b) {
                return Some(i);
            }
            i = usize::from(self.index[ROLE_COUNT + i]);
        }
        None
    }
}

// The pair of actions of a rule of a table of any length, which are Keep for one that is not there.
pub fn actions(table: &[u16], at: usize) -> [Action; 2]
    ensures { map action_view result ≡ actions_in table.now at }
{
    if at >= table.len() / ROW_SIZE {
        return [Action::Keep; 2];
    }
    let start = at * ROW_SIZE;
    let row = &table[start..start + ROW_SIZE];
    let one = action_of(row[ONE], row[ONE_OPERAND]);
    let two = action_of(row[TWO], row[TWO_OPERAND]);
    [one, two]
}
