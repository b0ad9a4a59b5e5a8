// The three passes and line mapping (optimize/mod.rs). What is lent stays parameters: a struct that holds `&mut`s needs a clause for each of them in every contract.
#![tactic(auto)]

ghost use Rattle.std.specs.Prelude.{◌≡◌, map, [], ◌∷◌, ◌*◌, ◌/◌, ◌≤◌, suc, length};
ghost use Rattle.std.proofs.Math.Option.{none};
ghost use Rattle.definition.specs.Limits.{max_code, entry_size};
ghost use Rattle.definition.specs.Rewrite.{moved_to};
ghost use Rattle.definition.specs.Alone.{boundaries};
ghost use Rattle.definition.specs.Lent.{entries_of};
ghost use Rattle.field.specs.View.{option_of};
ghost use Rattle.definition.specs.Optimize.{run, remap_line_map};
ghost use Rattle.opcode.specs.Table.{IsTable, sheet_in};
ghost use Rattle.rules.specs.View.{rules_in};
ghost use Rattle.store.specs.Fill.{fitted_with};
ghost use Rattle.line_map.specs.View.{entry_view};
ghost use Rattle.rewrite.specs.View.{Clear};
ghost use Rattle.optimize.specs.View.{Small, Marks, Bounds, Runnable, pipeline, passes, Ran, Rewrote, Passed, given, map_in, fixed_in, CheckedOffset, Checks, offset_view, entry_offsets, remapped_view, Remaps};

use definition::{ENTRY_SIZE, PASS_COUNT};
use line_map::LineEntry;
use rules::Rules;

pub mod alone; // alone.rt: the entry that is called alone

pub use alone::{Rewritten, rewrite_alone};

const PASSES: u8 = PASS_COUNT as u8;

// The new offset of an old one; 0 past the map's end.
pub fn moved_to(moves: &[u16], x: u16) -> u16
    ensures { result ≡ moved_to (map_in moves.now) x }
{
    moves.get(usize::from(x)).copied().unwrap_or(0)
}

// Each offset of a list moved by a map.
fn move_all(moves: &[u16], list: &mut [u16])
    ensures { list.new ≡ map (moved_to (map_in moves.now)) list.old }
{
    for x in list.iter_mut() {
        *x = moved_to(moves, *x);
    }
}

// A mark at each of the offsets, in a table that has none.
fn mark(protected: &[u16], marks: &mut [u8])
    requires small { Small (length marks.old) protected.now }
    requires clear { Clear 0 marks.old }
    ensures { Marks protected.now marks.new }
{
    for &x in protected {
        marks[usize::from(x)] = 1;
    }
}

// The starts of the instructions and their end, each listed at its own place of a table.
#[tactic(auto, using(rewrite::proofs::Decoding::part_within))]
pub fn list_boundaries(sheet: &[u8], code: &[u8], table: &mut [u16]) -> usize
    requires table { IsTable sheet.now }
    requires code_len_bound { length code.now ≤ max_code }
    requires clear { Clear (length code.now) table.old }
    ensures { Bounds (sheet_in sheet.now) code.now table.new result }
{
    let mut at = 0;
    // No `for`: the step is the instruction's size.
    while let Some(i) = rewrite::decode(sheet, code, at) {
        table[at] = at as u16;
        at += i.len();
    }
    table[at] = at as u16;
    at
}

// An offset that a table of starts and the end leaves where it is; any other is the error.
fn check_offset(table: &[u16], x: u16) -> Result<(), u16>
    requires { 1 ≤ length table.now }
    ensures { CheckedOffset (fixed_in table.now) x result }
{
    if moved_to(table, x) == x {
        Ok(())
    } else {
        Err(x)
    }
}

// The first of the protected offsets that is no boundary is the error.
fn check_protected(table: &[u16], list: &[u16]) -> Result<(), u16>
    requires { 1 ≤ length table.now }
    ensures { Checks (boundaries (fixed_in table.now) list.now) (length table.now) list.now result }
{
    for &x in list {
        check_offset(table, x)?;
    }
    Ok(())
}

// The first of the line entries' offsets that is no boundary is the error. (A list of three numbers an entry: over any iterator one function for both is no plainer.)
fn check_lines(table: &[u16], lines: &[u16]) -> Result<(), u16>
    requires { 1 ≤ length table.now }
    ensures { offset_view result ≡ boundaries (fixed_in table.now) (entry_offsets lines.now) }
{
    for numbers in lines.chunks_exact(ENTRY_SIZE) {
        check_offset(table, line_map::entry_at(numbers, 0).offset)?;
    }
    Ok(())
}

// The covered function for one entry: dropped if it is mapped to or past the end, or to the last kept entry's offset.
pub fn remap_entry(
    entry: LineEntry,
    moves: &[u16],
    last: Option<u16>,
    end: usize,
) -> Option<LineEntry>
    ensures { remapped_view result ≡ remap_line_map (map_in moves.now) end (option_of last) (entry_view entry ∷ []) }
{
    let offset = moved_to(moves, entry.offset);
    if end <= usize::from(offset) || last == Some(offset) {
        return None;
    }
    Some(LineEntry {
        offset,
        pos: entry.pos,
    })
}

// `remap_line_map` over numbers, ENTRY_SIZE to an entry. Our own crates lend an output that has room for every entry.
pub fn remap_line_map(moves: &[u16], end: usize, lines: &[u16], out: &mut [u16]) -> usize
    requires { length lines.now / entry_size * entry_size ≤ length out.old }
    ensures { Remaps (remap_line_map (map_in moves.now) end none (entries_of lines.now)) out.old out.new result }
{
    let mut last = None;
    let mut to = 0;
    for numbers in lines.chunks_exact(ENTRY_SIZE) {
        let entry = line_map::entry_at(numbers, 0);
        if let Some(e) = remap_entry(entry, moves, last, end) {
            to = line_map::put_entry(out, to, e);
            last = Some(e.offset);
        }
    }
    store::set_from(out, to, 0);
    to / ENTRY_SIZE
}

// One pass, with the protected offsets and the map so far moved with the code. Marks and moves are lent without any, and left so.
fn run(
    sheet: &[u8],
    rules: Rules,
    pass: u8,
    code: &mut [u8],
    protected: &mut [u16],
    total: &mut [u16],
    marks: &mut [u8],
    moves: &mut [u16],
) -> usize
    requires runnable { Runnable sheet.now code.old protected.old }
    requires clear { Clear (length code.old) marks.old }
    requires clear_2 { Clear (length code.old) moves.old }
    ensures ran { Ran (run (sheet_in sheet.now) (rules_in rules.entry.table.now rules.entry.count) pass (pipeline code.old protected.old total.old)) code.old code.new protected.new total.new result }
    ensures clear_3 { Clear (length code.old) marks.new }
    ensures clear_4 { Clear (length code.old) moves.new }
{
    mark(protected, marks);
    let n = rewrite::apply_peephole(sheet, rules, pass, marks, code, moves);
    move_all(moves, protected);
    move_all(moves, total);
    store::set_from(marks, 0, 0);
    store::set_from(moves, 0, 0);
    n
}

// The three passes, each over what the one before left. Marks and moves are lent without any, an element for each offset: used, and cleared, as far as the code goes.
pub fn optimize(
    sheet: &[u8],
    rules: Rules,
    code: &mut [u8],
    protected: &mut [u16],
    total: &mut [u16],
    marks: &mut [u8],
    moves: &mut [u16],
) -> usize
    requires runnable { Runnable sheet.now code.old protected.old }
    requires clear { Clear (length code.old) marks.old }
    requires clear_2 { Clear (length code.old) moves.old }
    ensures { Ran (passes (sheet_in sheet.now) (rules_in rules.entry.table.now rules.entry.count) (pipeline code.old protected.old total.old)) code.old code.new protected.new total.new result }
{
    let mut n = code.len();
    for pass in 1..=PASSES {
        n = run(
            sheet,
            rules,
            pass,
            &mut code[..n],
            protected,
            total,
            marks,
            moves,
        );
    }
    n
}

// store's `fill_from` by a loop: a slice copied from one lent list to another is a call of memmove, which the library for C would need from outside.
fn fill_from<T: Copy>(from: &[T], out: &mut [T], blank: T)
    ensures { out.new ≡ fitted_with blank (length out.old) from.now }
{
    let n = out.len().min(from.len());
    for i in 0..n {
        out[i] = from[i];
    }
    store::set_from(out, n, blank);
}

// What code and protected offsets called alone come to, in lent outputs that have room for them. The code is copied once, here.
fn rewrite_into(
    sheet: &[u8],
    rules: Rules,
    code: &[u8],
    protected: &[u16],
    bytes: &mut [u8],
    offsets: &mut [u16],
    total: &mut [u16],
    marks: &mut [u8],
    moves: &mut [u16],
) -> usize
    requires runnable { Runnable sheet.now code.now protected.now }
    requires code_in_bounds { (length code.now ≤ length bytes.old) × (length protected.now ≤ length offsets.old) }
    requires clear { Clear (length code.now) marks.old }
    requires clear_2 { Clear (length code.now) moves.old }
    ensures { Rewrote (passes (sheet_in sheet.now) (rules_in rules.entry.table.now rules.entry.count) (pipeline code.now protected.now total.old)) bytes.old offsets.old bytes.new offsets.new total.new result }
{
    let n = code.len();
    let k = protected.len();
    fill_from(code, bytes, 0);
    fill_from(protected, offsets, 0);
    optimize(
        sheet,
        rules,
        &mut bytes[..n],
        &mut offsets[..k],
        total,
        marks,
        moves,
    )
}

// 8, in its order: code, then protected offsets, then line offsets. The table then lists the boundaries.
fn check(
    sheet: &[u8],
    code: &[u8],
    protected: &[u16],
    lines: &[u16],
    table: &mut [u16],
) -> Result<(), u16>
    requires table { IsTable sheet.now }
    requires code_len_bound { length code.now ≤ max_code }
    requires clear { Clear (length code.now) table.old }
    requires table_len { length table.old ≡ suc (length code.now) }
    ensures { Passed (sheet_in sheet.now) (given code.now protected.now lines.now) table.new result }
{
    let end = list_boundaries(sheet, code, table);
    if end != code.len() {
        return Err(end as u16);
    }
    check_protected(table, protected)?;
    check_lines(table, lines)
}
