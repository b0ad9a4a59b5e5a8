// From the emitter to finished code (compile.rs `finalize_function`, emit.rs `patch_jumps`), and 15 between its passes and patching.
#![tactic(auto)]

ghost use Rattle.std.specs.Prelude.{◌≡◌, ◌+◌, ◌*◌, ◌<◌, ◌≤◌, [], length};
ghost use Rattle.definition.specs.Limits.{max_code, max_branches, max_lines, entry_size};
ghost use Rattle.definition.specs.Optimize.{optimize};
ghost use Rattle.definition.specs.Compile.{patch_jump, patch_jumps, near, in_reach};
ghost use Rattle.definition.specs.Claims.{Each};
ghost use Rattle.opcode.specs.Table.{IsTable, sheet_in};
ghost use Rattle.rules.specs.View.{rules_in};
ghost use Rattle.rewrite.specs.View.{Clear};
ghost use Rattle.optimize.specs.View.{map_in};
ghost use Rattle.emit.specs.Book.{labels_in, patches_in};
ghost use Rattle.emit.specs.View.{world, state, patch_view};
ghost use Rattle.emit.specs.Steps.{Fine};
ghost use Rattle.compile.specs.Props.{fine-prop, bound-prop};
ghost use Rattle.compile.specs.View.{targets_in, BoundIn, Inside, Patchable, IsBranch, reach_view, Moved, Finalizes};

use definition::{MAX_BACK, MAX_BRANCHES, MAX_FORWARD};
use emit::patch::PendingPatch;
use emit::{Book, Emitter, book, bytes};
use rules::Rules;

pub mod call; // call.rt: what the call answers
pub mod entry; // entry.rt: the call

// Targets of small and of middle code: a branch has three bytes or more.
const SMALL_BRANCHES: usize = rewrite::SMALL_CODE / 3;

const MIDDLE_BRANCHES: usize = rewrite::MIDDLE_CODE / 3;

// What was emitted: the emitter's counts and its book, in which the label of each pending patch is bound within the code.
#[derive(Clone, Copy)]
pub struct Emitted<'a> {
    pub emitter: Emitter,
    pub book: &'a Book,
    pub ghost fine: { Fine emitter } by { fine-prop emitter },
    pub ghost bound: { Each (BoundIn emitter.size (labels_in book.now emitter.labels)) (patches_in book.now emitter.patches) } by { bound-prop emitter.size (labels_in book.now emitter.labels) (patches_in book.now emitter.patches) },
}

// Finished code: its bytes and depth, and how many line entries it has.
#[derive(Clone, Copy)]
pub struct FinalizedFunction {
    pub size: usize,
    pub max_stack_depth: usize,
    pub entries: usize,
}

// A branch where the passes moved it: its own place, the place behind it, and its target's.
#[derive(Clone, Copy)]
struct Branch {
    from: u16,
    next: usize,
    target: u16,
}

// Where the labels of pending patches are bound, in the order of emission: each is protected.
fn jump_targets(emitted: Emitted, targets: &mut [u16])
    requires { length targets.old ≡ emitted.emitter.patches }
    ensures { targets.new ≡ targets_in emitted.entry.emitter emitted.entry.book.now }
{
    for (i, target) in targets.iter_mut().enumerate() {
        let patch = book::patch_at(emitted.book, i);
        let place = emitted.emitter.bound_label(emitted.book, patch.label);
        *target = place as u16;
    }
}

// The three passes over emitted code, with the map from its places to where they moved. The tables are lent: an element for each branch, and for each offset.
fn optimize_emitted(
    sheet: &[u8],
    rules: Rules,
    emitted: Emitted,
    code: &mut [u8],
    targets: &mut [u16],
    total: &mut [u16],
    marks: &mut [u8],
    moves: &mut [u16],
) -> usize
    requires table { IsTable sheet.now }
    requires code_len { length code.old ≡ emitted.emitter.size }
    requires targets_len { length targets.old ≡ emitted.emitter.patches }
    requires clear { Clear emitted.emitter.size total.old }
    requires clear_2 { Clear emitted.emitter.size marks.old }
    requires clear_3 { Clear emitted.emitter.size moves.old }
    ensures { Moved (optimize (sheet_in sheet.now) (rules_in rules.entry.table.now rules.entry.count) code.old (targets_in emitted.entry.emitter emitted.entry.book.now)) code.old code.new total.new result }
{
    jump_targets(emitted, targets);
    optimize::list_boundaries(sheet, code, total);
    optimize::optimize(sheet, rules, code, targets, total, marks, moves)
}

fn branch_of(emitted: Emitted, moves: &[u16], patch: PendingPatch) -> Branch
    requires { BoundIn emitted.emitter.size (labels_in emitted.book.now emitted.emitter.labels) (patch_view patch) }
    ensures { IsBranch (labels_in emitted.entry.book.now emitted.entry.emitter.labels) (map_in moves.now) (patch_view patch) result }
{
    let from = optimize::moved_to(moves, patch.instruction_offset);
    let next = usize::from(from) + usize::from(patch.operand_delta) + 2;
    let place = emitted.emitter.bound_label(emitted.book, patch.label);
    let target = optimize::moved_to(moves, place as u16);
    Branch { from, next, target }
}

// Does a signed number of sixteen bits lead from the next place to the target?
#[tactic(auto, using(std::proofs::lemmas::Bool::Decides::nat_tests), unfolding(definition::specs::Compile::near))]
fn is_near(target: u16, next: usize) -> bool
    ensures { result ≡ near target next }
{
    let to = usize::from(target);
    next.saturating_sub(to) <= MAX_BACK && to.saturating_sub(next) <= MAX_FORWARD
}

// 15: the place of the first branch, in the order of emission, that is too far from its target.
fn first_far(emitted: Emitted, moves: &[u16]) -> Option<u16>
    ensures { reach_view result ≡ in_reach (labels_in emitted.entry.book.now emitted.entry.emitter.labels) (map_in moves.now) (patches_in emitted.entry.book.now emitted.entry.emitter.patches) }
{
    for i in 0..emitted.emitter.patches {
        let patch = book::patch_at(emitted.book, i);
        let branch = branch_of(emitted, moves, patch);
        if !is_near(branch.target, branch.next) {
            return Some(branch.from);
        }
    }
    None
}

// One branch: the low sixteen bits of its target's place less the next, low byte first, over its two offset bytes.
fn patch_jump(emitted: Emitted, moves: &[u16], patch: PendingPatch, code: &mut [u8])
    requires code_len_bound { length code.old ≤ max_code }
    requires bound_in { BoundIn emitted.emitter.size (labels_in emitted.book.now emitted.emitter.labels) (patch_view patch) }
    requires inside { Inside (map_in moves.now) (length code.old) (patch_view patch) }
    ensures code_after { code.new ≡ patch_jump (labels_in emitted.entry.book.now emitted.entry.emitter.labels) (map_in moves.now) (patch_view patch) code.old }
    ensures code_len_unchanged { length code.new ≡ length code.old }
{
    let branch = branch_of(emitted, moves, patch);
    let next = branch.next as u16;
    let displacement = branch.target.wrapping_sub(next);
    bytes::push_u16(code, branch.next - 2, displacement);
}

// Every pending patch, in the order of emission.
fn patch_jumps(emitted: Emitted, moves: &[u16], code: &mut [u8])
    requires code_len_bound { length code.old ≤ max_code }
    requires inside { Each (Inside (map_in moves.now) (length code.old)) (patches_in emitted.book.now emitted.emitter.patches) }
    ensures code_after { code.new ≡ patch_jumps (labels_in emitted.entry.book.now emitted.entry.emitter.labels) (map_in moves.now) (patches_in emitted.entry.book.now emitted.entry.emitter.patches) code.old }
    ensures code_len_unchanged { length code.new ≡ length code.old }
{
    for i in 0..emitted.emitter.patches {
        let patch = book::patch_at(emitted.book, i);
        patch_jump(emitted, moves, patch, code);
    }
}

// Three passes, then 15, patching and line mapping, over lent tables: an element for each branch, and for each offset of the code.
fn finalize_in(
    sheet: &[u8],
    rules: Rules,
    emitted: Emitted,
    code: &mut [u8],
    lines: &mut [u16],
    targets: &mut [u16],
    total: &mut [u16],
    marks: &mut [u8],
    moves: &mut [u16],
) -> Result<FinalizedFunction, u16>
    requires table { IsTable sheet.now }
    requires max_code_in_bounds { max_code ≤ length code.old }
    requires entry_size_in_bounds { max_lines * entry_size ≤ length lines.old }
    requires patchable { Patchable (sheet_in sheet.now) (rules_in rules.table.now rules.count) (state (world emitted.emitter code.old emitted.book.now [])) }
    requires targets_len { length targets.old ≡ emitted.emitter.patches }
    requires clear { Clear emitted.emitter.size total.old }
    requires clear_2 { Clear emitted.emitter.size marks.old }
    requires clear_3 { Clear emitted.emitter.size moves.old }
    ensures { Finalizes (sheet_in sheet.now) (rules_in rules.entry.table.now rules.entry.count) emitted.entry.emitter code.old emitted.entry.book.now lines.old code.new lines.new result }
{
    let e = emitted.emitter;
    let part = &mut code[..e.size];
    let n = optimize_emitted(sheet, rules, emitted, part, targets, total, marks, moves);
    if let Some(from) = first_far(emitted, total) {
        store::set_from(code, 0, 0);
        store::set_from(lines, 0, 0);
        return Err(from);
    }
    patch_jumps(emitted, total, &mut code[..n]);
    store::set_from(code, n, 0);
    let entries = book::emitted_lines(emitted.book, e.lines);
    let kept = optimize::remap_line_map(total, n, entries, lines);
    Ok(FinalizedFunction {
        size: n,
        max_stack_depth: e.deepest,
        entries: kept,
    })
}

// The same over tables for `N` offsets and `B` branches, which are cleared once, and used as far as the code goes. Never inlined, so that each size has a frame of its
// own, and short code never touches the longest tables' pages.
#[inline(never)]
fn finalize_over<const N: usize, const B: usize>(
    sheet: &[u8],
    rules: Rules,
    emitted: Emitted,
    code: &mut [u8],
    lines: &mut [u16],
) -> Result<FinalizedFunction, u16>
    requires table { IsTable sheet.now }
    requires max_code_in_bounds { max_code ≤ length code.old }
    requires entry_size_in_bounds { max_lines * entry_size ≤ length lines.old }
    requires patchable { Patchable (sheet_in sheet.now) (rules_in rules.table.now rules.count) (state (world emitted.emitter code.old emitted.book.now [])) }
    requires branches { emitted.emitter.patches ≤ B }
    requires most_branches { B ≤ max_branches }
    requires slots { emitted.emitter.size < N }
    requires most_slots { N ≤ max_code + 1 }
    ensures { Finalizes (sheet_in sheet.now) (rules_in rules.entry.table.now rules.entry.count) emitted.entry.emitter code.old emitted.entry.book.now lines.old code.new lines.new result }
{
    let branches = emitted.emitter.patches;
    let end = emitted.emitter.size + 1;
    let mut targets = [0u16; B];
    let mut total = [0u16; N];
    let mut marks = [0u8; N];
    let mut moves = [0u16; N];
    finalize_in(
        sheet,
        rules,
        emitted,
        code,
        lines,
        &mut targets[..branches],
        &mut total[..end],
        &mut marks[..end],
        &mut moves[..end],
    )
}

// `finalize_function`, with 15, whose place is that of the far branch. Both outputs are 0 behind what they hold, and behind 15 whole.
pub fn finalize_function(
    sheet: &[u8],
    rules: Rules,
    emitted: Emitted,
    code: &mut [u8],
    lines: &mut [u16],
) -> Result<FinalizedFunction, u16>
    requires table { IsTable sheet.now }
    requires max_code_in_bounds { max_code ≤ length code.old }
    requires entry_size_in_bounds { max_lines * entry_size ≤ length lines.old }
    requires patchable { Patchable (sheet_in sheet.now) (rules_in rules.table.now rules.count) (state (world emitted.emitter code.old emitted.book.now [])) }
    ensures { Finalizes (sheet_in sheet.now) (rules_in rules.entry.table.now rules.entry.count) emitted.entry.emitter code.old emitted.entry.book.now lines.old code.new lines.new result }
{
    if emitted.emitter.patches <= SMALL_BRANCHES && emitted.emitter.size <= rewrite::SMALL_CODE {
        finalize_over::<{ rewrite::SMALL_SLOTS }, SMALL_BRANCHES>(
            sheet, rules, emitted, code, lines,
        )
    } else if emitted.emitter.size <= rewrite::MIDDLE_CODE {
        finalize_over::<{ rewrite::MIDDLE_SLOTS }, MIDDLE_BRANCHES>(
            sheet, rules, emitted, code, lines,
        )
    } else {
        finalize_over::<{ rewrite::SLOTS }, MAX_BRANCHES>(sheet, rules, emitted, code, lines)
    }
}
