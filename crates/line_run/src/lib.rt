// The line list handed over as a run of entries: `remap_line_map` (optimize/mod.rs) over a lent slice of structs, in place, thin over the covered function for
// one entry.
#![tactic(auto)]

ghost use Rattle.std.specs.Prelude.{◌≤◌, length};
ghost use Rattle.line_run.specs.Run.{RemapsRun};

use line_map::LineEntry;

// The first `count` entries of the run are remapped in place: those kept stand at its front, and what stands behind them is as it was. How many are kept is
// answered.
pub fn remap_line_map(entries: &mut [LineEntry], count: usize, moves: &[u16], end: usize) -> usize
    requires { count ≤ length entries.old }
    ensures { RemapsRun moves.now end count entries.old entries.new result }
{
    let mut kept = 0;
    let mut last = None;
    for i in 0..count {
        if let Some(entry) = optimize::remap_entry(entries[i], moves, last, end) {
            entries[kept] = entry;
            kept += 1;
            last = Some(entry.offset);
        }
    }
    kept
}
