// Lent lists: their room tested, set from a place on, filled from another list; and a buffer that is filled from its start, where each push answers how many elements
// are used then, and changes nothing where there is no room.
#![tactic(auto)]

ghost use Rattle.std.specs.Prelude.{◌≡◌, length};
ghost use Rattle.store.specs.Store.{push, at};
ghost use Rattle.store.specs.Room.{have_room};
ghost use Rattle.store.specs.Fill.{set_from, fitted_with};

// Have three lent lists of these lengths the room that each must have?
pub fn have_room(first: usize, second: usize, third: usize, a: usize, b: usize, c: usize) -> bool
    ensures { result ≡ have_room first second third a b c }
{
    first >= a && second >= b && third >= c
}

// One element more.
#[tactic(auto, using(std::proofs::lemmas::Bool::Decides::nat_tests), unfolding(crate::specs::Store::push))]
pub fn push<T: Copy>(cells: &mut [T], used: usize, x: T) -> usize
    ensures { at cells.new result ≡ push (at cells.old used) x }
{
    if used < cells.len() {
        cells[used] = x;
        used + 1
    } else {
        used
    }
}

// The same element from a place up to the end.
pub fn set_from<T: Copy>(list: &mut [T], from: usize, x: T)
    ensures { list.new ≡ set_from from x list.old }
{
    // No `fill`: a place past the end is none, and a slice from there would have to be asked for.
    for i in from..list.len() {
        list[i] = x;
    }
}

// A list from the start of another, and `blank` behind it.
pub fn fill_from<T: Copy>(from: &[T], out: &mut [T], blank: T)
    ensures { out.new ≡ fitted_with blank (length out.old) from.now }
{
    let n = out.len().min(from.len());
    out[..n].copy_from_slice(&from[..n]);
    set_from(out, n, blank);
}
