// A source position and a line entry: the types that reading, the emitter and line mapping share (emit.rs `EmittedLineMapEntry`), and how an entry
// lies in a list of numbers: nothing else in code knows it. C lends line lists as numbers, so they are not arrays of entries.
#![tactic(auto)]

ghost use Rattle.std.specs.Prelude.{◌≡◌, get_or, drop};
ghost use Rattle.definition.specs.Emit.{same_pos};
ghost use Rattle.definition.specs.Lent.{one_entry, entry_in};
ghost use Rattle.store.specs.Store.{at, push_all};
ghost use Rattle.line_map.specs.View.{pos_view, entry_view};

// A source position.
#[derive(Clone, Copy, PartialEq, Eq)]
pub struct Pos {
    pub line: u16,
    pub column: u16,
}

impl Pos {
    // `==`, named for what it decides in the definition.
    #[tactic(auto, unfolding(definition::specs::Emit::same_pos))]
    pub fn same(self, other: Pos) -> bool
        ensures { result ≡ same_pos (pos_view self) (pos_view other) }
    {
        self == other
    }
}

// A line entry: the instructions from this offset on stand at this position.
#[derive(Clone, Copy)]
pub struct LineEntry {
    pub offset: u16,
    pub pos: Pos,
}

// The k-th number from a place on; 0 past the end.
fn number_at(list: &[u16], at: usize, k: usize) -> u16
    ensures { result ≡ get_or (drop at list.now) k 0 }
{
    list.get(at..)
        .and_then(|rest| rest.get(k))
        .copied()
        .unwrap_or(0)
}

// The entry whose numbers start at a place.
#[tactic(auto, unfolding(definition::specs::Lent::entry_in, definition::specs::Tree::pos_of))]
pub fn entry_at(list: &[u16], at: usize) -> LineEntry
    ensures { entry_view result ≡ entry_in (drop at list.now) }
{
    let offset = number_at(list, at, 0);
    let line = number_at(list, at, 1);
    let column = number_at(list, at, 2);
    LineEntry {
        offset,
        pos: Pos { line, column },
    }
}

// An entry's numbers put from a place on, as far as there is room; the place behind them is answered.
#[tactic(auto, unfolding(store::specs::Store::push_all, definition::specs::Lent::one_entry, definition::specs::Tree::pos_numbers))]
pub fn put_entry(list: &mut [u16], used: usize, entry: LineEntry) -> usize
    ensures { at list.new result ≡ push_all (at list.old used) (one_entry (entry_view entry)) }
{
    let one = store::push(list, used, entry.offset);
    let two = store::push(list, one, entry.pos.line);
    store::push(list, two, entry.pos.column)
}
