// The book's three tables, a row at a time. Nothing else knows where they lie. They stay one list: the theorems speak of `labels_in`, `patches_in` and
// `lines_in` of a book, and a part of it is lent as line entries (`emitted_lines`).
ghost use Rattle.std.specs.Prelude.{◌≡◌, ◌<◌, ◌≤◌, ◌+◌, ◌*◌, ◌∷◌, [], length};
ghost use Rattle.std.proofs.lemmas.List.Edits.{sets};
ghost use Rattle.definition.specs.Limits.{max_labels, max_branches, max_lines, entry_size};
ghost use Rattle.definition.specs.Compile.{bound_or0};
ghost use Rattle.definition.specs.Lent.{one_entry, entry_in, entries_of};
ghost use Rattle.line_map.specs.View.{entry_view};
ghost use Rattle.emit.specs.Book.{label_size, patch_size, label_base, patch_base, line_base, label_numbers, label_in, patch_numbers, patch_in, row, lines_in};
ghost use Rattle.emit.specs.View.{patch_view};

use crate::patch::PendingPatch;
use crate::{Book, Label};
use definition::{ENTRY_SIZE, MAX_BRANCHES, MAX_LABELS, MAX_LINES};
use line_map::LineEntry;

// Numbers of a label (whether it is bound, and its place), and of a patch (instruction offset, operand delta, label).
const LABEL_SIZE: usize = 2;

const PATCH_SIZE: usize = 3;

const LABEL_BASE: usize = 0;

const PATCH_BASE: usize = LABEL_BASE + LABEL_SIZE * MAX_LABELS;

const LINE_BASE: usize = PATCH_BASE + PATCH_SIZE * MAX_BRANCHES;

// Numbers of a book.
pub const BOOK_SIZE: usize = LINE_BASE + ENTRY_SIZE * MAX_LINES;

// Label n: bound (1) or not (0), and its place.
pub fn put_label(book: &mut Book, n: usize, bound: u16, place: u16)
    requires n_lt_max_labels { n < max_labels }
    ensures { book.new ≡ sets book.old (label_base + label_size * n) (bound ∷ place ∷ []) }
{
    let at = LABEL_BASE + LABEL_SIZE * n;
    book[at] = bound;
    book[at + 1] = place;
}

// The same by where it is bound, if it is.
pub fn put_bound(book: &mut Book, n: usize, place: Option<u16>)
    requires n_lt_max_labels { n < max_labels }
    ensures { book.new ≡ sets book.old (label_base + label_size * n) (label_numbers place) }
{
    put_label(book, n, u16::from(place.is_some()), place.unwrap_or(0));
}

// Where label n is bound; 0 where it is not, as the definition has it (`bound_or0`).
pub fn label_place(book: &Book, n: usize) -> usize
    requires n_lt_max_labels { n < max_labels }
    ensures { result ≡ bound_or0 (label_in (row label_base label_size book.now n)) }
{
    let at = LABEL_BASE + LABEL_SIZE * n;
    if book[at] == 0 {
        return 0;
    }
    usize::from(book[at + 1])
}

pub fn put_patch(book: &mut Book, n: usize, patch: PendingPatch)
    requires n_lt_max_branches { n < max_branches }
    ensures { book.new ≡ sets book.old (patch_base + patch_size * n) (patch_numbers (patch_view patch)) }
{
    let at = PATCH_BASE + PATCH_SIZE * n;
    book[at] = patch.instruction_offset;
    book[at + 1] = patch.operand_delta;
    book[at + 2] = patch.label.0;
}

// The n-th patch, in the order of emission.
pub fn patch_at(book: &Book, n: usize) -> PendingPatch
    requires n_lt_max_branches { n < max_branches }
    ensures { patch_view result ≡ patch_in (row patch_base patch_size book.now n) }
{
    let at = PATCH_BASE + PATCH_SIZE * n;
    PendingPatch {
        instruction_offset: book[at],
        operand_delta: book[at + 1],
        label: Label(book[at + 2]),
    }
}

pub fn put_line(book: &mut Book, n: usize, entry: LineEntry)
    requires n_lt_max_lines { n < max_lines }
    ensures { book.new ≡ sets book.old (line_base + entry_size * n) (one_entry (entry_view entry)) }
{
    line_map::put_entry(book, LINE_BASE + ENTRY_SIZE * n, entry);
}

// The n-th line entry, in the order of emission.
#[tactic(auto, using(crate::proofs::Tables::line_read))]
pub fn line_at(book: &Book, n: usize) -> LineEntry
    requires n_lt_max_lines { n < max_lines }
    ensures { entry_view result ≡ entry_in (row line_base entry_size book.now n) }
{
    line_map::entry_at(book, LINE_BASE + ENTRY_SIZE * n)
}

// The numbers of the first n line entries, where they lie.
pub fn emitted_lines<'a>(book: &'a Book, n: usize) -> &'a [u16]
    requires n_le_max_lines { n ≤ max_lines }
    ensures result_value { entries_of result.now ≡ lines_in book.now n }
    ensures result_len { length result.now ≡ entry_size * n }
{
    let end = LINE_BASE + ENTRY_SIZE * n;
    &book[LINE_BASE..end]
}
