// A lent buffer that is filled from its start, and how many of its elements are used.
#![tactic(auto, unfolding(crate::specs::Handed::handed, store::specs::Store::contents))]

ghost use Rattle.std.specs.Prelude.{◌≡◌};
ghost use Rattle.store.specs.Store.{push, at};
ghost use Rattle.input_reader.specs.Handed.{handed};

#[derive(Drop)]
pub struct Buffer<'a, T: Copy> {
    pub cells: &'a mut [T],
    pub used: usize,
}

// What such a buffer holds, shared.
#[derive(Clone, Copy)]
pub struct Kept<'a, T: Copy> {
    pub cells: &'a [T],
    pub used: usize,
}

impl<'a, T: Copy> Buffer<'a, T> {
    pub fn new(cells: &'a mut [T]) -> Self
        ensures same { result.cells.ghost_name ≡ cells.entry.ghost_name }
        ensures cells { result.cells.now ≡ cells.old }
        ensures used { result.used ≡ 0 }
    {
        Buffer { cells, used: 0 }
    }

    // One element more, where there is room.
    pub fn push(&mut self, x: T)
        ensures same { self.new.cells.ghost_name ≡ self.old.cells.ghost_name }
        ensures pushed { at self.new.cells.now self.new.used ≡ push (at self.old.cells.now self.old.used) x }
    {
        self.used = store::push(self.cells, self.used, x);
    }

    // What it holds.
    pub fn kept(&self) -> Kept<'_, T>
        ensures cells { result.cells.now ≡ self.now.cells.now }
        ensures used { result.used ≡ self.now.used }
    {
        Kept {
            cells: &*self.cells,
            used: self.used,
        }
    }

    // What is used of it, where that is to be read; else nothing.
    pub fn handed(&self, read: bool) -> &[T]
        ensures { result.now ≡ handed read (at self.now.cells.now self.now.used) }
    {
        self.kept().handed(read)
    }
}

impl<'a, T: Copy> Kept<'a, T> {
    // What is used of it, where that is to be read; else nothing.
    pub fn handed(self, read: bool) -> &'a [T]
        ensures { result.now ≡ handed read (at self.entry.cells.now self.entry.used) }
    {
        if read {
            &self.cells[..self.used.min(self.cells.len())]
        } else {
            &[]
        }
    }
}
