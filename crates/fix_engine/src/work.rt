// The work space of a fixpoint.
ghost use Rattle.std.specs.Prelude.{◌≡◌, ◌≢◌, ℕ, ◌<◌, ◌≤◌, ◌↔◌, ◌⊎◌, List, [], ◌++◌, length, IfOk, IsTrue, MatchOption};
ghost use Rattle.std.specs.List.{All, AllPairs, Contains};
ghost use Rattle.cell_sets.specs.Marks.{HasCell};
ghost use Rattle.fix_engine.specs.Closed.{AreBelow};
ghost use Rattle.fix_engine.specs.Progress.{Progress, found_in, nothing_found, Offers, Takes, HasNoneOf};

use amdl_tree::NoMemory;
use cell_sets::CellSet;
use std::alloc::Global;
use std::marker::Model;

/// The found cells of a fixpoint: those that are done, and those that still wait, in the order in which they were
/// found.
///
/// Contracts see it as its progress. `new` takes all its room, four bytes a cell and two sets of cells, and no other
/// call takes memory. `offer`, `take`, `found`, `waits`, `is_done` and `cells` take constant time.
#[derive(Drop)]
pub struct Work<S: CellSet> {
    found: S,
    taken: S,
    order: Vec<u32>,
    next: usize,
}

impl<S: CellSet> Model for Work<S> {
    ghost use Rattle.std.specs.Vec.{vec_capacity};
    ghost use Rattle.fix_engine.specs.Progress.{Progress};
    ghost use Rattle.fix_engine.specs.Space.{progress_of, IsSpace};

    ghost Value = { Progress };

    ghost view = { λ work. progress_of (S.marks work.found) work.order.items work.next };

    ghost invariant = { λ work. IsSpace (S.marks work.found) (S.marks work.taken) work.order.items work.next
        (vec_capacity work.order) };
}

impl<S: CellSet> Work<S> {
    /// The work space of so many cells, of which none is found. Linear in the cells.
    pub fn new(alloc: Global, cells: u32) -> Result<Work<S>, NoMemory>
        ensures { IfOk result (λ work. work ≡ nothing_found cells) }
    {
        let found = S::make(alloc, cells)?;
        let taken = S::make(alloc, cells)?;
        match Vec::with_capacity(alloc, cells as usize) {
            Ok(order) => Ok(Work {
                found,
                taken,
                order,
                next: 0,
            }),
            Err(_) => Err(NoMemory),
        }
    }

    /// The number of cells.
    pub fn cells(&self) -> u32
        ensures { result ≡ self.now.cells }
    {
        self.found.cells()
    }

    /// Lets a cell wait behind all others, where it isn't found yet.
    pub fn offer(&mut self, cell: u32)
        requires { cell < self.old.cells }
        ensures { Offers self.old cell self.new }
    {
        if self.found.add(cell) {
            self.order.push_reserved(cell);
        }
    }

    /// Takes the first cell that waits, which is done from then on.
    pub fn take(&mut self) -> Option<u32>
        ensures taken { MatchOption result
            ((self.old.todo ≡ []) × (self.new ≡ self.old))
            (λ cell. Takes self.old cell self.new) }
        ensures few { length self.new.done ≤ self.new.cells }
    {
        if self.next < self.order.len() {
            let cell = self.order[self.next];
            self.taken.add(cell);
            self.next += 1;
            Some(cell)
        } else {
            None
        }
    }

    /// Whether the cell is found.
    pub fn found(&self, cell: u32) -> bool
        requires { cell < self.now.cells }
        ensures { IsTrue result ↔ Contains (found_in self.now) cell }
    {
        self.found.has(cell)
    }

    /// Whether the cell is found and still waits.
    pub fn waits(&self, cell: u32) -> bool
        requires { cell < self.now.cells }
        ensures { IsTrue result ↔ Contains self.now.todo cell }
    {
        self.found.has(cell) && !self.taken.has(cell)
    }

    /// Whether the cell is found and doesn't wait.
    pub fn is_done(&self, cell: u32) -> bool
        requires { cell < self.now.cells }
        ensures { IsTrue result ↔ Contains self.now.done cell }
    {
        self.taken.has(cell)
    }

    /// The least found cell that is `from` or more, where there is one. As fast as `next_from` of the set.
    pub fn next_found(&self, from: u32) -> Option<u32>
        requires { from ≤ self.now.cells }
        ensures { MatchOption result
            (HasNoneOf (found_in self.now) from self.now.cells)
            (λ cell. (from ≤ cell) × Contains (found_in self.now) cell × HasNoneOf (found_in self.now) from cell) }
    {
        self.found.next_from(from)
    }

    /// The least cell that is done and `from` or more, where there is one. As fast as `next_from` of the set.
    pub fn next_done(&self, from: u32) -> Option<u32>
        requires { from ≤ self.now.cells }
        ensures { MatchOption result
            (HasNoneOf self.now.done from self.now.cells)
            (λ cell. (from ≤ cell) × Contains self.now.done cell × HasNoneOf self.now.done from cell) }
    {
        self.taken.next_from(from)
    }

    /// What holds of every work space, for a caller that needs it: no cell is found twice, and each is in range.
    pub fn sound(&self)
        ensures once { AllPairs (λ one other. one ≢ other) (found_in self.now) }
        ensures below { AreBelow self.now.cells (found_in self.now) }
    {
        let _next = self.next;
    }

    /// The set of the found cells.
    pub fn into_set(self) -> S
        ensures cells { length (S.marks result) ≡ self.cells }
        ensures found { (cell : ℕ) → HasCell (S.marks result) cell ↔ Contains (found_in self) cell }
    {
        self.found
    }
}
