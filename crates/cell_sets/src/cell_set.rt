// What a set of cells does.
ghost use Rattle.std.specs.Prelude.{◌≡◌, ℕ, ◌<◌, ◌≤◌, Bool, true, false, not, List, length, replicate, slice_index_or};
ghost use Rattle.std.specs.Prelude.{slice_set, IfOk, MatchOption};
ghost use Rattle.cell_sets.specs.Marks.{HasCell, HasNoneFrom, members_in};

use amdl_tree::NoMemory;
use std::alloc::Global;

/// A number of cells, and a set of numbers below it.
///
/// Contracts see its `marks`, one a cell in rising order: a cell is in the set where its mark is true. Only `make`
/// takes memory. `cells`, `has`, `add`, `take_out` and `count` take constant time.
pub trait CellSet: Drop {
    ghost marks: { Self → List Bool };

    /// The empty set of so many cells. Linear in the cells.
    fn make(alloc: Global, cells: u32) -> Result<Self, NoMemory>
    where
        Self: Sized,
        ensures { IfOk result (λ set. marks set ≡ replicate cells false) };

    /// The number of cells.
    fn cells(&self) -> u32
        ensures { result ≡ length (marks self.now) };

    /// Whether the cell is in the set.
    fn has(&self, cell: u32) -> bool
        requires { cell < length (marks self.now) }
        ensures { result ≡ slice_index_or (marks self.now) cell false };

    /// Puts the cell in, and answers whether it was absent.
    fn add(&mut self, cell: u32) -> bool
        requires { cell < length (marks self.old) }
        ensures added { marks self.new ≡ slice_set (marks self.old) cell true }
        ensures fresh { result ≡ not (slice_index_or (marks self.old) cell false) };

    /// Takes the cell out, and answers whether it was present.
    fn take_out(&mut self, cell: u32) -> bool
        requires { cell < length (marks self.old) }
        ensures taken { marks self.new ≡ slice_set (marks self.old) cell false }
        ensures present { result ≡ slice_index_or (marks self.old) cell false };

    /// The number of members.
    fn count(&self) -> u32
        ensures { result ≡ members_in (marks self.now) };

    /// The least member that is `from` or more, where there is one.
    ///
    /// Linear in the distance to it, or to the end.
    fn next_from(&self, from: u32) -> Option<u32>
        requires { from ≤ length (marks self.now) }
        ensures { MatchOption result
            (HasNoneFrom (marks self.now) from (length (marks self.now)))
            (λ cell. (from ≤ cell) × HasCell (marks self.now) cell × HasNoneFrom (marks self.now) from cell) };
}
