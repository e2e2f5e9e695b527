// A set of one bit a cell.
ghost use Rattle.std.specs.Prelude.{◌≡◌, ◌<◌, ◌≤◌, length, MatchOption};
ghost use Rattle.cell_sets.specs.Marks.{HasCell, HasNoneFrom};

use crate::cell_set::CellSet;
use crate::words::{next_mark, read_mark, write_mark};
use amdl_tree::NoMemory;
use std::alloc::Global;
use std::marker::Model;

/// A set of cells with one bit a cell, in words of 64 bits. Contracts see it as its marks.
///
/// `next_from` and `next_within` pass over a word without members in one step.
#[derive(Debug, Drop)]
pub struct BitSet {
    words: Vec<u64>,
    cells: u32,
    members: u32,
}

impl Model for BitSet {
    ghost use Rattle.std.specs.Prelude.{◌≡◌, ◌+◌, ◌/◌, Bool, List, length};
    ghost use Rattle.cell_sets.specs.Marks.{members_in};
    ghost use Rattle.cell_sets.specs.Words.{marks_of};

    ghost Value = { List Bool };

    ghost view = { λ set. marks_of set.words.items set.cells };

    ghost invariant = { λ set. (length set.words.items ≡ (set.cells + 63) / 64)
        × (set.members ≡ members_in (marks_of set.words.items set.cells)) };
}

impl BitSet {
    /// The least member that is `from` or more and below `to`, where there is one.
    ///
    /// It passes over a word without members in one step: linear in the words from the one to the other.
    pub fn next_within(&self, from: u32, to: u32) -> Option<u32>
        requires { to ≤ length self.now }
        ensures { MatchOption result
            (HasNoneFrom self.now from to)
            (λ cell. (from ≤ cell) × (cell < to) × HasCell self.now cell × HasNoneFrom self.now from cell) }
    {
        next_mark(&self.words, from, to)
    }
}

impl CellSet for BitSet {
    ghost marks = { λ set. set };

    fn make(alloc: Global, cells: u32) -> Result<BitSet, NoMemory> {
        let length = (cells as usize + 63) / 64;
        match Vec::from_elem(alloc, 0, length) {
            Ok(words) => Ok(BitSet {
                words,
                cells,
                members: 0,
            }),
            Err(_) => Err(NoMemory),
        }
    }

    fn cells(&self) -> u32 {
        self.cells
    }

    fn has(&self, cell: u32) -> bool {
        read_mark(&self.words, cell)
    }

    fn add(&mut self, cell: u32) -> bool {
        if read_mark(&self.words, cell) {
            return false;
        }
        write_mark(&mut self.words, cell, true);
        self.members += 1;
        true
    }

    fn take_out(&mut self, cell: u32) -> bool {
        if !read_mark(&self.words, cell) {
            return false;
        }
        write_mark(&mut self.words, cell, false);
        self.members -= 1;
        true
    }

    fn count(&self) -> u32 {
        self.members
    }

    fn next_from(&self, from: u32) -> Option<u32> {
        self.next_within(from, self.cells)
    }
}
