// A set of one byte a cell.
ghost use Rattle.std.specs.Prelude.{◌≡◌, ◌≤◌, length, MatchOption};
ghost use Rattle.cell_sets.specs.Marks.{HasCell, HasNoneFrom};

use crate::cell_set::CellSet;
use amdl_tree::NoMemory;
use std::alloc::Global;
use std::marker::Model;

/// A set of cells with one byte a cell. Contracts see it as its marks.
#[derive(Debug, Drop)]
pub struct ByteSet {
    bytes: Vec<bool>,
    cells: u32,
    members: u32,
}

impl Model for ByteSet {
    ghost use Rattle.std.specs.Prelude.{◌≡◌, Bool, List, length};
    ghost use Rattle.cell_sets.specs.Marks.{members_in};

    ghost Value = { List Bool };

    ghost view = { λ set. set.bytes.items };

    ghost invariant = { λ set. (set.cells ≡ length set.bytes.items) × (set.members ≡ members_in set.bytes.items) };
}

impl CellSet for ByteSet {
    ghost marks = { λ set. set };

    fn make(alloc: Global, cells: u32) -> Result<ByteSet, NoMemory> {
        match Vec::from_elem(alloc, false, cells as usize) {
            Ok(bytes) => Ok(ByteSet {
                bytes,
                cells,
                members: 0,
            }),
            Err(_) => Err(NoMemory),
        }
    }

    fn cells(&self) -> u32 {
        self.cells
    }

    fn has(&self, cell: u32) -> bool {
        self.bytes[cell as usize]
    }

    fn add(&mut self, cell: u32) -> bool {
        if self.bytes[cell as usize] {
            return false;
        }
        self.bytes[cell as usize] = true;
        self.members += 1;
        true
    }

    fn take_out(&mut self, cell: u32) -> bool {
        if !self.bytes[cell as usize] {
            return false;
        }
        self.bytes[cell as usize] = false;
        self.members -= 1;
        true
    }

    fn count(&self) -> u32 {
        self.members
    }

    fn next_from(&self, from: u32) -> Option<u32> {
        next_true(&self.bytes, from, self.cells)
    }
}

// The least place from `from` on, below the length, at which the byte is true.
fn next_true(bytes: &[bool], from: u32, cells: u32) -> Option<u32>
    requires { cells ≡ length bytes.now }
    ensures { MatchOption result
        (HasNoneFrom bytes.now from cells)
        (λ cell. (from ≤ cell) × HasCell bytes.now cell × HasNoneFrom bytes.now from cell) }
{
    for cell in from..cells {
        if bytes[cell as usize] {
            return Some(cell);
        }
    }
    None
}
