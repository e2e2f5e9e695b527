//! Found facts, with one mark a cell.
ghost use Rattle.std.specs.Prelude.{◌≡◌, ◌<◌, IsTrue};
ghost use Rattle.net_plan.specs.Plan.{boxes_of, box_at, masks_of};
ghost use Rattle.net_plan.specs.Cells.{IsInRange};

use amdl_tree::NoMemory;
use net_plan::{Fact, Network};
use std::alloc::Global;

/// A set of cells.
#[derive(Drop)]
pub(crate) struct Found {
    marks: Vec<bool>,
    /// Whether a cell was put in since this was last taken back.
    pub(crate) grew: bool,
    /// Whether a fact was put in that has no cell.
    pub(crate) strays: bool,
}

impl Found {
    /// No cells.
    pub(crate) fn new(alloc: Global, net: &Network) -> Result<Found, NoMemory> {
        match Vec::from_elem(alloc, false, net.cells() as usize) {
            Ok(marks) => Ok(Found {
                marks,
                grew: false,
                strays: false,
            }),
            Err(_) => Err(NoMemory),
        }
    }

    /// Whether a cell is in the set.
    pub(crate) fn has(&self, cell: u32) -> bool {
        match self.marks.get(cell as usize) {
            Some(mark) => *mark,
            None => false,
        }
    }

    /// Whether the cell of a fact is in the set.
    pub(crate) fn has_fact(&self, net: &Network, fact: Fact) -> bool
        requires { IsInRange net.now fact }
    {
        self.has(net.cell_of(fact))
    }

    /// Puts the cell of a fact in.
    pub(crate) fn put(&mut self, net: &Network, fact: Fact) {
        if is_in_range(net, fact) {
            self.put_cell(net.cell_of(fact));
        } else {
            self.strays = true;
        }
    }

    fn put_cell(&mut self, cell: u32) {
        let place = cell as usize;
        if place >= self.marks.len() {
            self.strays = true;
        } else if !self.marks[place] {
            self.marks[place] = true;
            self.grew = true;
        }
    }
}

// Whether a fact is one of the network.
fn is_in_range(net: &Network, fact: Fact) -> bool
    ensures { IsTrue result → IsInRange net.now fact }
{
    let packets = net.headers().count();
    match fact {
        Fact::Out(end, p) => end < net.ends() && p < packets,
        Fact::State(b, p, v) => b < net.boxes() && p < packets && v < masks(net, b),
        Fact::Abort(b, p) => b < net.boxes() && p < packets,
    }
}

/// How many masks a box has.
pub(crate) fn masks(net: &Network, b: u32) -> u16
    requires { b < boxes_of net.now }
    ensures { result ≡ masks_of net.now (box_at net.now b) }
{
    net.sound();
    2u16.pow(net.queries(b).len() as u32)
}
