//! Ends and cells by their numbers.
ghost use Rattle.std.specs.Prelude.{◌≡◌, ℕ, ◌<◌, ◌≤◌, ◌+◌, length, MatchOption};
ghost use Rattle.net_plan.specs.Plan.{packets_of, boxes_of, box_at, ports_of};
ghost use Rattle.net_plan.specs.Ends.{ends_of, IsEndAt, IsLinked, partner_of};
ghost use Rattle.net_plan.specs.Cells.{IsInRange, cell_of, cells_of};
ghost use Rattle.net_plan.specs.Kept.{first_end, first_state};

use super::Network;
use crate::fact::{Fact, Place};
use crate::laws::host_ends;

impl Network {
    /// The number of ends, at most 4,194,304.
    pub fn ends(&self) -> u32
        ensures ends { result ≡ ends_of self.now }
        ensures few { result ≤ 4194304 }
    {
        self.sound();
        let places = &self.places;
        places.as_slice().len() as u32
    }

    /// The end of a host.
    pub fn end_of_host(&self, host: u32) -> u32
        requires { host < length self.now.hosts }
        ensures { IsEndAt self.now result (Place.Host host) }
    {
        host_ends();
        host
    }

    /// The end of a port of a box.
    pub fn end_of_port(&self, b: u32, port: u32) -> u32
        requires boxed { b < boxes_of self.now }
        requires port { port < ports_of self.now (box_at self.now b) }
        ensures { IsEndAt self.now result (Place.Port b port) }
    {
        self.sound();
        self.first_end(b) + port
    }

    // The end of port 0 of a box.
    fn first_end(&self, b: u32) -> u32
        requires { b < boxes_of self.now }
        ensures { result ≡ first_end self.now b }
    {
        self.first_ends.as_slice()[b as usize]
    }

    /// Where an end is.
    pub fn place(&self, end: u32) -> Place
        requires { end < ends_of self.now }
        ensures { IsEndAt self.now end result }
    {
        self.places.as_slice()[end as usize]
    }

    /// The other end of the link of an end. None comes exactly where the end has no link.
    pub fn partner(&self, end: u32) -> Option<u32>
        requires { end < ends_of self.now }
        ensures value { result ≡ partner_of self.now end }
        ensures linked { MatchOption result ((other : ℕ) → IsLinked self.now end other → ⊥) (IsLinked self.now end) }
        ensures in_range { MatchOption result (Unit {0}) (λ other. other < ends_of self.now) }
    {
        self.sound();
        self.partners.as_slice()[end as usize]
    }

    /// The number of cells, at most 4,194,304.
    pub fn cells(&self) -> u32
        ensures cells { result ≡ cells_of self.now }
        ensures few { result ≤ 4194304 }
    {
        self.sound();
        self.first_state(self.boxes()) + self.boxes() * self.headers().count()
    }

    /// The cell of a fact in range.
    pub fn cell_of(&self, fact: Fact) -> u32
        requires { IsInRange self.now fact }
        ensures cell { result ≡ cell_of self.now fact }
        ensures below { result < cells_of self.now }
    {
        self.sound();
        match fact {
            Fact::Out(end, packet) => end * self.headers().count() + packet,
            Fact::State(b, packet, mask) => {
                self.first_state(b) + (packet * self.masks(b) + mask as u32)
            }
            Fact::Abort(b, packet) => {
                self.first_state(self.boxes()) + (b * self.headers().count() + packet)
            }
        }
    }

    /// The fact of a cell, which is the one fact in range with this cell. Logarithmic in the boxes.
    pub fn fact_at(&self, cell: u32) -> Fact
        requires { cell < cells_of self.now }
        ensures in_range { IsInRange self.now result }
        ensures cell { cell_of self.now result ≡ cell }
    {
        self.sound();
        let packets = self.headers().count();
        let first_abort = self.first_state(self.boxes());
        if cell < self.first_state(0) {
            Fact::Out(cell / packets, cell % packets)
        } else if cell < first_abort {
            self.state_at(cell)
        } else {
            let left = cell - first_abort;
            Fact::Abort(left / packets, left % packets)
        }
    }

    // The `State` fact of a cell.
    fn state_at(&self, cell: u32) -> Fact
        requires from { first_state self.now 0 ≤ cell }
        requires below { cell < first_state self.now (boxes_of self.now) }
        ensures in_range { IsInRange self.now result }
        ensures cell { cell_of self.now result ≡ cell }
    {
        self.sound();
        let b = self.box_of_state(cell);
        let left = cell - self.first_state(b);
        let masks = self.masks(b);
        Fact::State(b, left / masks, (left % masks) as u16)
    }

    // The box of a `State` cell.
    fn box_of_state(&self, cell: u32) -> u32
        requires from { first_state self.now 0 ≤ cell }
        requires below { cell < first_state self.now (boxes_of self.now) }
        ensures boxed { result < boxes_of self.now }
        ensures from { first_state self.now result ≤ cell }
        ensures below { cell < first_state self.now (result + 1) }
    {
        self.sound();
        match self.first_states.as_slice().binary_search(&cell) {
            Ok(b) => b as u32,
            Err(behind) => behind as u32 - 1,
        }
    }

    // The first `State` cell of a box, or the first `Abort` cell for the number of boxes.
    fn first_state(&self, b: u32) -> u32
        requires { b ≤ boxes_of self.now }
        ensures { result ≡ first_state self.now b }
    {
        self.first_states.as_slice()[b as usize]
    }
}
