// A set of moves for each box.
ghost use Rattle.std.specs.Prelude.{◌≡◌, ℕ, ◌<◌, ◌≤◌, ◌↔◌, ◌⊎◌, length, IsTrue, IfOk, MatchOption};
ghost use Rattle.cell_sets.specs.Marks.{HasCell};
ghost use Rattle.net_plan.specs.Plan.{packets_of, boxes_of};
ghost use Rattle.box_moves.specs.Moves.{masks_at, IsKept, IsSized, IsMove, HasMove, HasNoMoveFrom, AreCleared};

use crate::numbers::{cells_of, masks_of, number_of};
use amdl_tree::NoMemory;
use cell_sets::{BitSet, CellSet};
use net_plan::Network;
use std::alloc::Global;
use std::marker::Model;

/// The moves that were noted, from one mask of a box to another at a packet.
///
/// Contracts see the marks of one set a box. The moves of a box that isn't kept are never noted.
#[derive(Debug, Drop)]
pub struct Moves {
    sets: Vec<BitSet>,
}

impl Model for Moves {
    ghost use Rattle.std.specs.Prelude.{Bool, List};

    ghost Value = { List (List Bool) };

    ghost view = { λ moves. moves.sets.items };
}

impl Moves {
    /// No move of this network. It takes a bit for each move that there can be in the boxes that are kept, and time
    /// linear in these.
    pub fn new(alloc: Global, net: &Network) -> Result<Moves, NoMemory>
        ensures sized { IfOk result (λ moves. IsSized net.now moves) }
        ensures none { IfOk result (λ moves. (box packet mask other : ℕ) → ¬ (HasMove net.now moves box packet mask other)) }
    {
        let mut sets = Vec::new(alloc);
        for b in 0..net.boxes() {
            match sets.push(BitSet::make(alloc, cells_of(net, b))?) {
                Ok(()) => (),
                Err(_) => return Err(NoMemory),
            }
        }
        Ok(Moves { sets })
    }

    /// Notes a move, and answers whether it was absent. Constant time, no memory.
    pub fn add(&mut self, net: &Network, b: u32, packet: u32, mask: u16, other: u16) -> bool
        requires sized { IsSized net.now self.old }
        requires kept { IsKept net.now b }
        requires is_move { IsMove net.now b packet mask other }
        ensures sized { IsSized net.now self.new }
        ensures moves { (b' q w w' : ℕ) → HasMove net.now self.new b' q w w'
            ↔ (HasMove net.now self.old b' q w w' ⊎ ((b ≡ b') × (packet ≡ q) × (mask ≡ w) × (other ≡ w'))) }
        ensures fresh { IsTrue result ↔ ¬ (HasMove net.now self.old b packet mask other) }
    {
        let move_number = number_of(net, b, packet, mask, other);
        self.sets[b as usize].add(move_number)
    }

    /// Takes all moves away. Linear in the moves that there can be in the boxes that are kept, divided by 64, and in
    /// those that were noted. No memory.
    pub fn clear(&mut self, net: &Network)
        requires sized { IsSized net.now self.old }
        ensures sized { IsSized net.now self.new }
        ensures none { (box packet mask other : ℕ) → ¬ (HasMove net.now self.new box packet mask other) }
    {
        let _net = net;
        clear_sets(&mut self.sets);
    }

    /// Whether a move was noted. Constant time, no memory.
    pub fn has(&self, net: &Network, b: u32, packet: u32, mask: u16, other: u16) -> bool
        requires sized { IsSized net.now self.now }
        requires kept { IsKept net.now b }
        requires is_move { IsMove net.now b packet mask other }
        ensures { IsTrue result ↔ HasMove net.now self.now b packet mask other }
    {
        let move_number = number_of(net, b, packet, mask, other);
        self.sets[b as usize].has(move_number)
    }

    /// The least mask that is `from` or more to which a move from this mask was noted, where there is one. Linear in
    /// the masks that are passed over divided by 64, at least one word; no memory. With n queries the moves from a mask
    /// at a packet are 2^n bits and begin at a multiple of 2^n, so with up to 6 queries no second word is looked at.
    pub fn next(&self, net: &Network, b: u32, packet: u32, mask: u16, from: u16) -> Option<u16>
        requires sized { IsSized net.now self.now }
        requires kept { IsKept net.now b }
        requires boxed { b < boxes_of net.now }
        requires packet { packet < packets_of net.now }
        requires mask { mask < masks_at net.now b }
        ensures { MatchOption result
            (HasNoMoveFrom net.now self.now b packet mask from (masks_at net.now b))
            (λ other. (from ≤ other) × HasMove net.now self.now b packet mask other
            × HasNoMoveFrom net.now self.now b packet mask from other) }
    {
        let first = number_of(net, b, packet, mask, 0);
        let end = first + masks_of(net, b);
        let found = self.sets[b as usize].next_within(first + u32::from(from), end)?;
        Some((found - first) as u16)
    }
}

// Takes all members out of the sets.
fn clear_sets(sets: &mut Vec<BitSet>)
    ensures cleared { AreCleared (length sets.old.items) sets.old.items sets.new.items }
{
    for b in 0..sets.len() {
        clear_set(&mut sets[b]);
    }
}

// Takes all members out of a set.
fn clear_set(set: &mut BitSet)
    ensures cells { length set.new ≡ length set.old }
    ensures none { (cell : ℕ) → ¬ (HasCell set.new cell) }
{
    let cells = set.cells();
    let mut from = 0;
    while from < cells {
        match set.next_from(from) {
            None => return,
            Some(cell) => {
                set.take_out(cell);
                from = cell + 1;
            }
        }
    }
}
