// The table of a network.
ghost use Rattle.std.specs.Prelude.{◌≡◌, ◌<◌, ◌≤◌, ℕ, IfOk, MatchOption};
ghost use Rattle.net_plan.specs.Plan.{packets_of, boxes_of};
ghost use Rattle.net_plan.specs.Cells.{cells_of};
ghost use Rattle.box_masks.specs.Writes.{IsMaskOf};
ghost use Rattle.box_moves.specs.Moves.{IsKept, IsSized, HasMove, HasNoMoveFrom, masks_at};
ghost use Rattle.move_table.specs.Moves.{AreFollowed, Noted, Patches};

use crate::update::note_update;
use amdl_tree::NoMemory;
use box_masks::Write;
use box_moves::Moves;
use cell_sets::CellSet;
use fix_engine::Work;
use net_plan::Network;
use query_tables::QueryTables;
use std::alloc::Global;
use std::marker::Model;

/// The moves of the boxes that are kept. Contracts see it as the plan of its network and the moves that were noted.
///
/// Inside it has marks for moves that were noted at all packets of a site, so that most results of firings need no
/// visit to the packets that read what they write.
#[derive(Drop)]
pub struct MoveTable<'a> {
    net: &'a Network,
    tables: QueryTables<'a>,
    moves: Moves,
    marks: Moves,
}

impl<'a> Model for MoveTable<'a> {
    ghost use Rattle.std.specs.Prelude.{◌≡◌};
    ghost use Rattle.box_moves.specs.Moves.{IsSized};
    ghost use Rattle.move_table.specs.Moves.{Memory};
    ghost use Rattle.move_table.specs.Marks.{AreMarks};
    ghost use Rattle.move_table.specs.Coded.{memory_code};
    ghost use Rattle.net_plan.specs.contracts.network.Network as network;

    ghost Value = { Memory };

    ghost coded = { memory_code network.the_row.coded };

    ghost view = { λ table. record { plan = table.net.now; moves = table.moves } };

    ghost invariant = { λ table. (table.tables.plan ≡ table.net.now) × IsSized table.net.now table.moves
        × AreMarks table.net.now table.tables table.moves table.marks };
}

impl<'a> MoveTable<'a> {
    /// No move of this network. It takes two bits for each move that there can be in the boxes that are kept, and the
    /// tables of the queries. No other call takes memory.
    pub fn new(alloc: Global, net: &'a Network) -> Result<MoveTable<'a>, NoMemory>
        ensures plan { IfOk result (λ table. table.plan ≡ net.now) }
    {
        let tables = QueryTables::new(alloc, net)?;
        let moves = Moves::new(alloc, net)?;
        let marks = Moves::new(alloc, net)?;
        Ok(MoveTable {
            net,
            tables,
            moves,
            marks,
        })
    }

    /// What holds of every table, for a caller that needs it.
    pub fn sound(&self)
        ensures { IsSized self.now.plan self.now.moves }
    {
        let _net = self.net;
    }

    /// Takes all moves away. Linear in the moves that there can be, divided by 64, and in those that were noted.
    pub fn clear(&mut self)
        ensures same { self.new.plan ≡ self.old.plan }
        ensures none { (box packet mask other : ℕ) → ¬ (HasMove self.new.plan self.new.moves box packet mask other) }
    {
        self.marks.clear(self.net);
        self.moves.clear(self.net);
    }

    /// Notes all moves that the writes of a result of a firing make, where the box answers with `v` at `p`, and offers
    /// what they make of answers of the box that are done.
    pub fn note<S: CellSet>(&mut self, b: u32, p: u32, v: u16, update: &[Write], work: &mut Work<S>)
        requires cells { work.old.cells ≡ cells_of self.old.plan }
        requires followed { AreFollowed self.old.plan self.old.moves work.old }
        requires boxed { b < boxes_of self.old.plan }
        requires kept { IsKept self.old.plan b }
        requires packet { p < packets_of self.old.plan }
        requires mask { IsMaskOf self.old.plan b v }
        ensures same { self.new.plan ≡ self.old.plan }
        ensures noted { Noted self.old.plan (Patches self.old.plan b p v update.now) self.old.moves self.new.moves
            work.old work.new }
    {
        note_update(
            self.net,
            &self.tables,
            b,
            p,
            v,
            update,
            &mut self.moves,
            &mut self.marks,
            work,
        );
    }

    /// The least mask that is `from` or more to which a move from this mask was noted, where there is one. Linear in
    /// the masks that are passed over, divided by 64; no memory.
    pub fn next(&self, b: u32, packet: u32, mask: u16, from: u16) -> Option<u16>
        requires kept { IsKept self.now.plan b }
        requires boxed { b < boxes_of self.now.plan }
        requires packet { packet < packets_of self.now.plan }
        requires mask { mask < masks_at self.now.plan b }
        ensures { MatchOption result
            (HasNoMoveFrom self.now.plan self.now.moves b packet mask from (masks_at self.now.plan b))
            (λ other. (from ≤ other) × HasMove self.now.plan self.now.moves b packet mask other
            × HasNoMoveFrom self.now.plan self.now.moves b packet mask from other) }
    {
        self.moves.next(self.net, b, packet, mask, from)
    }
}
