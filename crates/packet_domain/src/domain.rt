// The domain of packets.
ghost use Rattle.std.specs.Prelude.{◌≡◌, IfOk};
ghost use Rattle.net_plan.specs.Cells.{cells_of};
ghost use Rattle.packet_domain.specs.Follows.{Follows};
ghost use Rattle.packet_domain.specs.Bounded.{follows_bounded};
ghost use Rattle.packet_domain.specs.Table.{Tracks};

use crate::react::react;
use crate::starts::offer_starts;
use abstract_step::Paths;
use amdl_tree::NoMemory;
use cell_sets::CellSet;
use fix_engine::{AbstractDomain, Work};
use move_table::MoveTable;
use net_plan::{Network, Plan};
use std::alloc::Global;
use std::marker::Model;
use std::sync::ledger::Ledger;
use step_count::Steps;

/// The facts of a network as cells: what may be put out at its ends, how its boxes may answer, and where they may
/// abort. Contracts see it as the plan of the network, and the moves that it remembers.
///
/// A packet that is put out is fired with all answers of its box that are done, and answers at a packet with the ends
/// where the packet is put out. What a firing makes of answers of the box is remembered as moves from mask to mask, so
/// answers that may be changed only follow the moves. A box with too many moves remembers none: there each packet that
/// comes to the box is fired again.
#[derive(Drop)]
pub struct PacketDomain<'a> {
    net: &'a Network,
    paths: Paths<'a>,
    table: MoveTable<'a>,
}

impl<'a> Model for PacketDomain<'a> {
    ghost use Rattle.std.specs.Prelude.{◌≡◌};
    ghost use Rattle.move_table.specs.Moves.{Memory};
    ghost use Rattle.move_table.specs.Coded.{memory_code};
    ghost use Rattle.net_plan.specs.contracts.network.Network as network;

    ghost Value = { Memory };

    ghost coded = { memory_code network.the_row.coded };

    ghost view = { λ domain. record { plan = domain.net.now; moves = domain.table.moves } };

    ghost invariant = { λ domain. (domain.paths ≡ domain.net.now) × (domain.table.plan ≡ domain.net.now) };
}

impl<'a> PacketDomain<'a> {
    /// The domain of a network. It takes the memory of the results of one handler, and a bit for each move that there
    /// can be in the boxes that remember them. No call takes more.
    pub fn new(alloc: Global, net: &'a Network) -> Result<PacketDomain<'a>, NoMemory>
        ensures { IfOk result (λ domain. domain.plan ≡ net.now) }
    {
        let paths = Paths::new(alloc, net)?;
        let table = MoveTable::new(alloc, net)?;
        Ok(PacketDomain { net, paths, table })
    }
}

impl<'a> AbstractDomain for PacketDomain<'a> {
    type Subject = Plan;

    ghost subject = { λ domain. domain.plan };

    ghost count = { cells_of };

    ghost follows = { Follows };

    ghost tracks = { λ domain progress. Tracks domain.plan domain.moves progress };

    fn cells(&self) -> u32 {
        self.net.cells()
    }

    fn starts<S: CellSet>(&mut self, work: &mut Work<S>) {
        self.table.clear();
        offer_starts(self.net, work);
    }

    fn react<S: CellSet, L: Ledger>(
        &mut self,
        cell: u32,
        work: &mut Work<S>,
        steps: &mut Steps<L>,
    ) {
        self.table.sound();
        react(
            self.net,
            &mut self.paths,
            cell,
            &mut self.table,
            work,
            steps,
        );
    }

    ghost bounded = { follows_bounded };
}
