// What follows from the delivery of a packet to a box: by the packet, and by the answers of the box at it.
ghost use Rattle.std.specs.Prelude.{◌≡◌, ◌<◌};
ghost use Rattle.net_plan.specs.Plan.{packets_of, boxes_of, box_at, ports_of};
ghost use Rattle.net_plan.specs.Ends.{ends_of};
ghost use Rattle.net_plan.specs.Cells.{cells_of};
ghost use Rattle.box_masks.specs.Writes.{IsMaskOf};
ghost use Rattle.box_moves.specs.Moves.{IsSized};
ghost use Rattle.move_table.specs.Moves.{Adds, AreFollowed};
ghost use Rattle.packet_domain.specs.Table.{MovesBy, MovesTo, MovesFrom, MovesAsOut, MovesAsState, MovesAsStateAt};
ghost use Rattle.move_table.specs.Offered.{Offered};
ghost use Rattle.packet_domain.specs.Inlet.{IsInlet};
ghost use Rattle.packet_domain.specs.Reasons.{IsDelivered, IsDeliveredFrom, DeliversTo, AsOut, AsStateAt, AsState};

use crate::done::next_mask;
use crate::inlet::{Inlet, inlet_of_end, inlet_of_port};
use crate::laws::step_is_exact;
use crate::notes::change_by_results;
use crate::offers::offer_results;
use abstract_step::Paths;
use cell_sets::CellSet;
use fix_engine::Work;
use move_table::MoveTable;
use net_plan::laws::partner_is_unique;
use net_plan::{Fact, Network};
use std::sync::ledger::Ledger;
use step_count::Steps;

// Offers what follows from a packet at an inlet and the answers `v` of the box at it, alone and with each answers of
// the box that are done. In a box that is kept it notes the moves.
fn deliver<S: CellSet, L: Ledger>(
    net: &Network,
    paths: &mut Paths<'_>,
    inlet: Inlet,
    p: u32,
    v: u16,
    table: &mut MoveTable<'_>,
    work: &mut Work<S>,
    steps: &mut Steps<L>,
)
    requires made { paths.old ≡ net.now }
    requires cells { work.old.cells ≡ cells_of net.now }
    requires table { table.old.plan ≡ net.now }
    requires sized { IsSized net.now table.old.moves }
    requires followed { AreFollowed net.now table.old.moves work.old }
    requires inlet { IsInlet net.now inlet }
    requires packet { p < packets_of net.now }
    requires mask { IsMaskOf net.now inlet.b v }
    ensures same { paths.new ≡ paths.old }
    ensures table { table.new.plan ≡ table.old.plan }
    ensures offered { Offered net.now (IsDelivered net.now work.old.done inlet.end p inlet.b v) work.old work.new }
    ensures adds { Adds net.now (MovesBy net.now inlet.end p inlet.b v) table.old.moves table.new.moves }
    ensures followed { AreFollowed net.now table.new.moves work.new }
{
    net.sound();
    step_is_exact();
    let fired = paths.fire(net, inlet.b, inlet.port, p, v, steps);
    offer_results(net, fired, inlet.b, p, work);
    change_by_results(net, fired, inlet.b, p, v, table, work);
}

fn deliver_to<S: CellSet, L: Ledger>(
    net: &Network,
    paths: &mut Paths<'_>,
    inlet: Inlet,
    p: u32,
    table: &mut MoveTable<'_>,
    work: &mut Work<S>,
    steps: &mut Steps<L>,
)
    requires made { paths.old ≡ net.now }
    requires cells { work.old.cells ≡ cells_of net.now }
    requires table { table.old.plan ≡ net.now }
    requires sized { IsSized net.now table.old.moves }
    requires followed { AreFollowed net.now table.old.moves work.old }
    requires inlet { IsInlet net.now inlet }
    requires packet { p < packets_of net.now }
    ensures same { paths.new ≡ paths.old }
    ensures table { table.new.plan ≡ table.old.plan }
    ensures offered { Offered net.now (DeliversTo net.now work.old.done inlet.end p inlet.b) work.old work.new }
    ensures adds { Adds net.now (MovesTo net.now work.old.done inlet.end p inlet.b) table.old.moves table.new.moves }
    ensures followed { AreFollowed net.now table.new.moves work.new }
{
    let mut at = 0;
    while let Some(v) = next_mask(net, work, inlet.b, p, at) {
        deliver(net, paths, inlet, p, v, table, work, steps);
        at = v as u32 + 1;
    }
}

/// Offers what follows from a packet that is put out at an end, with facts that are done.
pub fn deliver_out<S: CellSet, L: Ledger>(
    net: &Network,
    paths: &mut Paths<'_>,
    end: u32,
    p: u32,
    table: &mut MoveTable<'_>,
    work: &mut Work<S>,
    steps: &mut Steps<L>,
)
    requires made { paths.old ≡ net.now }
    requires cells { work.old.cells ≡ cells_of net.now }
    requires table { table.old.plan ≡ net.now }
    requires sized { IsSized net.now table.old.moves }
    requires followed { AreFollowed net.now table.old.moves work.old }
    requires end { end < ends_of net.now }
    requires packet { p < packets_of net.now }
    ensures same { paths.new ≡ paths.old }
    ensures table { table.new.plan ≡ table.old.plan }
    ensures offered { Offered net.now (AsOut net.now work.old.done end p) work.old work.new }
    ensures adds { Adds net.now (MovesAsOut net.now work.old.done end p) table.old.moves table.new.moves }
    ensures followed { AreFollowed net.now table.new.moves work.new }
{
    net.sound();
    partner_is_unique();
    if let Some(inlet) = inlet_of_end(net, end) {
        deliver_to(net, paths, inlet, p, table, work, steps);
    }
}

fn deliver_at<S: CellSet, L: Ledger>(
    net: &Network,
    paths: &mut Paths<'_>,
    b: u32,
    p: u32,
    v: u16,
    port: u32,
    table: &mut MoveTable<'_>,
    work: &mut Work<S>,
    steps: &mut Steps<L>,
)
    requires made { paths.old ≡ net.now }
    requires cells { work.old.cells ≡ cells_of net.now }
    requires table { table.old.plan ≡ net.now }
    requires sized { IsSized net.now table.old.moves }
    requires followed { AreFollowed net.now table.old.moves work.old }
    requires boxed { b < boxes_of net.now }
    requires packet { p < packets_of net.now }
    requires mask { IsMaskOf net.now b v }
    requires port { port < ports_of net.now (box_at net.now b) }
    ensures same { paths.new ≡ paths.old }
    ensures table { table.new.plan ≡ table.old.plan }
    ensures offered { Offered net.now (AsStateAt net.now work.old.done b p v port) work.old work.new }
    ensures adds { Adds net.now (MovesAsStateAt net.now work.old.done b p v port) table.old.moves table.new.moves }
    ensures followed { AreFollowed net.now table.new.moves work.new }
{
    net.sound();
    partner_is_unique();
    if let Some(inlet) = inlet_of_port(net, b, port) {
        deliver_where_done(net, paths, inlet, p, v, table, work, steps);
    }
}

// Delivers where the packet is put out at the end of the inlet.
fn deliver_where_done<S: CellSet, L: Ledger>(
    net: &Network,
    paths: &mut Paths<'_>,
    inlet: Inlet,
    p: u32,
    v: u16,
    table: &mut MoveTable<'_>,
    work: &mut Work<S>,
    steps: &mut Steps<L>,
)
    requires made { paths.old ≡ net.now }
    requires cells { work.old.cells ≡ cells_of net.now }
    requires table { table.old.plan ≡ net.now }
    requires sized { IsSized net.now table.old.moves }
    requires followed { AreFollowed net.now table.old.moves work.old }
    requires inlet { IsInlet net.now inlet }
    requires packet { p < packets_of net.now }
    requires mask { IsMaskOf net.now inlet.b v }
    ensures same { paths.new ≡ paths.old }
    ensures table { table.new.plan ≡ table.old.plan }
    ensures offered { Offered net.now (IsDeliveredFrom net.now work.old.done inlet.end p inlet.b v) work.old work.new }
    ensures adds { Adds net.now (MovesFrom net.now work.old.done inlet.end p inlet.b v) table.old.moves table.new.moves }
    ensures followed { AreFollowed net.now table.new.moves work.new }
{
    if work.is_done(net.cell_of(Fact::Out(inlet.end, p))) {
        deliver(net, paths, inlet, p, v, table, work, steps);
    }
}

/// Offers what follows from the answers of a box at a packet that comes to it, with facts that are done.
pub fn deliver_state<S: CellSet, L: Ledger>(
    net: &Network,
    paths: &mut Paths<'_>,
    b: u32,
    p: u32,
    v: u16,
    table: &mut MoveTable<'_>,
    work: &mut Work<S>,
    steps: &mut Steps<L>,
)
    requires made { paths.old ≡ net.now }
    requires cells { work.old.cells ≡ cells_of net.now }
    requires table { table.old.plan ≡ net.now }
    requires sized { IsSized net.now table.old.moves }
    requires followed { AreFollowed net.now table.old.moves work.old }
    requires boxed { b < boxes_of net.now }
    requires packet { p < packets_of net.now }
    requires mask { IsMaskOf net.now b v }
    ensures same { paths.new ≡ paths.old }
    ensures table { table.new.plan ≡ table.old.plan }
    ensures offered { Offered net.now (AsState net.now work.old.done b p v) work.old work.new }
    ensures adds { Adds net.now (MovesAsState net.now work.old.done b p v) table.old.moves table.new.moves }
    ensures followed { AreFollowed net.now table.new.moves work.new }
{
    for port in 0..net.ports(b) {
        deliver_at(net, paths, b, p, v, port, table, work, steps);
    }
}
