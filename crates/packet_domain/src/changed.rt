// What deliveries of packets that are put out make of answers of the box.
ghost use Rattle.std.specs.Prelude.{◌≡◌, ◌<◌, [], ◌∷◌};
ghost use Rattle.net_plan.specs.declared.fact.Fact.TheVariants.{Out, State};
ghost use Rattle.net_plan.specs.Plan.{packets_of, boxes_of, box_at, ports_of};
ghost use Rattle.net_plan.specs.Cells.{cells_of};
ghost use Rattle.packet_state.specs.Follows.{Follows};
ghost use Rattle.box_masks.specs.Writes.{IsMaskOf};
ghost use Rattle.move_table.specs.Offered.{Offered};
ghost use Rattle.packet_domain.specs.Inlet.{IsInlet};
ghost use Rattle.packet_domain.specs.Reasons.{AsChangedBy, AsChangedFrom, AsChangedAt, AsChanged};

use crate::changes::change;
use crate::done::{next_mask, next_packet};
use crate::inlet::{Inlet, inlet_of_port};
use crate::laws::step_is_exact;
use abstract_step::Paths;
use cell_sets::CellSet;
use fix_engine::Work;
use net_plan::Network;
use net_plan::laws::partner_is_unique;
use std::sync::ledger::Ledger;
use step_count::Steps;

// Offers what the packet `p` at an inlet makes of the answers `w` at `q`, where the box answers with `v` at `p`.
fn change_by<S: CellSet, L: Ledger>(
    net: &Network,
    paths: &mut Paths<'_>,
    inlet: Inlet,
    p: u32,
    v: u16,
    q: u32,
    w: u16,
    work: &mut Work<S>,
    steps: &mut Steps<L>,
)
    requires made { paths.old ≡ net.now }
    requires cells { work.old.cells ≡ cells_of net.now }
    requires inlet { IsInlet net.now inlet }
    requires packet { p < packets_of net.now }
    requires mask { IsMaskOf net.now inlet.b v }
    requires other { q < packets_of net.now }
    requires other_mask { IsMaskOf net.now inlet.b w }
    ensures same { paths.new ≡ paths.old }
    ensures offered { Offered net.now
        (Follows net.now (Out inlet.end p ∷ State inlet.b p v ∷ State inlet.b q w ∷ [])) work.old work.new }
{
    net.sound();
    step_is_exact();
    let fired = paths.fire(net, inlet.b, inlet.port, p, v, steps);
    change(net, fired, inlet.b, p, v, q, w, work);
}

fn change_by_any<S: CellSet, L: Ledger>(
    net: &Network,
    paths: &mut Paths<'_>,
    inlet: Inlet,
    p: u32,
    q: u32,
    w: u16,
    work: &mut Work<S>,
    steps: &mut Steps<L>,
)
    requires made { paths.old ≡ net.now }
    requires cells { work.old.cells ≡ cells_of net.now }
    requires inlet { IsInlet net.now inlet }
    requires packet { p < packets_of net.now }
    requires other { q < packets_of net.now }
    requires other_mask { IsMaskOf net.now inlet.b w }
    ensures same { paths.new ≡ paths.old }
    ensures offered { Offered net.now (AsChangedBy net.now work.old.done inlet.end p inlet.b q w) work.old work.new }
{
    let mut at = 0;
    while let Some(v) = next_mask(net, work, inlet.b, p, at) {
        change_by(net, paths, inlet, p, v, q, w, work, steps);
        at = v as u32 + 1;
    }
}

fn change_from<S: CellSet, L: Ledger>(
    net: &Network,
    paths: &mut Paths<'_>,
    inlet: Inlet,
    q: u32,
    w: u16,
    work: &mut Work<S>,
    steps: &mut Steps<L>,
)
    requires made { paths.old ≡ net.now }
    requires cells { work.old.cells ≡ cells_of net.now }
    requires inlet { IsInlet net.now inlet }
    requires other { q < packets_of net.now }
    requires other_mask { IsMaskOf net.now inlet.b w }
    ensures same { paths.new ≡ paths.old }
    ensures offered { Offered net.now (AsChangedFrom net.now work.old.done inlet.end inlet.b q w) work.old work.new }
{
    net.sound();
    let mut at = 0;
    while let Some(p) = next_packet(net, work, inlet.end, at) {
        change_by_any(net, paths, inlet, p, q, w, work, steps);
        at = p + 1;
    }
}

fn change_at_port<S: CellSet, L: Ledger>(
    net: &Network,
    paths: &mut Paths<'_>,
    b: u32,
    q: u32,
    w: u16,
    port: u32,
    work: &mut Work<S>,
    steps: &mut Steps<L>,
)
    requires made { paths.old ≡ net.now }
    requires cells { work.old.cells ≡ cells_of net.now }
    requires boxed { b < boxes_of net.now }
    requires packet { q < packets_of net.now }
    requires mask { IsMaskOf net.now b w }
    requires port { port < ports_of net.now (box_at net.now b) }
    ensures same { paths.new ≡ paths.old }
    ensures offered { Offered net.now (AsChangedAt net.now work.old.done b q w port) work.old work.new }
{
    net.sound();
    partner_is_unique();
    if let Some(inlet) = inlet_of_port(net, b, port) {
        change_from(net, paths, inlet, q, w, work, steps);
    }
}

/// Offers what deliveries that follow from facts that are done make of the answers of a box at a packet.
pub fn change_state<S: CellSet, L: Ledger>(
    net: &Network,
    paths: &mut Paths<'_>,
    b: u32,
    q: u32,
    w: u16,
    work: &mut Work<S>,
    steps: &mut Steps<L>,
)
    requires made { paths.old ≡ net.now }
    requires cells { work.old.cells ≡ cells_of net.now }
    requires boxed { b < boxes_of net.now }
    requires packet { q < packets_of net.now }
    requires mask { IsMaskOf net.now b w }
    ensures same { paths.new ≡ paths.old }
    ensures offered { Offered net.now (AsChanged net.now work.old.done b q w) work.old work.new }
{
    for port in 0..net.ports(b) {
        change_at_port(net, paths, b, q, w, port, work, steps);
    }
}
