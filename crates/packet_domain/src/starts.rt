// What follows from no premise: what the hosts send, and the answers of the first contents of the boxes.
ghost use Rattle.std.specs.Prelude.{◌≡◌, ℕ, ◌<◌, ◌⊎◌, [], length};
ghost use Rattle.std.specs.List.{Contains};
ghost use Rattle.fix_engine.specs.Progress.{found_in, Grows};
ghost use Rattle.net_plan.specs.Plan.{packets_of, boxes_of};
ghost use Rattle.net_plan.specs.Cells.{cells_of};
ghost use Rattle.packet_domain.specs.Follows.{Follows};
ghost use Rattle.move_table.specs.Offered.{Offered};
ghost use Rattle.packet_domain.specs.Reasons.{IsSentBy, SendsAny, SendAny, IsFirstAt, FirstAny, FirstsAny};

use box_masks::first_answers;
use cell_sets::CellSet;
use fix_engine::Work;
use move_table::offer;
use net_plan::{Fact, Network};

fn offer_sent<S: CellSet>(net: &Network, host: u32, p: u32, work: &mut Work<S>)
    requires cells { work.old.cells ≡ cells_of net.now }
    requires host { host < length net.now.hosts }
    requires packet { p < packets_of net.now }
    ensures { Offered net.now (IsSentBy net.now host p) work.old work.new }
{
    if net.sends(host, p) {
        offer(net, Fact::Out(net.end_of_host(host), p), work);
    }
}

fn offer_sent_by<S: CellSet>(net: &Network, host: u32, work: &mut Work<S>)
    requires cells { work.old.cells ≡ cells_of net.now }
    requires host { host < length net.now.hosts }
    ensures { Offered net.now (SendsAny net.now host) work.old work.new }
{
    for p in 0..net.headers().count() {
        offer_sent(net, host, p, work);
    }
}

fn offer_all_sent<S: CellSet>(net: &Network, work: &mut Work<S>)
    requires cells { work.old.cells ≡ cells_of net.now }
    ensures { Offered net.now (SendAny net.now) work.old work.new }
{
    for host in 0..net.hosts() {
        offer_sent_by(net, host, work);
    }
}

fn offer_first<S: CellSet>(net: &Network, b: u32, p: u32, work: &mut Work<S>)
    requires cells { work.old.cells ≡ cells_of net.now }
    requires boxed { b < boxes_of net.now }
    requires packet { p < packets_of net.now }
    ensures { Offered net.now (IsFirstAt net.now b p) work.old work.new }
{
    offer(net, Fact::State(b, p, first_answers(net, b, p)), work);
}

fn offer_first_of<S: CellSet>(net: &Network, b: u32, work: &mut Work<S>)
    requires cells { work.old.cells ≡ cells_of net.now }
    requires boxed { b < boxes_of net.now }
    ensures { Offered net.now (FirstAny net.now b) work.old work.new }
{
    for p in 0..net.headers().count() {
        offer_first(net, b, p, work);
    }
}

fn offer_all_first<S: CellSet>(net: &Network, work: &mut Work<S>)
    requires cells { work.old.cells ≡ cells_of net.now }
    ensures { Offered net.now (FirstsAny net.now) work.old work.new }
{
    for b in 0..net.boxes() {
        offer_first_of(net, b, work);
    }
}

/// Offers exactly the cells that follow from no premise.
pub fn offer_starts<S: CellSet>(net: &Network, work: &mut Work<S>)
    requires cells { work.old.cells ≡ cells_of net.now }
    ensures grows { Grows work.old work.new }
    ensures all { (cell : ℕ) → Follows net.now [] cell → Contains (found_in work.new) cell }
    ensures only { (cell : ℕ) → Contains (found_in work.new) cell →
        Contains (found_in work.old) cell ⊎ Follows net.now [] cell }
{
    offer_all_sent(net, work);
    offer_all_first(net, work);
}
