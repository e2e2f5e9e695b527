// Facts that are done, by their numbers.
ghost use Rattle.std.specs.Prelude.{◌≡◌, ℕ, ◌+◌, ◌<◌, ◌≤◌, MatchOption};
ghost use Rattle.net_plan.specs.declared.fact.Fact.TheVariants.{State, Out};
ghost use Rattle.net_plan.specs.Plan.{packets_of, boxes_of, box_at, masks_of};
ghost use Rattle.net_plan.specs.Ends.{ends_of};
ghost use Rattle.net_plan.specs.Cells.{cells_of};
ghost use Rattle.move_table.specs.Offered.{IsDone, HasNone, HasNoneFrom, IsDoneIn};

use cell_sets::CellSet;
use fix_engine::Work;
use net_plan::{Fact, Network};

// The least number, from one on and below another, whose cell is done, where the cells begin at `first`. It passes over
// many cells in one step, but may look far behind the last of these.
fn next_in<S: CellSet>(work: &Work<S>, first: u32, from: u32, count: u32) -> Option<u32>
    requires cells { first + count ≤ work.now.cells }
    requires from { from ≤ count }
    requires small { work.now.cells ≤ 4194304 }
    ensures { MatchOption result (HasNone (IsDoneIn work.now.done first) from count)
        (λ k. (from ≤ k) × (k < count) × IsDoneIn work.now.done first k × HasNone (IsDoneIn work.now.done first) from k) }
{
    match work.next_done(first + from) {
        Some(cell) if cell < first + count => Some(cell - first),
        _ => None,
    }
}

// The same for a few cells, one by one.
fn next_in_few<S: CellSet>(work: &Work<S>, first: u32, from: u32, count: u32) -> Option<u32>
    requires cells { first + count ≤ work.now.cells }
    requires from { from ≤ count }
    requires small { work.now.cells ≤ 4194304 }
    ensures { MatchOption result (HasNone (IsDoneIn work.now.done first) from count)
        (λ k. (from ≤ k) × (k < count) × IsDoneIn work.now.done first k × HasNone (IsDoneIn work.now.done first) from k) }
{
    for k in from..count {
        if work.is_done(first + k) {
            return Some(k);
        }
    }
    None
}

/// The least mask from one on with which a box answers at a packet, by a fact that is done. Linear in the masks that are
/// passed over.
pub fn next_mask<S: CellSet>(
    net: &Network,
    work: &Work<S>,
    b: u32,
    p: u32,
    from: u32,
) -> Option<u16>
    requires cells { work.now.cells ≡ cells_of net.now }
    requires boxed { b < boxes_of net.now }
    requires packet { p < packets_of net.now }
    requires from { from ≤ masks_of net.now (box_at net.now b) }
    ensures { MatchOption result (HasNoneFrom (λ k. IsDone net.now work.now.done (State b p k)) from)
        (λ v. (from ≤ v) × IsDone net.now work.now.done (State b p v)
        × HasNone (λ k. IsDone net.now work.now.done (State b p k)) from v) }
{
    net.sound();
    let first = net.cell_of(Fact::State(b, p, 0));
    let masks = 2u32.pow(net.queries(b).len() as u32);
    match next_in_few(work, first, from, masks) {
        Some(found) => Some(found as u16),
        None => None,
    }
}

/// The least packet from one on that is put out at an end, by a fact that is done.
pub fn next_packet<S: CellSet>(net: &Network, work: &Work<S>, end: u32, from: u32) -> Option<u32>
    requires cells { work.now.cells ≡ cells_of net.now }
    requires end { end < ends_of net.now }
    requires from { from ≤ packets_of net.now }
    ensures { MatchOption result (HasNoneFrom (λ k. IsDone net.now work.now.done (Out end k)) from)
        (λ p. (from ≤ p) × IsDone net.now work.now.done (Out end p)
        × HasNone (λ k. IsDone net.now work.now.done (Out end k)) from p) }
{
    net.sound();
    let packets = net.headers().count();
    let first = net.cell_of(Fact::Out(end, 0));
    next_in(work, first, from, packets)
}
