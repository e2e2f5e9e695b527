// What the writes of the results of a fired handler make of answers of the box.
ghost use Rattle.std.specs.Prelude.{◌≡◌, ℕ, ◌<◌, ◌≤◌, length, MatchOption};
ghost use Rattle.net_plan.specs.declared.fact.Fact.TheVariants.{State, Out};
ghost use Rattle.net_plan.specs.Plan.{packets_of, boxes_of, box_at, masks_of};
ghost use Rattle.net_plan.specs.Ends.{ends_of};
ghost use Rattle.net_plan.specs.Cells.{cells_of};
ghost use Rattle.box_masks.specs.Writes.{IsMaskOf};
ghost use Rattle.abstract_step.specs.Step.{result_at};
ghost use Rattle.move_table.specs.Offered.{Offered};
ghost use Rattle.packet_domain.specs.Reasons.{IsAnswered, IsChange, SomeChanges, AgreeingChanges, ChangesAt, ChangesAll};

use crate::done::next_mask;
use abstract_step::Fired;
use box_masks::{agree, patch};
use cell_sets::CellSet;
use fix_engine::Work;
use move_table::offer;
use net_plan::{Fact, Network};

fn offer_change<S: CellSet>(
    net: &Network,
    fired: &Fired,
    b: u32,
    q: u32,
    w: u16,
    i: usize,
    work: &mut Work<S>,
)
    requires cells { work.old.cells ≡ cells_of net.now }
    requires boxed { b < boxes_of net.now }
    requires packet { q < packets_of net.now }
    requires mask { IsMaskOf net.now b w }
    requires answered { IsAnswered net.now b q w }
    requires result { i < length fired.now }
    ensures { Offered net.now (IsChange net.now b (result_at fired.now i) q w) work.old work.new }
{
    if !fired.aborted(i) {
        let after = patch(net, b, fired.update(i), q, w);
        offer(net, Fact::State(b, q, after), work);
    }
}

fn offer_changes<S: CellSet>(
    net: &Network,
    fired: &Fired,
    b: u32,
    q: u32,
    w: u16,
    work: &mut Work<S>,
)
    requires cells { work.old.cells ≡ cells_of net.now }
    requires boxed { b < boxes_of net.now }
    requires packet { q < packets_of net.now }
    requires mask { IsMaskOf net.now b w }
    requires answered { IsAnswered net.now b q w }
    ensures { Offered net.now (SomeChanges net.now b fired.now q w) work.old work.new }
{
    for i in 0..fired.len() {
        offer_change(net, fired, b, q, w, i, work);
    }
}

/// Offers what the results make of the answers `w` at packet `q`, where some contents answer so and with `v` at `p`.
pub fn change<S: CellSet>(
    net: &Network,
    fired: &Fired,
    b: u32,
    p: u32,
    v: u16,
    q: u32,
    w: u16,
    work: &mut Work<S>,
)
    requires cells { work.old.cells ≡ cells_of net.now }
    requires boxed { b < boxes_of net.now }
    requires packet { p < packets_of net.now }
    requires mask { IsMaskOf net.now b v }
    requires other { q < packets_of net.now }
    requires other_mask { IsMaskOf net.now b w }
    ensures { Offered net.now (AgreeingChanges net.now b p v fired.now q w) work.old work.new }
{
    if agree(net, b, p, v, q, w) {
        offer_changes(net, fired, b, q, w, work);
    }
}

fn change_at<S: CellSet>(
    net: &Network,
    fired: &Fired,
    b: u32,
    p: u32,
    v: u16,
    q: u32,
    work: &mut Work<S>,
)
    requires cells { work.old.cells ≡ cells_of net.now }
    requires boxed { b < boxes_of net.now }
    requires packet { p < packets_of net.now }
    requires mask { IsMaskOf net.now b v }
    requires other { q < packets_of net.now }
    ensures { Offered net.now (ChangesAt net.now work.old.done b p v fired.now q) work.old work.new }
{
    let mut at = 0;
    while let Some(w) = next_mask(net, work, b, q, at) {
        change(net, fired, b, p, v, q, w, work);
        at = w as u32 + 1;
    }
}

/// Offers what the results make of all answers of the box that are done.
pub fn change_all<S: CellSet>(
    net: &Network,
    fired: &Fired,
    b: u32,
    p: u32,
    v: u16,
    work: &mut Work<S>,
)
    requires cells { work.old.cells ≡ cells_of net.now }
    requires boxed { b < boxes_of net.now }
    requires packet { p < packets_of net.now }
    requires mask { IsMaskOf net.now b v }
    ensures { Offered net.now (ChangesAll net.now work.old.done b p v fired.now) work.old work.new }
{
    for q in 0..net.headers().count() {
        change_at(net, fired, b, p, v, q, work);
    }
}
