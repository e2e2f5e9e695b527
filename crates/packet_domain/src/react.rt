// What follows from a cell that is done, with the others that are.
ghost use Rattle.std.specs.Prelude.{◌≡◌, ℕ, ◌<◌};
ghost use Rattle.std.specs.List.{Contains};
ghost use Rattle.amdl_tree.specs.Derivation.{IsDerivable};
ghost use Rattle.fix_engine.specs.Progress.{Progress, found_in, Takes, Grows};
ghost use Rattle.fix_engine.specs.Rules.{GivenOrFollows, HasReacted};
ghost use Rattle.net_plan.specs.declared.fact.Fact.TheVariants.{State};
ghost use Rattle.net_plan.specs.Plan.{packets_of, boxes_of};
ghost use Rattle.net_plan.specs.Cells.{IsInRange, cell_of, cells_of};
ghost use Rattle.box_masks.specs.Writes.{IsMaskOf};
ghost use Rattle.box_moves.specs.Moves.{IsKept, IsSized};
ghost use Rattle.packet_domain.specs.Follows.{Follows};
ghost use Rattle.move_table.specs.Offered.{Offered};
ghost use Rattle.packet_domain.specs.Reasons.{Reacts};
ghost use Rattle.move_table.specs.Moves.{Adds};
ghost use Rattle.packet_domain.specs.Table.{MovesAs, IsMoved, ChangesAs, Tracks};

use crate::changed::change_state;
use crate::delivered::{deliver_out, deliver_state};
use abstract_step::Paths;
use box_moves::is_kept;
use cell_sets::CellSet;
use fix_engine::Work;
use move_table::{MoveTable, offer};
use net_plan::{Fact, Network};
use std::sync::ledger::Ledger;
use step_count::Steps;

// Offers what the noted moves make of answers of a box.
fn move_on<S: CellSet>(
    net: &Network,
    b: u32,
    q: u32,
    w: u16,
    table: &MoveTable<'_>,
    work: &mut Work<S>,
)
    requires cells { work.old.cells ≡ cells_of net.now }
    requires table { table.now.plan ≡ net.now }
    requires boxed { b < boxes_of net.now }
    requires kept { IsKept net.now b }
    requires packet { q < packets_of net.now }
    requires mask { IsMaskOf net.now b w }
    ensures { Offered net.now (IsMoved net.now table.now.moves b q w) work.old work.new }
{
    let _queries = net.queries(b);
    let mut from = 0;
    while let Some(other) = table.next(b, q, w, from) {
        offer(net, Fact::State(b, q, other), work);
        from = other + 1;
    }
}

// Offers what becomes of answers that may be changed: by the noted moves, or by each delivery that is done where the
// box isn't kept.
fn change_answers<S: CellSet, L: Ledger>(
    net: &Network,
    paths: &mut Paths<'_>,
    b: u32,
    q: u32,
    w: u16,
    table: &MoveTable<'_>,
    work: &mut Work<S>,
    steps: &mut Steps<L>,
)
    requires made { paths.old ≡ net.now }
    requires cells { work.old.cells ≡ cells_of net.now }
    requires table { table.now.plan ≡ net.now }
    requires boxed { b < boxes_of net.now }
    requires packet { q < packets_of net.now }
    requires mask { IsMaskOf net.now b w }
    ensures same { paths.new ≡ paths.old }
    ensures offered { Offered net.now (ChangesAs net.now table.now.moves work.old.done b q w) work.old work.new }
{
    if is_kept(net, b) {
        move_on(net, b, q, w, table, work);
    } else {
        change_state(net, paths, b, q, w, work, steps);
    }
}

// As the answers that are changed, and as those at a packet that is delivered.
fn react_to_state<S: CellSet, L: Ledger>(
    net: &Network,
    paths: &mut Paths<'_>,
    b: u32,
    p: u32,
    v: u16,
    table: &mut MoveTable<'_>,
    work: &mut Work<S>,
    steps: &mut Steps<L>,
)
    requires made { paths.old ≡ net.now }
    requires cells { work.old.cells ≡ cells_of net.now }
    requires table { table.old.plan ≡ net.now }
    requires sized { IsSized net.now table.old.moves }
    requires in_range { IsInRange net.now (State b p v) }
    requires tracks { (before : Progress) × Takes before (cell_of net.now (State b p v)) work.old
        × Tracks net.now table.old.moves before }
    ensures same { paths.new ≡ paths.old }
    ensures table { table.new.plan ≡ table.old.plan }
    ensures offered { Offered net.now (Reacts net.now work.old.done (State b p v)) work.old work.new }
    ensures adds { Adds net.now (MovesAs net.now work.old.done (State b p v)) table.old.moves table.new.moves }
{
    change_answers(net, paths, b, p, v, table, work, steps);
    deliver_state(net, paths, b, p, v, table, work, steps);
}

// Offers what follows from a fact in each of its roles.
fn react_to<S: CellSet, L: Ledger>(
    net: &Network,
    paths: &mut Paths<'_>,
    fact: Fact,
    table: &mut MoveTable<'_>,
    work: &mut Work<S>,
    steps: &mut Steps<L>,
)
    requires made { paths.old ≡ net.now }
    requires cells { work.old.cells ≡ cells_of net.now }
    requires table { table.old.plan ≡ net.now }
    requires sized { IsSized net.now table.old.moves }
    requires in_range { IsInRange net.now fact }
    requires tracks { (before : Progress) × Takes before (cell_of net.now fact) work.old × Tracks net.now table.old.moves before }
    ensures same { paths.new ≡ paths.old }
    ensures table { table.new.plan ≡ table.old.plan }
    ensures offered { Offered net.now (Reacts net.now work.old.done fact) work.old work.new }
    ensures adds { Adds net.now (MovesAs net.now work.old.done fact) table.old.moves table.new.moves }
{
    match fact {
        Fact::Out(end, p) => deliver_out(net, paths, end, p, table, work, steps),
        Fact::State(b, p, v) => react_to_state(net, paths, b, p, v, table, work, steps),
        Fact::Abort(..) => {}
    }
}

/// Offers each cell that follows from cells that are done, the given one among them, which was taken last.
///
/// The moves are those that deliveries of facts that were done before make. What the given cell makes is noted.
pub fn react<S: CellSet, L: Ledger>(
    net: &Network,
    paths: &mut Paths<'_>,
    cell: u32,
    table: &mut MoveTable<'_>,
    work: &mut Work<S>,
    steps: &mut Steps<L>,
)
    requires made { paths.old ≡ net.now }
    requires cells { work.old.cells ≡ cells_of net.now }
    requires table { table.old.plan ≡ net.now }
    requires sized { IsSized net.now table.old.moves }
    requires tracks { (before : Progress) × Takes before cell work.old × Tracks net.now table.old.moves before }
    ensures same { paths.new ≡ paths.old }
    ensures table { table.new.plan ≡ table.old.plan }
    ensures grows { Grows work.old work.new }
    ensures all { HasReacted (Follows net.now) cell work.old.done (found_in work.new) }
    ensures only { (found : ℕ) → Contains (found_in work.new) found →
        IsDerivable (GivenOrFollows (Follows net.now) (found_in work.old)) found }
    ensures sized { IsSized net.now table.new.moves }
    ensures tracks { Tracks net.now table.new.moves work.new }
{
    work.sound();
    react_to(net, paths, net.fact_at(cell), table, work, steps);
}
