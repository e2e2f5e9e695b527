// The moves that the results of a fired handler make, and what these make of answers of the box that are done.
ghost use Rattle.std.specs.Prelude.{◌≡◌, ◌<◌, length};
ghost use Rattle.net_plan.specs.Plan.{packets_of, boxes_of};
ghost use Rattle.net_plan.specs.Cells.{cells_of};
ghost use Rattle.box_masks.specs.Writes.{IsMaskOf};
ghost use Rattle.box_moves.specs.Moves.{IsKept, IsSized};
ghost use Rattle.abstract_step.specs.Step.{result_at};
ghost use Rattle.move_table.specs.Offered.{Offered};
ghost use Rattle.move_table.specs.Moves.{Adds, AreFollowed, Noted};
ghost use Rattle.packet_domain.specs.Reasons.{ChangesAll};
ghost use Rattle.packet_domain.specs.Table.{ResultMoves, SomeMoves};

use crate::changes::change_all;
use abstract_step::Fired;
use box_moves::is_kept;
use cell_sets::CellSet;
use fix_engine::Work;
use move_table::MoveTable;
use net_plan::Network;

fn note_result<S: CellSet>(
    net: &Network,
    fired: &Fired,
    b: u32,
    p: u32,
    v: u16,
    i: usize,
    table: &mut MoveTable<'_>,
    work: &mut Work<S>,
)
    requires cells { work.old.cells ≡ cells_of net.now }
    requires table { table.old.plan ≡ net.now }
    requires sized { IsSized net.now table.old.moves }
    requires followed { AreFollowed net.now table.old.moves work.old }
    requires boxed { b < boxes_of net.now }
    requires kept { IsKept net.now b }
    requires packet { p < packets_of net.now }
    requires mask { IsMaskOf net.now b v }
    requires result { i < length fired.now }
    ensures table { table.new.plan ≡ table.old.plan }
    ensures noted { Noted net.now (ResultMoves net.now b p v (result_at fired.now i)) table.old.moves table.new.moves
        work.old work.new }
{
    if !fired.aborted(i) {
        table.note(b, p, v, fired.update(i), work);
    }
}

// Notes the moves that the results make, and offers what these make of all answers of the box that are done.
fn note_results<S: CellSet>(
    net: &Network,
    fired: &Fired,
    b: u32,
    p: u32,
    v: u16,
    table: &mut MoveTable<'_>,
    work: &mut Work<S>,
)
    requires cells { work.old.cells ≡ cells_of net.now }
    requires table { table.old.plan ≡ net.now }
    requires sized { IsSized net.now table.old.moves }
    requires followed { AreFollowed net.now table.old.moves work.old }
    requires boxed { b < boxes_of net.now }
    requires kept { IsKept net.now b }
    requires packet { p < packets_of net.now }
    requires mask { IsMaskOf net.now b v }
    ensures table { table.new.plan ≡ table.old.plan }
    ensures noted { Noted net.now (SomeMoves net.now b p v fired.now) table.old.moves table.new.moves work.old work.new }
{
    for i in 0..fired.len() {
        note_result(net, fired, b, p, v, i, table, work);
    }
}

/// Offers what the results make of all answers of the box that are done. In a box that is kept it notes the moves.
pub fn change_by_results<S: CellSet>(
    net: &Network,
    fired: &Fired,
    b: u32,
    p: u32,
    v: u16,
    table: &mut MoveTable<'_>,
    work: &mut Work<S>,
)
    requires cells { work.old.cells ≡ cells_of net.now }
    requires table { table.old.plan ≡ net.now }
    requires sized { IsSized net.now table.old.moves }
    requires followed { AreFollowed net.now table.old.moves work.old }
    requires boxed { b < boxes_of net.now }
    requires packet { p < packets_of net.now }
    requires mask { IsMaskOf net.now b v }
    ensures table { table.new.plan ≡ table.old.plan }
    ensures offered { Offered net.now (ChangesAll net.now work.old.done b p v fired.now) work.old work.new }
    ensures adds { Adds net.now (SomeMoves net.now b p v fired.now) table.old.moves table.new.moves }
    ensures followed { AreFollowed net.now table.new.moves work.new }
{
    if is_kept(net, b) {
        note_results(net, fired, b, p, v, table, work);
    } else {
        change_all(net, fired, b, p, v, work);
    }
}
