// The moves that the writes of a result make, and what these make of answers of the box that are done.
ghost use Rattle.std.specs.Prelude.{◌≡◌, ◌<◌};
ghost use Rattle.net_plan.specs.declared.fact.Fact.TheVariants.{State};
ghost use Rattle.net_plan.specs.Plan.{packets_of, boxes_of};
ghost use Rattle.net_plan.specs.Cells.{cells_of};
ghost use Rattle.box_masks.specs.Writes.{IsMaskOf};
ghost use Rattle.box_moves.specs.Moves.{IsKept, IsSized, IsMove};
ghost use Rattle.query_tables.specs.Tables.{tuples_in};
ghost use Rattle.move_table.specs.Effect.{effect_over};
ghost use Rattle.move_table.specs.Moves.{Adds, AreFollowed, Noted, Patches};

use crate::effect::{Effect, effect_of, next_known, patched};
use crate::marks::masks_of;
use crate::offers::offer;
use box_masks::Write;
use box_moves::Moves;
use cell_sets::CellSet;
use fix_engine::Work;
use net_plan::{Fact, Network};
use query_tables::QueryTables;
use query_tables::masks::agree;

// Notes a move that changes the mask.
fn add_move(net: &Network, b: u32, q: u32, w: u16, after: u16, moves: &mut Moves)
    requires sized { IsSized net.now moves.old }
    requires kept { IsKept net.now b }
    requires is_move { IsMove net.now b q w after }
    ensures { Adds net.now (λ move. move ≡ record { box = b; packet = q; mask = w; other = after }) moves.old
        moves.new }
{
    if after != w {
        moves.add(net, b, q, w, after);
    }
}

// Notes a move, and offers what it makes of the answers where these are done.
fn note<S: CellSet>(
    net: &Network,
    b: u32,
    q: u32,
    w: u16,
    after: u16,
    moves: &mut Moves,
    work: &mut Work<S>,
)
    requires cells { work.old.cells ≡ cells_of net.now }
    requires sized { IsSized net.now moves.old }
    requires kept { IsKept net.now b }
    requires is_move { IsMove net.now b q w after }
    ensures { Noted net.now (λ move. move ≡ record { box = b; packet = q; mask = w; other = after }) moves.old moves.new
        work.old work.new }
{
    add_move(net, b, q, w, after, moves);
    if work.is_done(net.cell_of(Fact::State(b, q, w))) {
        offer(net, Fact::State(b, q, after), work);
    }
}

// Notes what writes make of answers, where some contents answer so and with `v` at `p`. What was noted before needs no
// look at the contents, since it is followed.
fn note_mask<S: CellSet>(
    net: &Network,
    tables: &QueryTables<'_>,
    b: u32,
    p: u32,
    v: u16,
    update: &[Write],
    q: u32,
    w: u16,
    effect: &Effect,
    moves: &mut Moves,
    work: &mut Work<S>,
)
    requires tables { tables.now.plan ≡ net.now }
    requires effect { effect.now ≡ effect_over (tuples_in net.now b p) v update.now (tuples_in net.now b q) }
    requires cells { work.old.cells ≡ cells_of net.now }
    requires sized { IsSized net.now moves.old }
    requires followed { AreFollowed net.now moves.old work.old }
    requires boxed { b < boxes_of net.now }
    requires kept { IsKept net.now b }
    requires packet { p < packets_of net.now }
    requires mask { IsMaskOf net.now b v }
    requires other { q < packets_of net.now }
    requires other_mask { IsMaskOf net.now b w }
    ensures { Noted net.now
        (λ move. (Patches net.now b p v update.now move × (move.packet ≡ q)) × (move.mask ≡ w))
        moves.old moves.new work.old work.new }
{
    let after = patched(net, b, update, q, w, effect);
    if after == w {
        return;
    }
    if moves.has(net, b, q, w, after) {
        return;
    }
    if agree(net, tables, b, p, v, q, w) {
        note(net, b, q, w, after, moves, work);
    }
}

/// Notes what writes make of any answers at a packet. Linear in the masks of the box.
pub fn note_packet<S: CellSet>(
    net: &Network,
    tables: &QueryTables<'_>,
    b: u32,
    p: u32,
    v: u16,
    update: &[Write],
    q: u32,
    moves: &mut Moves,
    work: &mut Work<S>,
)
    requires tables { tables.now.plan ≡ net.now }
    requires cells { work.old.cells ≡ cells_of net.now }
    requires sized { IsSized net.now moves.old }
    requires followed { AreFollowed net.now moves.old work.old }
    requires boxed { b < boxes_of net.now }
    requires kept { IsKept net.now b }
    requires packet { p < packets_of net.now }
    requires mask { IsMaskOf net.now b v }
    requires other { q < packets_of net.now }
    ensures { Noted net.now (λ move. Patches net.now b p v update.now move × (move.packet ≡ q)) moves.old moves.new
        work.old work.new }
{
    net.sound();
    let _queries = net.queries(b);
    let effect = effect_of(tables.tuples(b, p), v, update, tables.tuples(b, q));
    let masks = masks_of(net, b);
    let mut from = 0;
    while let Some(w) = next_known(effect.known, effect.bits, from, masks) {
        note_mask(net, tables, b, p, v, update, q, w, &effect, moves, work);
        from = w + 1;
    }
}
