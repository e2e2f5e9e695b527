// The moves at packets of two sites neither of which fixes what the other one does.
ghost use Rattle.std.specs.Prelude.{◌≡◌, ◌<◌, ◌↔◌, IsTrue, false, length};
ghost use Rattle.box_contents.specs.Contents.{same_entry};
ghost use Rattle.net_plan.specs.Plan.{packets_of, boxes_of};
ghost use Rattle.net_plan.specs.Cells.{cells_of};
ghost use Rattle.box_masks.specs.Writes.{IsMaskOf};
ghost use Rattle.box_moves.specs.Moves.{IsKept, IsSized};
ghost use Rattle.query_tables.specs.Tables.{tuples_in};
ghost use Rattle.query_tables.specs.Sites.{sites_at};
ghost use Rattle.move_table.specs.Kept.{keeps};
ghost use Rattle.move_table.specs.Moves.{AreFollowed, Patches};
ghost use Rattle.move_table.specs.Within.{AreNested, NotedWithin, IsShared, IsSharedBy, SharedBefore, SharedWith};

use crate::kept::keeps;
use crate::notes::note_packet;
use box_contents::Entry;
use box_masks::Write;
use box_moves::Moves;
use cell_sets::CellSet;
use fix_engine::Work;
use net_plan::Network;
use query_tables::QueryTables;
use query_tables::masks::is_same;

/// The moves at packets that read what the write of a number changes and what an earlier one does, at sites neither of
/// which fixes what the other one does.
pub fn note_pairs<S: CellSet>(
    net: &Network,
    tables: &QueryTables<'_>,
    b: u32,
    p: u32,
    v: u16,
    update: &[Write],
    i: usize,
    moves: &mut Moves,
    work: &mut Work<S>,
)
    requires tables { tables.now.plan ≡ net.now }
    requires cells { work.old.cells ≡ cells_of net.now }
    requires sized { IsSized net.now moves.old }
    requires followed { AreFollowed net.now moves.old work.old }
    requires boxed { b < boxes_of net.now }
    requires kept { IsKept net.now b }
    requires packet { p < packets_of net.now }
    requires mask { IsMaskOf net.now b v }
    requires index { i < length update.now }
    ensures { NotedWithin net.now (SharedBefore net.now tables.now b p v update.now i)
        (Patches net.now b p v update.now) moves.old moves.new work.old work.new }
{
    for j in 0..i {
        note_pair(net, tables, b, p, v, update, i, j, moves, work);
    }
}

// The moves for two writes, where both change something else.
fn note_pair<S: CellSet>(
    net: &Network,
    tables: &QueryTables<'_>,
    b: u32,
    p: u32,
    v: u16,
    update: &[Write],
    i: usize,
    j: usize,
    moves: &mut Moves,
    work: &mut Work<S>,
)
    requires tables { tables.now.plan ≡ net.now }
    requires cells { work.old.cells ≡ cells_of net.now }
    requires sized { IsSized net.now moves.old }
    requires followed { AreFollowed net.now moves.old work.old }
    requires boxed { b < boxes_of net.now }
    requires kept { IsKept net.now b }
    requires packet { p < packets_of net.now }
    requires mask { IsMaskOf net.now b v }
    requires index { i < length update.now }
    requires other { j < length update.now }
    ensures { NotedWithin net.now (IsSharedBy net.now tables.now b p v update.now i j)
        (Patches net.now b p v update.now) moves.old moves.new work.old work.new }
{
    let one = update[i].entry;
    let two = update[j].entry;
    let tuples = tables.tuples(b, p);
    if is_same(one, two) || keeps(tuples, v, update, one) || keeps(tuples, v, update, two) {
        return;
    }
    let numbers = tables.sites(b, one);
    for number in numbers.from..numbers.to {
        note_against(net, tables, b, p, v, update, number, two, moves, work);
    }
}

// The moves at packets of a site and of any site of a tuple.
fn note_against<S: CellSet>(
    net: &Network,
    tables: &QueryTables<'_>,
    b: u32,
    p: u32,
    v: u16,
    update: &[Write],
    one: u32,
    entry: Entry,
    moves: &mut Moves,
    work: &mut Work<S>,
)
    requires tables { tables.now.plan ≡ net.now }
    requires cells { work.old.cells ≡ cells_of net.now }
    requires sized { IsSized net.now moves.old }
    requires followed { AreFollowed net.now moves.old work.old }
    requires boxed { b < boxes_of net.now }
    requires kept { IsKept net.now b }
    requires packet { p < packets_of net.now }
    requires mask { IsMaskOf net.now b v }
    requires one { one < length (sites_at tables.now b) }
    ensures { NotedWithin net.now (SharedWith net.now tables.now b p v update.now one entry)
        (Patches net.now b p v update.now) moves.old moves.new work.old work.new }
{
    let numbers = tables.sites(b, entry);
    for other in numbers.from..numbers.to {
        note_common(net, tables, b, p, v, update, one, other, moves, work);
    }
}

// The moves at packets of two sites, where neither fixes what the other one does.
fn note_common<S: CellSet>(
    net: &Network,
    tables: &QueryTables<'_>,
    b: u32,
    p: u32,
    v: u16,
    update: &[Write],
    one: u32,
    other: u32,
    moves: &mut Moves,
    work: &mut Work<S>,
)
    requires tables { tables.now.plan ≡ net.now }
    requires cells { work.old.cells ≡ cells_of net.now }
    requires sized { IsSized net.now moves.old }
    requires followed { AreFollowed net.now moves.old work.old }
    requires boxed { b < boxes_of net.now }
    requires kept { IsKept net.now b }
    requires packet { p < packets_of net.now }
    requires mask { IsMaskOf net.now b v }
    requires one { one < length (sites_at tables.now b) }
    requires other { other < length (sites_at tables.now b) }
    ensures { NotedWithin net.now (IsShared net.now tables.now b p v update.now one other)
        (Patches net.now b p v update.now) moves.old moves.new work.old work.new }
{
    net.sound();
    if are_nested(tables.site(b, one).fixed, tables.site(b, other).fixed) {
        return;
    }
    let mut from = 0;
    while let Some(q) = tables.next_common(b, one, other, from) {
        note_packet(net, tables, b, p, v, update, q, moves, work);
        from = q + 1;
    }
}

// Whether one of the masks has all bits of the other.
fn are_nested(one: u16, other: u16) -> bool
    ensures { IsTrue result ↔ AreNested one other }
{
    one & other == one || one & other == other
}
