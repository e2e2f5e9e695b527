// The moves of the writes of one result, at all packets that read what is written.
ghost use Rattle.std.specs.Prelude.{◌≡◌, ◌<◌, false, length};
ghost use Rattle.net_plan.specs.Plan.{packets_of, boxes_of};
ghost use Rattle.net_plan.specs.Cells.{cells_of};
ghost use Rattle.box_masks.specs.Writes.{IsMaskOf};
ghost use Rattle.box_moves.specs.Moves.{IsKept, IsSized};
ghost use Rattle.query_tables.specs.Tables.{tuples_in};
ghost use Rattle.query_tables.specs.Sites.{IsMember, IsSite, IsSiteAt, sites_at};
ghost use Rattle.move_table.specs.Kept.{keeps};
ghost use Rattle.move_table.specs.Marks.{AreMarks};
ghost use Rattle.move_table.specs.Moves.{AreFollowed, Noted, Patches};
ghost use Rattle.move_table.specs.Within.{NotedWithin, IsCovered, IsCoveredBy};

use crate::effect::{cut, effect_of};
use crate::kept::keeps;
use crate::laws::laws;
use crate::marks::{is_settled, mark};
use crate::notes::note_packet;
use crate::pairs::note_pairs;
use box_contents::Entry;
use box_masks::Write;
use box_moves::Moves;
use cell_sets::CellSet;
use fix_engine::Work;
use net_plan::Network;
use query_tables::{QueryTables, Site};

/// Notes all moves that the writes make, and offers what they make of all answers of the box that are done.
///
/// A packet that reads something that changes is at a site of each tuple of it that does. Where all of these stand at
/// queries that are fixed at one of these sites, its moves are those of the site: where they have marks, nothing is
/// visited. Any other packet is at two sites neither of which fixes what the other one does, and is visited for these.
pub fn note_update<S: CellSet>(
    net: &Network,
    tables: &QueryTables<'_>,
    b: u32,
    p: u32,
    v: u16,
    update: &[Write],
    moves: &mut Moves,
    marks: &mut Moves,
    work: &mut Work<S>,
)
    requires tables { tables.now.plan ≡ net.now }
    requires cells { work.old.cells ≡ cells_of net.now }
    requires sized { IsSized net.now moves.old }
    requires marks { AreMarks net.now tables.now moves.old marks.old }
    requires followed { AreFollowed net.now moves.old work.old }
    requires boxed { b < boxes_of net.now }
    requires kept { IsKept net.now b }
    requires packet { p < packets_of net.now }
    requires mask { IsMaskOf net.now b v }
    ensures noted { Noted net.now (Patches net.now b p v update.now) moves.old moves.new work.old work.new }
    ensures marks { AreMarks net.now tables.now moves.new marks.new }
{
    laws();
    tables.sound();
    for i in 0..update.len() {
        note_write(net, tables, b, p, v, update, i, moves, marks, work);
    }
    for i in 0..update.len() {
        note_pairs(net, tables, b, p, v, update, i, moves, work);
    }
}

// The moves at the sites of the tuple of one write, where it changes.
fn note_write<S: CellSet>(
    net: &Network,
    tables: &QueryTables<'_>,
    b: u32,
    p: u32,
    v: u16,
    update: &[Write],
    i: usize,
    moves: &mut Moves,
    marks: &mut Moves,
    work: &mut Work<S>,
)
    requires tables { tables.now.plan ≡ net.now }
    requires cells { work.old.cells ≡ cells_of net.now }
    requires sized { IsSized net.now moves.old }
    requires marks { AreMarks net.now tables.now moves.old marks.old }
    requires followed { AreFollowed net.now moves.old work.old }
    requires boxed { b < boxes_of net.now }
    requires kept { IsKept net.now b }
    requires packet { p < packets_of net.now }
    requires mask { IsMaskOf net.now b v }
    requires index { i < length update.now }
    ensures noted { NotedWithin net.now (IsCoveredBy net.now tables.now b p v update.now i)
        (Patches net.now b p v update.now) moves.old moves.new work.old work.new }
    ensures marks { AreMarks net.now tables.now moves.new marks.new }
{
    let entry = update[i].entry;
    if keeps(tables.tuples(b, p), v, update, entry) {
        return;
    }
    let numbers = tables.sites(b, entry);
    for number in numbers.from..numbers.to {
        note_site(net, tables, b, p, v, update, number, moves, marks, work);
    }
}

// The moves at the packets of a site, where nothing changes but what is fixed at it. Where marks don't say that they
// were noted, all packets of the site are visited.
fn note_site<S: CellSet>(
    net: &Network,
    tables: &QueryTables<'_>,
    b: u32,
    p: u32,
    v: u16,
    update: &[Write],
    number: u32,
    moves: &mut Moves,
    marks: &mut Moves,
    work: &mut Work<S>,
)
    requires tables { tables.now.plan ≡ net.now }
    requires cells { work.old.cells ≡ cells_of net.now }
    requires sized { IsSized net.now moves.old }
    requires marks { AreMarks net.now tables.now moves.old marks.old }
    requires followed { AreFollowed net.now moves.old work.old }
    requires boxed { b < boxes_of net.now }
    requires kept { IsKept net.now b }
    requires packet { p < packets_of net.now }
    requires mask { IsMaskOf net.now b v }
    requires number { number < length (sites_at tables.now b) }
    ensures noted { NotedWithin net.now (IsCovered net.now tables.now b p v update.now number)
        (Patches net.now b p v update.now) moves.old moves.new work.old work.new }
    ensures marks { AreMarks net.now tables.now moves.new marks.new }
{
    laws();
    net.sound();
    let _queries = net.queries(b);
    let site = tables.site(b, number);
    let whole = effect_of(tables.tuples(b, p), v, update, tables.tuples(b, site.first));
    let effect = cut(&whole, site.fixed);
    if is_settled(net, tables, b, number, &site, &effect, moves, marks) {
        return;
    }
    note_members(net, tables, b, p, v, update, number, &site, moves, work);
    mark(net, tables, b, number, &site, &effect, moves, marks);
}

// The moves at all packets of a site.
fn note_members<S: CellSet>(
    net: &Network,
    tables: &QueryTables<'_>,
    b: u32,
    p: u32,
    v: u16,
    update: &[Write],
    number: u32,
    site: &Site,
    moves: &mut Moves,
    work: &mut Work<S>,
)
    requires tables { tables.now.plan ≡ net.now }
    requires cells { work.old.cells ≡ cells_of net.now }
    requires sized { IsSized net.now moves.old }
    requires followed { AreFollowed net.now moves.old work.old }
    requires boxed { b < boxes_of net.now }
    requires kept { IsKept net.now b }
    requires packet { p < packets_of net.now }
    requires mask { IsMaskOf net.now b v }
    requires number { number < length (sites_at tables.now b) }
    requires at { IsSiteAt tables.now b number site.now }
    ensures { NotedWithin net.now
        (λ move. Patches net.now b p v update.now move × IsMember net.now b site.now move.packet)
        (Patches net.now b p v update.now) moves.old moves.new work.old work.new }
{
    let _site = site;
    for q in tables.members(b, number) {
        note_packet(net, tables, b, p, v, update, *q, moves, work);
    }
}
