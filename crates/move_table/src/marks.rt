// Marks for moves that were noted at all packets of a site.
ghost use Rattle.std.specs.Prelude.{◌≡◌, ◌<◌, ◌≤◌, ◌↔◌, List, IsTrue};
ghost use Rattle.box_contents.specs.declared.entry.Entry.{Entry};
ghost use Rattle.packet_state.specs.Answers.{answers};
ghost use Rattle.net_plan.specs.Plan.{packets_of, boxes_of};
ghost use Rattle.box_masks.specs.Writes.{IsMaskOf, AreContentsOf};
ghost use Rattle.box_moves.specs.Moves.{IsKept, IsSized, HasMove, masks_at};
ghost use Rattle.query_tables.specs.Sites.{IsSite, IsSiteAt};
ghost use Rattle.move_table.specs.Effect.{between};
ghost use Rattle.move_table.specs.Marks.{AllNoted, AreMarks, IsCut, IsNoted, IsNotedAt};
ghost use Rattle.move_table.specs.Marks.{Changes, ReachesOutside, StandsOutside};

use crate::effect::{Effect, next_known, overwritten};
use box_contents::Entry;
use box_moves::Moves;
use net_plan::Network;
use query_tables::masks::{agree, is_same};
use query_tables::{QueryTables, Site};

/// Whether marks say that all was noted of what the effect makes at the packets of a site. Linear in the masks.
pub fn is_settled(
    net: &Network,
    tables: &QueryTables<'_>,
    b: u32,
    number: u32,
    site: &Site,
    effect: &Effect,
    moves: &Moves,
    marks: &Moves,
) -> bool
    requires tables { tables.now.plan ≡ net.now }
    requires boxed { b < boxes_of net.now }
    requires kept { IsKept net.now b }
    requires at { IsSiteAt tables.now b number site.now }
    requires is { IsSite net.now b site.now }
    requires cut { IsCut site.now.fixed effect.now }
    requires marks { AreMarks net.now tables.now moves.now marks.now }
    ensures { IsTrue result → AllNoted net.now moves.now b site.now effect.now }
{
    net.sound();
    let _moves = moves;
    let _queries = net.queries(b);
    let masks = masks_of(net, b);
    let mut from = 0;
    while let Some(w) = next_known(effect.known | !site.fixed, effect.bits, from, masks) {
        if !is_marked(net, b, number, w, overwritten(w, effect), marks) {
            return false;
        }
        from = w + 1;
    }
    true
}

// Whether the move is none, or has a mark.
fn is_marked(net: &Network, b: u32, number: u32, w: u16, after: u16, marks: &Moves) -> bool
    requires boxed { b < boxes_of net.now }
    requires kept { IsKept net.now b }
    requires mask { IsMaskOf net.now b w }
    requires sized { IsSized net.now marks.now }
    ensures { IsTrue result → IsNoted net.now marks.now b number w after }
{
    after == w || has_move(net, b, number, w, after, marks)
}

// Whether the numbers are those of a move, and it was noted.
fn has_move(net: &Network, b: u32, q: u32, w: u16, after: u16, moves: &Moves) -> bool
    requires boxed { b < boxes_of net.now }
    requires kept { IsKept net.now b }
    requires mask { IsMaskOf net.now b w }
    requires sized { IsSized net.now moves.now }
    ensures { IsTrue result → HasMove net.now moves.now b q w after }
{
    net.sound();
    q < net.headers().count() && after < masks_of(net, b) && moves.has(net, b, q, w, after)
}

/// Marks what the effect makes at a site, where all of it was noted. Linear in the packets of the site times the masks.
pub fn mark(
    net: &Network,
    tables: &QueryTables<'_>,
    b: u32,
    number: u32,
    site: &Site,
    effect: &Effect,
    moves: &Moves,
    marks: &mut Moves,
)
    requires tables { tables.now.plan ≡ net.now }
    requires boxed { b < boxes_of net.now }
    requires kept { IsKept net.now b }
    requires at { IsSiteAt tables.now b number site.now }
    requires is { IsSite net.now b site.now }
    requires sized { IsSized net.now moves.now }
    requires marks { AreMarks net.now tables.now moves.now marks.old }
    ensures { AreMarks net.now tables.now moves.now marks.new }
{
    net.sound();
    let _queries = net.queries(b);
    let masks = masks_of(net, b);
    let mut from = 0;
    while let Some(w) = next_known(effect.known | !site.fixed, effect.bits, from, masks) {
        mark_one(
            net,
            tables,
            b,
            number,
            site,
            w,
            overwritten(w, effect),
            moves,
            marks,
        );
        from = w + 1;
    }
}

// Marks a move of the queries that are fixed at a site, where all of it was noted.
fn mark_one(
    net: &Network,
    tables: &QueryTables<'_>,
    b: u32,
    number: u32,
    site: &Site,
    w: u16,
    after: u16,
    moves: &Moves,
    marks: &mut Moves,
)
    requires tables { tables.now.plan ≡ net.now }
    requires boxed { b < boxes_of net.now }
    requires kept { IsKept net.now b }
    requires at { IsSiteAt tables.now b number site.now }
    requires is { IsSite net.now b site.now }
    requires mask { IsMaskOf net.now b w }
    requires sized { IsSized net.now moves.now }
    requires marks { AreMarks net.now tables.now moves.now marks.old }
    ensures { AreMarks net.now tables.now moves.now marks.new }
{
    net.sound();
    if number >= net.headers().count() || after >= masks_of(net, b) || after == w {
        return;
    }
    if marks.has(net, b, number, w, after) {
        return;
    }
    if all_noted(net, tables, b, number, site, w, after, moves) {
        marks.add(net, b, number, w, after);
    }
}

// Whether all was noted of what makes one mask of the queries that are fixed at a site the other one. A packet at which
// that would change a query that isn't fixed is asked for nothing.
fn all_noted(
    net: &Network,
    tables: &QueryTables<'_>,
    b: u32,
    number: u32,
    site: &Site,
    w: u16,
    after: u16,
    moves: &Moves,
) -> bool
    requires tables { tables.now.plan ≡ net.now }
    requires boxed { b < boxes_of net.now }
    requires kept { IsKept net.now b }
    requires at { IsSiteAt tables.now b number site.now }
    requires is { IsSite net.now b site.now }
    requires sized { IsSized net.now moves.now }
    ensures { IsTrue result → AllNoted net.now moves.now b site.now (between site.now.fixed w after) }
{
    net.sound();
    let _queries = net.queries(b);
    let effect = Effect {
        written: site.fixed,
        values: after,
        known: site.fixed,
        bits: w,
    };
    for q in tables.members(b, number) {
        if reaches_outside(tables.tuples(b, *q), site.fixed, w, after) {
            continue;
        }
        if !is_noted_at(net, tables, b, *q, &effect, moves) {
            return false;
        }
    }
    true
}

// Whether a tuple that changes where it is fixed stands where it isn't fixed too.
fn reaches_outside(tuples: &[Entry], fixed: u16, w: u16, after: u16) -> bool
    ensures { IsTrue result ↔ ReachesOutside fixed tuples.now w after }
{
    has_change(tuples, fixed, w, after, tuples, fixed)
}

// Whether a tuple that changes where it is fixed is one of the others, where it isn't fixed.
fn has_change(
    tuples: &[Entry],
    fixed: u16,
    w: u16,
    after: u16,
    others: &[Entry],
    queries: u16,
) -> bool
    ensures { IsTrue result ↔ Changes (StandsOutside queries others.now) fixed tuples.now w after }
{
    match tuples.split_first() {
        None => false,
        Some((tuple, rest)) => {
            (fixed % 2 == 1 && w % 2 != after % 2 && stands_outside(others, queries, *tuple))
                || has_change(rest, fixed / 2, w / 2, after / 2, others, queries)
        }
    }
}

// Whether the tuple is that of a query that isn't fixed.
fn stands_outside(tuples: &[Entry], fixed: u16, tuple: Entry) -> bool
    ensures { IsTrue result ↔ StandsOutside fixed tuples.now tuple }
{
    match tuples.split_first() {
        None => false,
        Some((other, rest)) => {
            (fixed % 2 == 0 && is_same(tuple, *other)) || stands_outside(rest, fixed / 2, tuple)
        }
    }
}

// Whether all was noted of what the effect makes at a packet.
fn is_noted_at(
    net: &Network,
    tables: &QueryTables<'_>,
    b: u32,
    q: u32,
    effect: &Effect,
    moves: &Moves,
) -> bool
    requires tables { tables.now.plan ≡ net.now }
    requires boxed { b < boxes_of net.now }
    requires kept { IsKept net.now b }
    requires packet { q < packets_of net.now }
    requires sized { IsSized net.now moves.now }
    ensures { IsTrue result → IsNotedAt net.now moves.now b effect.now q }
{
    net.sound();
    let _queries = net.queries(b);
    let masks = masks_of(net, b);
    let mut from = 0;
    while let Some(w) = next_known(effect.known, effect.bits, from, masks) {
        if !is_noted_from(net, tables, b, q, w, overwritten(w, effect), moves) {
            return false;
        }
        from = w + 1;
    }
    true
}

// Whether the move was noted, or is none, or no contents answer with its first mask.
fn is_noted_from(
    net: &Network,
    tables: &QueryTables<'_>,
    b: u32,
    q: u32,
    w: u16,
    after: u16,
    moves: &Moves,
) -> bool
    requires tables { tables.now.plan ≡ net.now }
    requires boxed { b < boxes_of net.now }
    requires kept { IsKept net.now b }
    requires packet { q < packets_of net.now }
    requires mask { IsMaskOf net.now b w }
    requires sized { IsSized net.now moves.now }
    ensures { IsTrue result → (contents : List Entry) → AreContentsOf net.now b contents →
        answers net.now b q contents ≡ w → IsNoted net.now moves.now b q w after }
{
    if after == w {
        return true;
    }
    if has_move(net, b, q, w, after, moves) {
        return true;
    }
    !agree(net, tables, b, q, w, q, w)
}

/// How many masks a box has.
pub fn masks_of(net: &Network, b: u32) -> u16
    requires { b < boxes_of net.now }
    ensures masks { result ≡ masks_at net.now b }
    ensures few { result ≤ 4096 }
{
    net.sound();
    2u16.pow(net.queries(b).len() as u32)
}
