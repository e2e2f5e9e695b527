//! Masks of the queries of a box at its packets, by the tables.
ghost use Rattle.std.specs.Prelude.{◌≡◌, ℕ, ◌<◌, ◌≤◌, ◌^◌, ◌↔◌, List, [], length, IsTrue};
ghost use Rattle.box_contents.specs.declared.entry.Entry.{Entry};
ghost use Rattle.box_contents.specs.Contents.{same_entry};
ghost use Rattle.net_plan.specs.Plan.{packets_of, boxes_of};
ghost use Rattle.packet_state.specs.Answers.{answers};
ghost use Rattle.box_masks.specs.Writes.{AreShown, IsMaskOf, after_writes};
ghost use Rattle.query_tables.specs.Sites.{bits_of};
ghost use Rattle.query_tables.specs.Spots.{alike};
ghost use Rattle.box_masks.specs.Bits.{is_alike, has_bits, agrees, are_consistent, bit_after, with_bit, patched};

use crate::tables::QueryTables;
use box_contents::{Entry, held_with, held_without, with_keeps_rising, without_keeps_rising};
use box_masks::Write;
use header_set::laws::fields_are_below_sizes;
use net_plan::Network;

/// Whether some contents of a box answer with the mask `v` at packet `p` and with `w` at `q`. It takes no memory.
/// Quadratic in the queries.
pub fn agree(
    net: &Network,
    tables: &QueryTables<'_>,
    b: u32,
    p: u32,
    v: u16,
    q: u32,
    w: u16,
) -> bool
    requires tables { tables.now.plan ≡ net.now }
    requires boxed { b < boxes_of net.now }
    requires packet { p < packets_of net.now }
    requires mask { IsMaskOf net.now b v }
    requires other { q < packets_of net.now }
    requires other_mask { IsMaskOf net.now b w }
    ensures { IsTrue result ↔ AreShown net.now b p v q w }
{
    net.sound();
    fields_are_below_sizes();
    with_keeps_rising();
    without_keeps_rising();
    held_with();
    let _queries = net.queries(b);
    are_consistent(tables.tuples(b, p), v, tables.tuples(b, q), w)
}

/// The mask after writes: the one with which contents answer at packet `q` after the writes that answer with `w`
/// before. It takes no memory. Linear in the writes times the queries.
pub fn patch(
    net: &Network,
    tables: &QueryTables<'_>,
    b: u32,
    update: &[Write],
    q: u32,
    w: u16,
) -> u16
    requires tables { tables.now.plan ≡ net.now }
    requires boxed { b < boxes_of net.now }
    requires packet { q < packets_of net.now }
    requires mask { IsMaskOf net.now b w }
    ensures below { IsMaskOf net.now b result }
    ensures exact { (contents : List Entry) → answers net.now b q contents ≡ w →
        answers net.now b q (after_writes contents update.now) ≡ result }
{
    net.sound();
    held_with();
    held_without();
    let _queries = net.queries(b);
    patched(tables.tuples(b, q), update, w)
}

/// The bit of the entry after the writes. Linear in the writes.
pub fn bit_after(bit: bool, entry: Entry, update: &[Write]) -> bool
    ensures { result ≡ bit_after bit entry update.now }
{
    let mut now = bit;
    for write in update {
        if is_same(entry, write.entry) {
            now = write.add;
        }
    }
    now
}

/// Whether two entries are one.
pub fn is_same(one: Entry, two: Entry) -> bool
    ensures { result ≡ same_entry one two }
{
    one == two
}

/// The queries that have the tuple, as bits. Linear in the tuples.
pub fn bits_of(entry: Entry, tuples: &[Entry]) -> u16
    requires few { length tuples.now ≤ 12 }
    ensures bits { result ≡ bits_of entry tuples.now }
    ensures below { result < 2 ^ length tuples.now }
{
    match tuples.split_first() {
        None => 0,
        Some((tuple, rest)) => with_bit(bits_of(entry, rest), is_same(entry, *tuple)),
    }
}

/// The places at which two lists have one and the same tuple, as bits. Linear in the tuples.
pub fn alike(one: &[Entry], other: &[Entry]) -> u16
    requires few { length one.now ≤ 12 }
    ensures bits { result ≡ alike one.now other.now }
    ensures below { result < 2 ^ length one.now }
{
    match one.split_first() {
        None => 0,
        Some((tuple, rest)) => match other.split_first() {
            None => 0,
            Some((other_tuple, others)) => {
                with_bit(alike(rest, others), is_same(*tuple, *other_tuple))
            }
        },
    }
}

// Whether no tuple has different bits, in one of the masks or in both.
fn are_consistent(one: &[Entry], v: u16, two: &[Entry], w: u16) -> bool
    ensures { result ≡ are_consistent one.now v two.now w }
{
    masks_agree(one, v, one, v) && masks_agree(two, w, two, w) && masks_agree(one, v, two, w)
}

// Whether no tuple has different bits in the two masks.
fn masks_agree(one: &[Entry], v: u16, two: &[Entry], w: u16) -> bool
    ensures { result ≡ agrees one.now v two.now w }
{
    match one.split_first() {
        None => true,
        Some((tuple, rest)) => {
            has_bits(two, w, *tuple, v % 2 == 1) && masks_agree(rest, v / 2, two, w)
        }
    }
}

// Whether each of the tuples that is the entry has this bit in the mask.
fn has_bits(tuples: &[Entry], mask: u16, entry: Entry, bit: bool) -> bool
    ensures { result ≡ has_bits tuples.now mask entry bit }
{
    match tuples.split_first() {
        None => true,
        Some((tuple, rest)) => {
            is_alike(*tuple, mask % 2 == 1, entry, bit) && has_bits(rest, mask / 2, entry, bit)
        }
    }
}

fn is_alike(tuple: Entry, one: bool, entry: Entry, two: bool) -> bool
    ensures { result ≡ is_alike tuple one entry two }
{
    !is_same(entry, tuple) || one == two
}

// The mask over these tuples after the writes.
fn patched(tuples: &[Entry], update: &[Write], w: u16) -> u16
    requires few { length tuples.now ≤ 12 }
    ensures mask { result ≡ patched tuples.now update.now w }
    ensures below { result < 2 ^ length tuples.now }
{
    match tuples.split_first() {
        None => 0,
        Some((tuple, rest)) => {
            let bit = bit_after(w % 2 == 1, *tuple, update);
            with_bit(patched(rest, update, w / 2), bit)
        }
    }
}

// The mask with a bit below it.
fn with_bit(mask: u16, bit: bool) -> u16
    requires { mask < 2 ^ 12 }
    ensures { result ≡ with_bit mask bit }
{
    2 * mask + u16::from(bit)
}
