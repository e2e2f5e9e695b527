//! Masks of the queries of a box at its packets.
ghost use Rattle.std.specs.Prelude.{◌≡◌, ℕ, ◌<◌, ◌≤◌, ◌^◌, ◌↔◌, List, [], length, IsTrue, All};
ghost use Rattle.box_contents.specs.declared.entry.Entry.{Entry};
ghost use Rattle.box_contents.specs.Contents.{IsRising, same_entry};
ghost use Rattle.net_plan.specs.Plan.{packets_of, boxes_of, box_at};
ghost use Rattle.net_plan.specs.Reading.{QueryFitsAt};
ghost use Rattle.packet_state.specs.Answers.{class_of_box, answers};
ghost use Rattle.box_masks.specs.Writes.{AreShown, IsMaskOf, IsPatched, after_writes};
ghost use Rattle.box_masks.specs.Bits.{tuples_at, answers_over, is_alike, has_bits, agrees, are_consistent, bit_after, with_bit, patched};

use crate::write::Write;
use box_contents::{
    Contents, Entry, held_with, held_without, is_among, with_keeps_rising, without_keeps_rising,
};
use header_set::laws::fields_are_below_sizes;
use net_plan::{Network, Query};

/// The answers of contents of a box at a packet: bit k is 1 exactly where the contents hold the tuple of query k
/// there. It takes no memory. Linear in the queries, each with a search of the contents.
pub fn answers(net: &Network, b: u32, contents: &Contents, p: u32) -> u16
    requires boxed { b < boxes_of net.now }
    requires packet { p < packets_of net.now }
    ensures { result ≡ answers net.now b p contents.now }
{
    answers_of(net, b, net.queries(b), contents.entries(), p)
}

/// The answers of the first contents of a box at a packet. It takes no memory. Linear in the queries, each with a
/// search of these contents.
pub fn first_answers(net: &Network, b: u32, p: u32) -> u16
    requires boxed { b < boxes_of net.now }
    requires packet { p < packets_of net.now }
    ensures { result ≡ answers net.now b p (box_at net.now b).first }
{
    answers_of(net, b, net.queries(b), net.first_entries(b), p)
}

/// Whether some contents of a box answer with the mask `v` at packet `p` and with `w` at `q`. It takes no memory.
/// Quadratic in the queries.
pub fn agree(net: &Network, b: u32, p: u32, v: u16, q: u32, w: u16) -> bool
    requires boxed { b < boxes_of net.now }
    requires packet { p < packets_of net.now }
    requires mask { IsMaskOf net.now b v }
    requires other { q < packets_of net.now }
    requires other_mask { IsMaskOf net.now b w }
    ensures { IsTrue result ↔ AreShown net.now b p v q w }
{
    net.sound();
    fields_are_below_sizes();
    with_keeps_rising();
    without_keeps_rising();
    held_with();
    let queries = net.queries(b);
    are_consistent(net, b, queries, p, v, q, w)
}

/// The mask after writes: bit k is what the last write to the tuple of query k at packet `q` does, or bit k of `w`
/// where there is none. It takes no memory. Linear in the writes times the queries.
///
/// So it is the mask with which contents answer after the writes that answer with `w` before.
pub fn patch(net: &Network, b: u32, update: &[Write], q: u32, w: u16) -> u16
    requires boxed { b < boxes_of net.now }
    requires packet { q < packets_of net.now }
    requires mask { IsMaskOf net.now b w }
    ensures below { IsMaskOf net.now b result }
    ensures bits { IsPatched net.now b update.now q w result }
    ensures exact { (contents : List Entry) → answers net.now b q contents ≡ w →
        answers net.now b q (after_writes contents update.now) ≡ result }
{
    held_with();
    held_without();
    patched(net, b, net.queries(b), update, q, w)
}

// The answers of these entries to these queries, the lowest bit first.
fn answers_of(net: &Network, b: u32, queries: &[Query], entries: &[Entry], p: u32) -> u16
    requires boxed { b < boxes_of net.now }
    requires packet { p < packets_of net.now }
    requires few { length queries.now ≤ 12 }
    requires fit { All (QueryFitsAt net.now (class_of_box net.now b) []) queries.now }
    requires rising { IsRising entries.now }
    ensures mask { result ≡ answers_over entries.now (tuples_at net.now b p queries.now) }
    ensures below { result < 2 ^ length queries.now }
{
    match queries.split_first() {
        None => 0,
        Some((query, rest)) => {
            let bit = is_among(entries, net.tuple_at(b, query, p, &[]));
            with_bit(answers_of(net, b, rest, entries, p), bit)
        }
    }
}

// Whether no tuple of the queries has different bits, in one of the masks or in both.
fn are_consistent(net: &Network, b: u32, queries: &[Query], p: u32, v: u16, q: u32, w: u16) -> bool
    requires boxed { b < boxes_of net.now }
    requires packet { p < packets_of net.now }
    requires other { q < packets_of net.now }
    requires queries { queries.now ≡ (class_of_box net.now b).queries }
    requires fit { All (QueryFitsAt net.now (class_of_box net.now b) []) queries.now }
    ensures { result ≡ are_consistent (tuples_at net.now b p (class_of_box net.now b).queries) v
        (tuples_at net.now b q (class_of_box net.now b).queries) w }
{
    masks_agree(net, b, queries, p, v, p, v)
        && masks_agree(net, b, queries, q, w, q, w)
        && masks_agree(net, b, queries, p, v, q, w)
}

// Whether no tuple of these queries has different bits in the two masks.
fn masks_agree(net: &Network, b: u32, queries: &[Query], p: u32, v: u16, q: u32, w: u16) -> bool
    requires boxed { b < boxes_of net.now }
    requires packet { p < packets_of net.now }
    requires other { q < packets_of net.now }
    requires fit { All (QueryFitsAt net.now (class_of_box net.now b) []) queries.now }
    ensures { result ≡ agrees (tuples_at net.now b p queries.now) v
        (tuples_at net.now b q (class_of_box net.now b).queries) w }
{
    match queries.split_first() {
        None => true,
        Some((query, rest)) => {
            let tuple = net.tuple_at(b, query, p, &[]);
            has_bits(net, b, net.queries(b), q, w, tuple, v % 2 == 1)
                && masks_agree(net, b, rest, p, v / 2, q, w)
        }
    }
}

// Whether each of these queries whose tuple is the entry has this bit in the mask.
fn has_bits(
    net: &Network,
    b: u32,
    queries: &[Query],
    p: u32,
    mask: u16,
    entry: Entry,
    bit: bool,
) -> bool
    requires boxed { b < boxes_of net.now }
    requires packet { p < packets_of net.now }
    requires fit { All (QueryFitsAt net.now (class_of_box net.now b) []) queries.now }
    ensures { result ≡ has_bits (tuples_at net.now b p queries.now) mask entry bit }
{
    match queries.split_first() {
        None => true,
        Some((query, rest)) => {
            let tuple = net.tuple_at(b, query, p, &[]);
            is_alike(tuple, mask % 2 == 1, entry, bit)
                && has_bits(net, b, rest, p, mask / 2, entry, bit)
        }
    }
}

fn is_alike(tuple: Entry, one: bool, entry: Entry, two: bool) -> bool
    ensures { result ≡ is_alike tuple one entry two }
{
    !is_same(entry, tuple) || one == two
}

fn is_same(one: Entry, two: Entry) -> bool
    ensures { result ≡ same_entry one two }
{
    one == two
}

// The mask of these queries after the writes.
fn patched(net: &Network, b: u32, queries: &[Query], update: &[Write], q: u32, w: u16) -> u16
    requires boxed { b < boxes_of net.now }
    requires packet { q < packets_of net.now }
    requires few { length queries.now ≤ 12 }
    requires fit { All (QueryFitsAt net.now (class_of_box net.now b) []) queries.now }
    ensures mask { result ≡ patched (tuples_at net.now b q queries.now) update.now w }
    ensures below { result < 2 ^ length queries.now }
{
    match queries.split_first() {
        None => 0,
        Some((query, rest)) => {
            let bit = bit_after(w % 2 == 1, net.tuple_at(b, query, q, &[]), update);
            with_bit(patched(net, b, rest, update, q, w / 2), bit)
        }
    }
}

// The bit of the entry after the writes.
fn bit_after(bit: bool, entry: Entry, update: &[Write]) -> bool
    ensures { result ≡ bit_after bit entry update.now }
{
    let mut now = bit;
    for write in update {
        if is_same(entry, write.entry) {
            now = write.add;
        }
    }
    now
}

// The mask with a bit below it.
fn with_bit(mask: u16, bit: bool) -> u16
    requires { mask < 2 ^ 12 }
    ensures { result ≡ with_bit mask bit }
{
    2 * mask + u16::from(bit)
}
