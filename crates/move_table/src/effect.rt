// What writes do to the masks at a packet, as words with one bit a query.
ghost use Rattle.std.specs.Prelude.{◌≡◌, ℕ, ◌<◌, ◌≤◌, ◌^◌, List, length, MatchOption, bit_and};
ghost use Rattle.box_contents.specs.declared.entry.Entry.{Entry};
ghost use Rattle.net_plan.specs.Plan.{packets_of, boxes_of};
ghost use Rattle.packet_state.specs.Answers.{answers};
ghost use Rattle.box_masks.specs.Bits.{with_bit};
ghost use Rattle.box_masks.specs.Writes.{IsMaskOf, after_writes};
ghost use Rattle.query_tables.specs.Tables.{tuples_in};
ghost use Rattle.move_table.specs.Effect.{bit_in, with_tuple, effect_over, cut, overwritten};
ghost use Rattle.move_table.specs.Effect.{AreBelow, HasNoKnown, IsEffectOf};

use crate::kept::is_written;
use crate::laws::laws;
use box_contents::Entry;
use box_masks::Write;
use net_plan::Network;
use query_tables::masks::{bit_after, is_same};

/// What writes do to the bits of the queries at a packet: which bits are written, and with which values, and which are
/// known to a firing, and as what.
#[derive(Clone, Copy, PartialEq, Eq, Debug)]
pub struct Effect {
    pub(crate) written: u16,
    pub(crate) values: u16,
    pub(crate) known: u16,
    pub(crate) bits: u16,
}

/// The effect of the writes on the others, where the tuples have the bits of the mask. Linear in the others times the
/// writes and the tuples.
pub fn effect_of(tuples: &[Entry], v: u16, update: &[Write], others: &[Entry]) -> Effect
    requires few { length others.now ≤ 12 }
    ensures effect { result ≡ effect_over tuples.now v update.now others.now }
    ensures below { AreBelow (2 ^ length others.now) result }
{
    match others.split_first() {
        None => Effect {
            written: 0,
            values: 0,
            known: 0,
            bits: 0,
        },
        Some((other, rest)) => {
            let behind = effect_of(tuples, v, update, rest);
            let value = bit_after(false, *other, update);
            let known = bit_in(tuples, v, *other);
            with_tuple(behind, is_written(update, *other), value, known)
        }
    }
}

// The bit of the first of the tuples that is the entry, if there is one.
fn bit_in(tuples: &[Entry], v: u16, entry: Entry) -> Option<bool>
    ensures { result ≡ bit_in tuples.now v entry }
{
    match tuples.split_first() {
        None => None,
        Some((tuple, rest)) => {
            if is_same(entry, *tuple) {
                Some(v % 2 == 1)
            } else {
                bit_in(rest, v / 2, entry)
            }
        }
    }
}

// One query more below the others.
fn with_tuple(behind: Effect, written: bool, value: bool, known: Option<bool>) -> Effect
    requires { AreBelow (2 ^ 12) behind }
    ensures { result ≡ with_tuple behind written value known }
{
    Effect {
        written: with_bit(behind.written, written),
        values: with_bit(behind.values, value),
        known: with_bit(behind.known, known.is_some()),
        bits: with_bit(behind.bits, known == Some(true)),
    }
}

// The mask with a bit below it.
fn with_bit(mask: u16, bit: bool) -> u16
    requires { mask < 2 ^ 12 }
    ensures { result ≡ with_bit mask bit }
{
    2 * mask + u16::from(bit)
}

/// The effect on these queries alone.
pub fn cut(effect: &Effect, fixed: u16) -> Effect
    ensures { result ≡ cut effect.now fixed }
{
    Effect {
        written: effect.written & fixed,
        values: effect.values & fixed,
        known: effect.known & fixed,
        bits: effect.bits & fixed,
    }
}

/// The least mask from one on, below another, that has these bits at the queries that are known, if there is one.
/// Linear in the masks that are passed over, a few instructions each; where all queries are known, in nothing.
pub fn next_known(known: u16, bits: u16, from: u16, to: u16) -> Option<u16>
    ensures { MatchOption result (HasNoKnown known bits from to)
        (λ w. (from ≤ w) × (w < to) × (bit_and w known ≡ bits) × HasNoKnown known bits from w) }
{
    let first = if from < bits { bits } else { from };
    let last = bits | !known;
    for w in first..to {
        if last < w {
            return None;
        }
        if w & known == bits {
            return Some(w);
        }
    }
    None
}

/// The mask after the writes. A few instructions.
pub fn patched(net: &Network, b: u32, update: &[Write], q: u32, w: u16, effect: &Effect) -> u16
    requires boxed { b < boxes_of net.now }
    requires packet { q < packets_of net.now }
    requires mask { IsMaskOf net.now b w }
    requires effect { IsEffectOf update.now (tuples_in net.now b q) effect.now }
    ensures below { IsMaskOf net.now b result }
    ensures exact { (contents : List Entry) → answers net.now b q contents ≡ w →
        answers net.now b q (after_writes contents update.now) ≡ result }
{
    laws();
    net.sound();
    let _queries = net.queries(b);
    let _update = update;
    overwritten(w, effect)
}

/// The mask with the values in place of the bits that are written.
pub fn overwritten(w: u16, effect: &Effect) -> u16
    ensures mask { result ≡ overwritten w effect.now }
    ensures small { result < 2 ^ 16 }
{
    (w & !effect.written) | effect.values
}
