//! Masks over tuples.
ghost use Rattle.std.specs.Prelude.{◌≡◌, ◌≤◌, ◌<◌, ◌^◌, ◌/◌, ◌%◌, ◌↔◌, ◌&&◌, nat_eq, length, IsTrue, map};
ghost use Rattle.box_contents.specs.Contents.{holds_entry, same_entry};
ghost use Rattle.packet_state.specs.Answers.{mask_of};
ghost use Rattle.abstract_step.specs.Masks.{marked, mask_after, bit_after};

use box_contents::{Entry, held_is_member};

// Whether two entries are one.
fn is_same(one: Entry, two: Entry) -> bool
    ensures { result ≡ same_entry one two }
{
    one.relation == two.relation && one.tuple == two.tuple
}

// Whether a tuple with the lowest bit is the entry, and the bit is 1.
fn is_marked(mask: u16, entry: Entry, tuple: Entry) -> bool
    ensures { result ≡ (nat_eq (mask % 2) 1 && same_entry entry tuple) }
{
    mask % 2 == 1 && is_same(entry, tuple)
}

/// Whether a tuple with bit 1 is the entry. It looks at no tuple behind the last one with bit 1.
#[tactic(auto, using(crate::proofs::MaskLemmas::has_found, crate::proofs::MaskLemmas::has_not, crate::proofs::MaskLemmas::has_none, crate::proofs::MaskLemmas::has_no_more))]
pub(crate) fn has(tuples: &[Entry], mask: u16, entry: Entry) -> bool
    ensures { result ≡ holds_entry (marked tuples.now mask) entry }
{
    let mut rest = mask;
    for tuple in tuples {
        if rest == 0 {
            return false;
        }
        if is_marked(rest, entry, *tuple) {
            return true;
        }
        rest /= 2;
    }
    false
}

// A bit after a write.
fn written_bit(same: bool, add: bool, mask: u16) -> u16
    ensures bit { result ≡ bit_after same add (mask % 2) }
    ensures small { result ≤ 1 }
{
    if same {
        if add { 1 } else { 0 }
    } else {
        mask % 2
    }
}

/// The mask after a write. Linear in the tuples.
pub(crate) fn written(tuples: &[Entry], mask: u16, entry: Entry, add: bool) -> u16
    requires { length tuples.now ≤ 12 }
    ensures mask { result ≡ mask_after tuples.now mask entry add }
    ensures below { result < 2 ^ length tuples.now }
{
    match tuples.split_first() {
        Some((tuple, others)) => {
            let rest = written(others, mask / 2, entry, add);
            written_bit(is_same(*tuple, entry), add, mask) + 2 * rest
        }
        None => 0,
    }
}

/// Whether some contents answer with the mask: no tuple has bit 0 where it stands elsewhere with bit 1. Each tuple with
/// bit 0 is looked for among all.
pub(crate) fn is_consistent(tuples: &[Entry], mask: u16) -> bool
    requires { mask < 2 ^ length tuples.now }
    ensures { IsTrue result ↔ (mask_of (map (holds_entry (marked tuples.now mask)) tuples.now) ≡ mask) }
{
    held_is_member();
    let mut rest = mask;
    for tuple in tuples {
        if rest % 2 == 0 && has(tuples, mask, *tuple) {
            return false;
        }
        rest /= 2;
    }
    true
}
