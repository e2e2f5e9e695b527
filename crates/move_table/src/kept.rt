// Tuples that writes leave as they are.
ghost use Rattle.std.specs.Prelude.{◌≡◌, ◌&&◌};
ghost use Rattle.box_contents.specs.Contents.{same_entry};
ghost use Rattle.box_masks.specs.Bits.{is_one, bit_after};
ghost use Rattle.move_table.specs.Kept.{is_written, leaves, keeps};

use box_contents::Entry;
use box_masks::Write;
use query_tables::masks::{bit_after, is_same};

/// Whether the entry stays for contents that answer with the mask where the tuples are asked for.
pub fn keeps(tuples: &[Entry], v: u16, update: &[Write], entry: Entry) -> bool
    ensures { result ≡ keeps tuples.now v update.now entry }
{
    !is_written(update, entry) || leaves(tuples, v, update, entry)
}

/// Whether one of the writes is to the entry.
pub fn is_written(update: &[Write], entry: Entry) -> bool
    ensures { result ≡ is_written update.now entry }
{
    match update.split_first() {
        None => false,
        Some((write, rest)) => is_same(entry, write.entry) || is_written(rest, entry),
    }
}

// Whether the entry is one of the tuples, with a bit in the mask that the writes leave.
fn leaves(tuples: &[Entry], v: u16, update: &[Write], entry: Entry) -> bool
    ensures { result ≡ leaves tuples.now v update.now entry }
{
    match tuples.split_first() {
        None => false,
        Some((tuple, rest)) => {
            is_left(*tuple, v % 2 == 1, update, entry) || leaves(rest, v / 2, update, entry)
        }
    }
}

fn is_left(tuple: Entry, bit: bool, update: &[Write], entry: Entry) -> bool
    ensures { result ≡ (same_entry entry tuple && is_one bit (bit_after bit entry update.now)) }
{
    is_same(entry, tuple) && bit == bit_after(bit, entry, update)
}
