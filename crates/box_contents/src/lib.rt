//! The contents of a box: a set of entries, which contracts see as a rising list.
#![tactic(auto)]

mod contents;
mod entry;
mod laws;

pub use contents::{Contents, is_among};
pub use entry::Entry;
pub use laws::{
    held_is_member, held_with, held_without, rising_is_settled, with_keeps_rising,
    without_keeps_rising,
};
