//! The counts by which the cells of a text are told while its items are gone through.
#![tactic(auto)]

mod counted;

pub use counted::Counted;
