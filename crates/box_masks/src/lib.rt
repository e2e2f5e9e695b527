//! The answers of a box as masks: those of its contents, which masks contents show, and masks after writes.
#![tactic(auto)]

mod masks;
mod write;

pub use masks::{agree, answers, first_answers, patch};
pub use write::Write;
