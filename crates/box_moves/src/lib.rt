//! Which masks of a box may become which: a table of moves that grows, and answers exactly what was noted in it.
#![tactic(auto)]

mod moves;
mod numbers;

pub use moves::Moves;
pub use numbers::is_kept;
