//! Checks the items of a network text by its rules, and makes the network that they spell.
#![tactic(auto)]

mod fault;
mod refusal;
mod seen;
mod tree;

pub use refusal::CheckRefusal;
pub use tree::check;
