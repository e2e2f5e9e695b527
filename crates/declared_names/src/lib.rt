//! The tables of the names that the items of a network text declare.
#![tactic(auto)]

mod declared;

pub use declared::Declared;
