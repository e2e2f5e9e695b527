//! The canonical layout of a tree, appended to a buffer.
#![tactic(auto)]

mod append;
mod formatting;
mod guards;
mod items;
mod parts;
mod statements;

pub use formatting::format;
