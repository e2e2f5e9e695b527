//! How large handlers are, counted without expanding their picks.
#![tactic(auto)]

mod guards;
mod measure;
mod over;
mod size;

pub use over::{any_over_paths, over_literals, over_statements};
