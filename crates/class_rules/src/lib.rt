//! The rules of classes.
#![tactic(auto)]

mod arguments;
mod class_names;
mod counts;
mod expansion;
mod first;
mod read;
mod relations;
mod sizes;
mod types;
mod unknown;

pub use first::class_rule;
