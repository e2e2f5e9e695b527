//! The derivable facts of a network, by the fixpoint of the packet domain, and what a report tells of them.
#![tactic(auto)]

mod derived;

pub use derived::{derivable_facts, derived_findings};
