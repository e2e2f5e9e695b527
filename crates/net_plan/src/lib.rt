//! The numbered network: its plan, ends and facts, what follows in it and what is bad.
#![tactic(auto)]

mod fact;
pub mod laws;
mod network;
mod plan;
mod tables;

pub use box_contents::Entry;
pub use box_handlers::{Act, Branch, Change, Probe, Query, Term, Test};
pub use fact::{Fact, Place, precedes};
pub use header_set::{Headers, Pattern};
pub use network::Network;
pub use plan::{BoxPlan, ClassPlan, FieldPlan, HostPlan, KindPlan, LinkPlan, Plan, RelationPlan};
