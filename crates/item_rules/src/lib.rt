//! The first rule that an item breaks that is no class, with the items before it.
#![tactic(auto)]

mod boxes;
mod ends;
mod forms;
mod header;
mod kinds;
mod laws;
mod links;
mod lookups;
mod names;
mod patterns;
mod tuples;

pub use boxes::{box_rule, host_rule};
pub use kinds::{field_rule, kind_rule};
pub use laws::cells_come_last;
pub use links::link_rule;
pub use patterns::{forbid_rule, sends_rule};
