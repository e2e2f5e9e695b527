//! The code that answers the network that the items of a text spell, and the tables of what they declare.
#![tactic(auto)]

mod boxes;
mod classes;
mod fields;
mod items;
mod links;
mod names;
mod nodes;
mod patterns;
mod plan;

pub use fields::field_names;
pub use plan::{class_plan, kind_table, plan_of};
