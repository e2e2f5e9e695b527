//! The rules that the items of a network text keep.
#![tactic(auto)]

mod laws;
mod opened;
mod rule;
mod walk;

pub use laws::{one_answer, rules_are_found, rules_by_hand, uses_are_read};
pub use opened::Opened;
pub use rule::Rule;
pub use walk::{UseTest, any_use};
