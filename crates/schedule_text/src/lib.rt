//! Schedules: token lists read as steps by their names, with the place of the first token that fits no schedule,
//! the steps of a network that are named so, and the text of such steps.
#![tactic(auto)]

mod fault;
pub mod laws;
mod primitive;
mod reading;
mod refusal;
mod resolving;
mod small;
mod steps;
mod writing;

pub use reading::parse_schedule;
pub use refusal::{ResolveRefusal, ScheduleSyntax};
pub use resolving::resolve;
pub use steps::ScheduleStep;
pub use writing::write_schedule;
