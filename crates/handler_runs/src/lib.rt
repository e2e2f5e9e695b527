//! Runs of one handler of a box by a list of choices.
#![tactic(auto)]

mod acts;
mod guards;
mod handling;
mod progress;
mod setting;
mod terms;

pub use handling::{Ending, ExecuteRefusal, execute};
pub use progress::Emission;
