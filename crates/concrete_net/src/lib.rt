//! The state of a simulated network, and its steps.
#![tactic(auto)]

mod arguments;
mod channels;
mod deliveries;
mod outputs;
mod ports;
mod refusal;
mod state;
mod steps;
mod tables;
mod taking;

pub use arguments::Arguments;
pub use net_runs::{Event, Mode, Step};
pub use refusal::StepRefusal;
pub use state::State;
