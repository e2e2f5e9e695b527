//! The one call that does all that the program does.
#![tactic(auto)]

mod analyse;
mod answer;
mod checking;
mod command;
mod formatting;
pub mod laws;
mod load;
mod output;
mod program;
mod replaying;
mod simulated;
mod spelling;

pub use program::run;
