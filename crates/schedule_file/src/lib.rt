//! From the bytes of the file of a schedule to what is told of its replay on a network.
#![tactic(auto)]

pub mod laws;
mod messages;
mod reading;
mod refusal;
mod replaying;

pub use messages::{put_refused, put_refused_step};
pub use reading::read;
pub use refusal::FileRefusal;
pub use replaying::{Told, told_of};
