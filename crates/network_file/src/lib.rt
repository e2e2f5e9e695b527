//! From the bytes of a network file to its tree, and back.
#![tactic(auto)]

mod laws;
mod reading;
mod writing;

pub use laws::{layout_reads_back, one_reading};
pub use reading::{ReadRefusal, read};
pub use writing::write;
