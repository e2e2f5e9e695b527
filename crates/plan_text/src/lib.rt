//! The texts that are printed of a network, and the functions that append them to a buffer.
//!
//! Each of these answers want of memory as its only refusal, and then a front of its text was appended.
#![tactic(auto)]

mod counts;
mod digits;
mod findings;
pub mod laws;
mod lines;
mod messages;
mod refusal;
mod report;

pub use counts::put_counts;
pub use digits::Digits;
pub use findings::Findings;
pub use lines::{put_end, put_facts_line, put_network_line, put_packet};
pub use messages::{put_fault_load, put_missing, put_refused, usage};
pub use refusal::NetworkRefusal;
pub use report::{put_bad_line, put_report};
