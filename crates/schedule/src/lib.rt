//! Schedules of a network: token lists read as its steps, and the text that tells what steps do.
#![tactic(auto)]

pub mod laws;
mod lines;
mod reading;
mod refusal;
mod replayed;
mod replaying;

pub use lines::{is_bad_event, put_end_line, put_event_line};
pub use reading::read_schedule;
pub use refusal::ScheduleRefusal;
pub use replayed::{ReplayRefusal, Replayed};
pub use replaying::replay;
