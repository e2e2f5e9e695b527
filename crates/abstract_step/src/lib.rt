//! The abstract step of one box: the results of its handlers on a packet, from all contents that answer alike at it.
#![tactic(auto)]

mod fired;
mod found;
mod guards;
mod masks;
mod paths;
mod place;
mod put;
mod trail;
mod walk;

pub use fired::Fired;
pub use paths::Paths;
pub use put::Put;
