//! The packet domain of the fixpoint: which packets may be put out, how boxes may answer, and where they may abort.
#![tactic(auto)]

mod abstraction;
mod changed;
mod changes;
mod delivered;
mod domain;
mod done;
mod inlet;
pub mod laws;
mod notes;
mod offers;
mod react;
mod starts;

pub use abstraction::Transition;
pub use domain::PacketDomain;
