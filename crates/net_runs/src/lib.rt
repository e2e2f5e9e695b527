//! States, steps and runs of a network with boxes, and what holds of them.
#![tactic(auto)]

pub mod laws;
mod world;

pub use world::{Event, Mode, Step, World};
