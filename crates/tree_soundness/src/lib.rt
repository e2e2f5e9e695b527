//! A well-formed text has a network, and the network is sound.
#![tactic(auto)]

mod laws;

pub use laws::{cells_are_counted, well_formed_is_sound};
