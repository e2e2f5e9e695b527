//! What a set of cells says of the facts of a network: how many there are of each kind, and which are bad.
#![tactic(auto)]

mod summary;

pub use summary::findings_of;
