//! A worked domain of the fixpoint: between which nodes of a small graph there is a path, once without and once with a
//! memory of what was handled, and what a closed set of paths says of walks in the graph.
#![tactic(auto)]

mod closure;
mod graph;
mod laws;
mod paths;
mod remembering;
mod walks;

pub use graph::{Edge, Graph};
pub use laws::{walk_by_hand, walk_returns_by_hand};
pub use remembering::Remembering;
pub use walks::{Walk, is_acyclic};
