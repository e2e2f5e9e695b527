//! The generic fixpoint, which finds all cells that can be derived by the rules of a domain, and what a closed set of
//! cells says of the runs of an abstraction. Both hold for every domain and every set of cells.
#![tactic(auto)]

mod abstraction;
mod domain;
mod fixpoint;
mod work;

pub use abstraction::{Abstraction, safe_runs};
pub use domain::AbstractDomain;
pub use fixpoint::{least, least_set};
pub use work::Work;
