//! Tables of names, each numbered by its place.
#![tactic(auto)]

mod key;
mod map;
mod repeating;
mod table;

pub use map::NameMap;
pub use repeating::repeats;
pub use table::NameTable;
