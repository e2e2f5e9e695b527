//! Sets of cells, which are numbers below a count: what every such set does, and two of them, with one byte and with
//! one bit a cell.
#![tactic(auto)]

mod bit_set;
mod byte_set;
mod cell_set;
mod laws;
mod words;

pub use bit_set::BitSet;
pub use byte_set::ByteSet;
pub use cell_set::CellSet;
pub use laws::members_are_listed;

/// The set that facts are kept in.
pub type Facts = BitSet;
