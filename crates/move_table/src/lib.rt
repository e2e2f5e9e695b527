//! What firings of handlers make of the answers of boxes, as moves from mask to mask: each firing is told to the table
//! once, and what its moves make of answers that are done is offered.
#![tactic(auto)]

mod effect;
mod kept;
mod laws;
mod marks;
mod notes;
mod offers;
mod pairs;
mod table;
mod update;

pub use offers::offer;
pub use table::MoveTable;
