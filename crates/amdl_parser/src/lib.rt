//! Token lists read as trees, with the place of the first token that fits no tree.
#![tactic(auto)]

mod fault;
mod guards;
mod items;
mod laws;
mod lists;
mod network;
mod primitive;
mod reading;
mod refusal;
mod small;
mod statements;

pub use laws::one_answer;
pub use reading::parse;
pub use refusal::SyntaxRefusal;
