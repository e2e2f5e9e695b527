//! From the bytes of a text to its tokens.
#![tactic(auto)]

mod front;
mod laws;
mod lexing;

pub use laws::one_answer;
pub use lexing::{LexRefusal, lex};
