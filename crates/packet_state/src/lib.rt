//! What follows from facts in a network with boxes, as relations over contents and executions, and why a closed set of
//! facts covers every run.
#![tactic(auto)]

pub mod laws;
