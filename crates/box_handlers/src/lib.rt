//! Handlers of boxes with numbers in place of names, and their one reading as plain data: a block is a statement with
//! the rest behind it, and a guard a formula. What a handler asks, and how large it is, go by cases on that reading.
#![tactic(auto)]

mod act;
mod laws;

pub use act::{Act, Branch, Change, Probe, Query, Term, Test};
pub use laws::{
    bodies_are_read, filled_has_same_tuple, formulas_are_read, nested_queries, nested_sizes,
    queries_differ, queries_fit, queries_hold_all_asked, queries_name_no_pick, same_query_is_equal,
    tuples_by_hand,
};
