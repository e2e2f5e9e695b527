//! Executions of handlers: what a guard is true of, and how the statements of a handler run on a packet and the
//! contents of a box, by which choices, to which outcome. There is no code here, only definitions, laws over them and
//! executions worked out by hand.
#![tactic(auto)]

mod examples;
mod laws;

pub use examples::{
    abort_ends_all, changes_swap, each_value_is_picked, gate_opens_once, insertion_is_seen,
};
pub use laws::{
    branch_begins, execution_is_determined, execution_uses_front, guard_meanings, handler_executes,
    outcome_is_in_range, statement_meanings, value_begins,
};
