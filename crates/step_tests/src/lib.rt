//! Tests of the abstract step of a box, of agreeing answers and of answers after writes, against results worked out by
//! hand and against all executions of small boxes, in a crate of their own, so that none of those crates is proved
//! once more for its tests.
#![tactic(auto)]

#[cfg(test)]
mod comparing;
#[cfg(test)]
mod executions;
#[cfg(test)]
mod small_boxes;
#[cfg(test)]
mod texts;
#[cfg(test)]
mod twins;
