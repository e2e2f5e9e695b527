//! Tests of the crates below the program: of what no clause says, in a crate of their own, so that none is proved once
//! more for its tests.
#![tactic(auto)]

#[cfg(test)]
mod boxes;
#[cfg(test)]
mod failing_system;
#[cfg(test)]
mod fixpoints;
#[cfg(test)]
mod memory_and_system;
#[cfg(test)]
mod schedules;
#[cfg(test)]
mod sets_of_cells;
#[cfg(test)]
mod tokens;
#[cfg(test)]
mod trees;
