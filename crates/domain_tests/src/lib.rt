//! Tests of the facts that the packet domain finds, against those that a plain fixpoint by the definitions finds, in a
//! crate of their own, so that none of the crates below is proved once more for its tests.
#![tactic(auto)]

#[cfg(test)]
mod comparing;
#[cfg(test)]
mod dice;
#[cfg(test)]
mod found;
#[cfg(test)]
mod made_boxes;
#[cfg(test)]
mod many_boxes;
#[cfg(test)]
mod pair_boxes;
#[cfg(test)]
mod plain;
#[cfg(test)]
mod small_boxes;
#[cfg(test)]
mod texts;
