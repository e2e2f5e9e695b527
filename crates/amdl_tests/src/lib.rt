//! Tests of the one call: of what no clause says, at the top, so that no crate is proved once more for its tests.
#![tactic(auto)]

#[cfg(test)]
mod analyse;
#[cfg(test)]
mod checking;
#[cfg(test)]
mod examples;
#[cfg(test)]
mod faults;
#[cfg(test)]
mod formatting;
#[cfg(test)]
mod limits;
#[cfg(test)]
mod networks;
#[cfg(test)]
mod pairs;
#[cfg(test)]
mod plain_texts;
#[cfg(test)]
mod refusals;
#[cfg(test)]
mod replaying;
#[cfg(test)]
mod rules;
#[cfg(test)]
mod texts;
