//! Many small boxes, of which the facts are compared.
use crate::comparing::{Outcome, Verdict, report};
use crate::made_boxes::made_text;
use crate::pair_boxes::pair_text;
use amdl_tree::NoMemory;
use std::alloc::{AllocError, Global};
use std::test::Fail;

/// What came of the networks so far, each with a number. How many are rich is counted by the plain fixpoint.
#[derive(Clone, Copy, Debug)]
struct Tally {
    /// How many weren't found alike.
    wrong: u32,
    /// The first of them.
    first: u32,
    /// How many have more than thirty answers beside the first ones.
    rich: u32,
}

impl Tally {
    fn new() -> Tally {
        Tally {
            wrong: 0,
            first: 0,
            rich: 0,
        }
    }

    fn put(&mut self, number: u32, outcome: Result<Outcome, NoMemory>) {
        match outcome {
            Ok(outcome) => {
                if outcome.verdict == Verdict::Different || outcome.verdict == Verdict::NoNetwork {
                    self.put_wrong(number);
                }
                if outcome.more > 30 {
                    self.rich = self.rich.wrapping_add(1);
                }
            }
            Err(_) => self.put_wrong(number),
        }
    }

    // Whether all were found alike, and as many are rich.
    fn is_right(&self, rich: u32) -> bool {
        self.wrong == 0 && self.rich == rich
    }

    fn put_wrong(&mut self, number: u32) {
        if self.wrong == 0 {
            self.first = number;
        }
        self.wrong = self.wrong.wrapping_add(1);
    }
}

// What comes of the networks of a round, one of each kind.
fn tally_of(alloc: Global, round: u32) -> Result<Tally, AllocError> {
    let mut tally = Tally::new();
    for kind in 0..16 {
        let number = round.wrapping_mul(16).wrapping_add(kind);
        let text = made_text(alloc, number)?;
        tally.put(number, report(alloc, text.as_str()));
    }
    Ok(tally)
}

// What comes of the networks with pairs of writes.
fn tally_of_pairs(alloc: Global) -> Result<Tally, AllocError> {
    let mut tally = Tally::new();
    for number in 0..48 {
        let text = pair_text(alloc, number)?;
        tally.put(number, report(alloc, text.as_str()));
    }
    Ok(tally)
}

#[test]
fn what_boxes_of_the_first_round_find_is_the_same(rt: HostRuntime) -> Result<(), Fail> {
    let tally = tally_of(rt.alloc(), 0)?;
    assert!(rt; tally.is_right(5), "{:?}", tally);
    Ok(())
}

#[test]
fn what_boxes_of_the_second_round_find_is_the_same(rt: HostRuntime) -> Result<(), Fail> {
    let tally = tally_of(rt.alloc(), 1)?;
    assert!(rt; tally.is_right(6), "{:?}", tally);
    Ok(())
}

#[test]
fn what_boxes_of_the_third_round_find_is_the_same(rt: HostRuntime) -> Result<(), Fail> {
    let tally = tally_of(rt.alloc(), 2)?;
    assert!(rt; tally.is_right(4), "{:?}", tally);
    Ok(())
}

#[test]
fn what_boxes_of_the_fourth_round_find_is_the_same(rt: HostRuntime) -> Result<(), Fail> {
    let tally = tally_of(rt.alloc(), 3)?;
    assert!(rt; tally.is_right(3), "{:?}", tally);
    Ok(())
}

#[test]
fn what_boxes_of_the_fifth_round_find_is_the_same(rt: HostRuntime) -> Result<(), Fail> {
    let tally = tally_of(rt.alloc(), 4)?;
    assert!(rt; tally.is_right(6), "{:?}", tally);
    Ok(())
}

#[test]
fn what_boxes_of_the_sixth_round_find_is_the_same(rt: HostRuntime) -> Result<(), Fail> {
    let tally = tally_of(rt.alloc(), 5)?;
    assert!(rt; tally.is_right(4), "{:?}", tally);
    Ok(())
}

#[test]
fn what_boxes_of_the_seventh_round_find_is_the_same(rt: HostRuntime) -> Result<(), Fail> {
    let tally = tally_of(rt.alloc(), 6)?;
    assert!(rt; tally.is_right(5), "{:?}", tally);
    Ok(())
}

#[test]
fn what_boxes_with_pairs_of_writes_find_is_the_same(rt: HostRuntime) -> Result<(), Fail> {
    let tally = tally_of_pairs(rt.alloc())?;
    assert!(rt; tally.is_right(1), "{:?}", tally);
    Ok(())
}
