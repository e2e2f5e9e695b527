//! The facts that the packet domain finds, compared with those of the plain fixpoint.
ghost use Rattle.std.specs.Prelude.{◌≡◌, ◌<◌};

use crate::found::Found;
use crate::plain::found_plainly;
use crate::texts::network_of;
use amdl_tree::NoMemory;
use cell_sets::{BitSet, CellSet};
use fix_engine::least_set;
use net_plan::{Fact, Network};
use packet_domain::PacketDomain;
use std::alloc::Global;
use std::marker::Brand;
use std::sync::ledger::{Blank, Ledger};
use step_count::Steps;

/// How the facts of a text are found.
#[derive(Clone, Copy, PartialEq, Eq, Debug)]
pub(crate) enum Verdict {
    /// By both alike, and there are answers that aren't the first ones.
    Same,
    /// By both alike, and no answers change.
    Still,
    /// By one and not by the other, or by neither.
    Different,
    /// The text is no network.
    NoNetwork,
}

/// A verdict, and how many answers are found beside the first ones.
#[derive(Clone, Copy, PartialEq, Eq, Debug)]
pub(crate) struct Outcome {
    pub(crate) verdict: Verdict,
    pub(crate) more: u32,
}

/// Compares the facts of the network of a text.
pub(crate) fn compare(alloc: Global, text: &str) -> Result<Verdict, NoMemory> {
    let outcome = report(alloc, text)?;
    Ok(outcome.verdict)
}

/// Compares the facts of the network of a text, and counts its answers.
pub(crate) fn report(alloc: Global, text: &str) -> Result<Outcome, NoMemory> {
    match network_of(alloc, text)? {
        Some(net) => compared::<Brand>(alloc, &net, Blank::new(1)),
        None => Ok(bare(Verdict::NoNetwork)),
    }
}

fn bare(verdict: Verdict) -> Outcome {
    Outcome { verdict, more: 0 }
}

// The same, with steps that are counted in a ledger of the call's own.
fn compared<L: Ledger>(alloc: Global, net: &Network, blank: Blank) -> Result<Outcome, NoMemory>
    requires name { blank.name ≡ L.name }
    requires parts { blank.parts ≡ L.parts }
    requires some { 0 < blank.parts }
{
    let mut steps: Steps<L> = Steps::new(blank);
    let set = found_by_domain(alloc, net, &mut steps)?;
    match found_plainly(alloc, net, &mut steps)? {
        Some(found) => Ok(Outcome {
            verdict: verdict_of(net, &found, &set),
            more: more_answers(net, &found),
        }),
        None => Ok(bare(Verdict::Different)),
    }
}

fn found_by_domain<L: Ledger>(
    alloc: Global,
    net: &Network,
    steps: &mut Steps<L>,
) -> Result<BitSet, NoMemory> {
    let mut domain = PacketDomain::new(alloc, net)?;
    least_set(alloc, &mut domain, steps)
}

fn verdict_of(net: &Network, found: &Found, set: &BitSet) -> Verdict {
    if found.strays || !are_same(net, found, set) {
        Verdict::Different
    } else if more_answers(net, found) > 0 {
        Verdict::Same
    } else {
        Verdict::Still
    }
}

// Whether each cell is in both or in neither.
fn are_same(net: &Network, found: &Found, set: &BitSet) -> bool {
    if set.cells() != net.cells() {
        return false;
    }
    for cell in 0..set.cells() {
        if found.has(cell) != set.has(cell) {
            return false;
        }
    }
    true
}

// How many answers are found beside the first ones.
fn more_answers(net: &Network, found: &Found) -> u32 {
    let mut more: u32 = 0;
    let mut last = None;
    for cell in 0..net.cells() {
        if found.has(cell) {
            let place = box_and_packet(net.fact_at(cell));
            if place.is_some() && place == last {
                more = more.wrapping_add(1);
            }
            last = place;
        }
    }
    more
}

// Of what box and packet a fact tells answers.
fn box_and_packet(fact: Fact) -> Option<(u32, u32)> {
    match fact {
        Fact::State(b, p, _) => Some((b, p)),
        _ => None,
    }
}
