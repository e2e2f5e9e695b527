//! The step of a box and its answers, compared with all executions from all of its contents.
ghost use Rattle.std.specs.Prelude.{◌≡◌, ◌<◌};
ghost use Rattle.box_masks.specs.Writes.{IsMaskOf};
ghost use Rattle.net_plan.specs.Plan.{packets_of, boxes_of, box_at, ports_of, masks_of};
ghost use Rattle.net_runs.specs.World.{relations_of};
ghost use Rattle.packet_state.specs.Answers.{class_of_box};

use crate::executions::{all_contents, all_endings, sizes_of_box};
use crate::texts::Planned;
use abstract_step::{Fired, Paths, Put};
use amdl_tree::{List, NoMemory};
use box_contents::Contents;
use box_masks::{Write, agree, answers, patch};
use handler_runs::{Emission, Ending};
use net_plan::Network;
use std::alloc::Global;
use std::sync::ledger::Ledger;
use step_count::Steps;

/// A result of `fire`.
#[derive(Drop)]
struct Copied {
    aborted: bool,
    writes: List<Write>,
    puts: List<Put>,
}

/// Whether each box of the network steps and answers as its executions do.
pub(crate) fn is_exact<L: Ledger>(
    alloc: Global,
    planned: &Planned,
    steps: &mut Steps<L>,
) -> Result<bool, NoMemory>
    requires { planned.now.net ≡ planned.now.plan }
{
    let net = &planned.net;
    net.sound();
    for b in 0..net.boxes() {
        let sizes = sizes_of_box(alloc, &planned.plan, b)?;
        let all = all_contents(alloc, net, b)?;
        if all.as_slice().is_empty()
            || !agrees_exactly(alloc, net, b, all.as_slice())?
            || !steps_exactly(alloc, net, sizes.as_slice(), b, all.as_slice(), steps)?
        {
            return Ok(false);
        }
    }
    Ok(true)
}

// How many masks a box has.
fn masks(net: &Network, b: u32) -> u16
    requires { b < boxes_of net.now }
    ensures { result ≡ masks_of net.now (box_at net.now b) }
{
    net.sound();
    2u16.pow(net.queries(b).len() as u32)
}

// Whether masks agree exactly where some of the contents show both.
fn agrees_exactly(alloc: Global, net: &Network, b: u32, all: &[Contents]) -> Result<bool, NoMemory>
    requires { b < boxes_of net.now }
{
    for p in 0..net.headers().count() {
        for q in 0..net.headers().count() {
            let pairs = shown(alloc, net, b, all, p, q)?;
            if !agrees_at(net, b, p, q, pairs.as_slice()) {
                return Ok(false);
            }
        }
    }
    Ok(true)
}

// The masks with which the contents answer at these packets.
fn shown(
    alloc: Global,
    net: &Network,
    b: u32,
    all: &[Contents],
    p: u32,
    q: u32,
) -> Result<List<(u16, u16)>, NoMemory>
    requires boxed { b < boxes_of net.now }
    requires packet { p < packets_of net.now }
    requires other { q < packets_of net.now }
{
    let mut pairs = List::new(alloc);
    for contents in all {
        pairs.push((answers(net, b, contents, p), answers(net, b, contents, q)))?;
    }
    Ok(pairs)
}

fn agrees_at(net: &Network, b: u32, p: u32, q: u32, pairs: &[(u16, u16)]) -> bool
    requires boxed { b < boxes_of net.now }
    requires packet { p < packets_of net.now }
    requires other { q < packets_of net.now }
{
    for v in 0..masks(net, b) {
        for w in 0..masks(net, b) {
            if agree(net, b, p, v, q, w) != pairs.contains(&(v, w)) {
                return false;
            }
        }
    }
    true
}

// Whether each port steps exactly on each packet.
fn steps_exactly<L: Ledger>(
    alloc: Global,
    net: &Network,
    sizes: &[List<u32>],
    b: u32,
    all: &[Contents],
    steps: &mut Steps<L>,
) -> Result<bool, NoMemory>
    requires sizes { sizes.now ≡ relations_of net.now (class_of_box net.now b) }
    requires boxed { b < boxes_of net.now }
{
    for port in 0..net.ports(b) {
        for p in 0..net.headers().count() {
            let results = results_by_mask(alloc, net, b, port, p, steps)?;
            if !fires_exactly(alloc, net, sizes, b, port, p, all, results.as_slice())? {
                return Ok(false);
            }
        }
    }
    Ok(true)
}

// The results on a packet from each mask.
fn results_by_mask<L: Ledger>(
    alloc: Global,
    net: &Network,
    b: u32,
    port: u32,
    p: u32,
    steps: &mut Steps<L>,
) -> Result<List<List<Copied>>, NoMemory>
    requires boxed { b < boxes_of net.now }
    requires port { port < ports_of net.now (box_at net.now b) }
    requires packet { p < packets_of net.now }
{
    let mut paths = Paths::new(alloc, net)?;
    let mut results = List::new(alloc);
    for v in 0..masks(net, b) {
        let fired = paths.fire(net, b, port, p, v, steps);
        results.push(results_of(alloc, fired)?)?;
    }
    Ok(results)
}

fn results_of(alloc: Global, fired: &Fired) -> Result<List<Copied>, NoMemory> {
    let mut results = List::new(alloc);
    for i in 0..fired.len() {
        results.push(Copied {
            aborted: fired.aborted(i),
            writes: copy_of(alloc, fired.update(i))?,
            puts: copy_of(alloc, fired.outs(i))?,
        })?;
    }
    Ok(results)
}

fn copy_of<T: Copy + Drop>(alloc: Global, items: &[T]) -> Result<List<T>, NoMemory> {
    let mut copy = List::new(alloc);
    for item in items {
        copy.push(*item)?;
    }
    Ok(copy)
}

// Whether the results from each mask are those of the executions from the contents that answer with it.
fn fires_exactly(
    alloc: Global,
    net: &Network,
    sizes: &[List<u32>],
    b: u32,
    port: u32,
    p: u32,
    all: &[Contents],
    results: &[List<Copied>],
) -> Result<bool, NoMemory>
    requires sizes { sizes.now ≡ relations_of net.now (class_of_box net.now b) }
    requires boxed { b < boxes_of net.now }
    requires port { port < ports_of net.now (box_at net.now b) }
    requires packet { p < packets_of net.now }
{
    for contents in all {
        let endings = all_endings(alloc, net, sizes, b, port, p, contents)?;
        let v = answers(net, b, contents, p);
        let exact = match (endings, results.get(v as usize)) {
            (Some(endings), Some(results)) => {
                are_those_of(contents, results.as_slice(), endings.as_slice())?
                    && patches_exactly(net, b, contents, results.as_slice())?
            }
            _ => false,
        };
        if !exact {
            return Ok(false);
        }
    }
    let pairs = shown(alloc, net, b, all, p, p)?;
    Ok(fires_where_shown(pairs.as_slice(), results))
}

// Whether there is no result from a mask that no contents show.
fn fires_where_shown(pairs: &[(u16, u16)], results: &[List<Copied>]) -> bool {
    for (v, from_mask) in results.iter().enumerate() {
        let shown = pairs.iter().any(|pair| pair.0 as usize == v);
        if !shown && !from_mask.as_slice().is_empty() {
            return false;
        }
    }
    true
}

// Whether each ending has its result, and each result its ending.
fn are_those_of(
    contents: &Contents,
    results: &[Copied],
    endings: &[Ending],
) -> Result<bool, NoMemory> {
    for ending in endings {
        if !some_result_stands_for(contents, results, ending)? {
            return Ok(false);
        }
    }
    for one in results {
        if !stands_for_some_ending(contents, one, endings)? {
            return Ok(false);
        }
    }
    Ok(true)
}

fn some_result_stands_for(
    contents: &Contents,
    results: &[Copied],
    ending: &Ending,
) -> Result<bool, NoMemory> {
    for one in results {
        if stands_for(contents, one, ending)? {
            return Ok(true);
        }
    }
    Ok(false)
}

fn stands_for_some_ending(
    contents: &Contents,
    fired: &Copied,
    endings: &[Ending],
) -> Result<bool, NoMemory> {
    for ending in endings {
        if stands_for(contents, fired, ending)? {
            return Ok(true);
        }
    }
    Ok(false)
}

// Whether an execution from these contents that ends so has this result.
fn stands_for(contents: &Contents, fired: &Copied, ending: &Ending) -> Result<bool, NoMemory> {
    let writes = fired.writes.as_slice();
    let puts = fired.puts.as_slice();
    match ending {
        Ending::Aborted => Ok(fired.aborted && writes.is_empty() && puts.is_empty()),
        Ending::Done {
            contents: left,
            outputs,
        } => {
            let written = written(contents, writes)?;
            let same = written.entries() == left.entries();
            Ok(!fired.aborted && same && are_put(puts, outputs.as_slice()))
        }
    }
}

// The contents after some writes.
fn written(contents: &Contents, writes: &[Write]) -> Result<Contents, NoMemory> {
    let mut now = contents.copy()?;
    for write in writes {
        if write.add {
            now.put(write.entry)?;
        } else {
            now.take_out(write.entry);
        }
    }
    Ok(now)
}

fn are_put(puts: &[Put], outputs: &[Emission]) -> bool {
    if puts.len() != outputs.len() {
        return false;
    }
    for (put, output) in puts.iter().zip(outputs) {
        if put.port != output.port || put.packet != output.packet {
            return false;
        }
    }
    true
}

// Whether the patched answers to each packet are those of the contents after the writes of each result.
fn patches_exactly(
    net: &Network,
    b: u32,
    contents: &Contents,
    results: &[Copied],
) -> Result<bool, NoMemory>
    requires { b < boxes_of net.now }
{
    for one in results {
        let writes = one.writes.as_slice();
        let after = written(contents, writes)?;
        if !one.aborted && !is_patched(net, b, contents, writes, &after) {
            return Ok(false);
        }
    }
    Ok(true)
}

#[tactic(auto, using(packet_state::proofs::MaskLemmas::answers_below))]
fn is_patched(
    net: &Network,
    b: u32,
    contents: &Contents,
    writes: &[Write],
    after: &Contents,
) -> bool
    requires { b < boxes_of net.now }
{
    for q in 0..net.headers().count() {
        let before = answers(net, b, contents, q);
        if patch(net, b, writes, q, before) != answers(net, b, after, q) {
            return false;
        }
    }
    true
}
