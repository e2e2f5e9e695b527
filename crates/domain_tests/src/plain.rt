//! A plain fixpoint: the facts of a network, found by their definitions. Each found packet at a box is fired with all
//! found answers of the box at it again and again, until nothing changes.
ghost use Rattle.std.specs.Prelude.{◌≡◌, ◌<◌};
ghost use Rattle.box_masks.specs.Writes.{IsMaskOf};
ghost use Rattle.net_plan.specs.Plan.{packets_of, boxes_of, box_at, ports_of};
ghost use Rattle.net_plan.specs.Cells.{cells_of};
ghost use Rattle.net_plan.specs.Ends.{ends_of};

use crate::found::{Found, masks};
use abstract_step::{Fired, Paths, Put};
use amdl_tree::NoMemory;
use box_masks::{Write, agree, first_answers, patch};
use net_plan::{Fact, Network, Place};
use std::alloc::Global;
use std::sync::ledger::Ledger;
use step_count::Steps;

/// All facts that are found. None comes where they still grow after as many rounds as there are cells.
pub(crate) fn found_plainly<L: Ledger>(
    alloc: Global,
    net: &Network,
    steps: &mut Steps<L>,
) -> Result<Option<Found>, NoMemory> {
    let mut found = Found::new(alloc, net)?;
    put_sent(net, &mut found);
    put_first(net, &mut found);
    for _ in 0..=net.cells() {
        found.grew = false;
        go_round(alloc, net, &mut found, steps)?;
        if !found.grew {
            return Ok(Some(found));
        }
    }
    Ok(None)
}

// Puts in what the hosts send.
fn put_sent(net: &Network, found: &mut Found) {
    for host in 0..net.hosts() {
        for p in 0..net.headers().count() {
            if net.sends(host, p) {
                found.put(net, Fact::Out(net.end_of_host(host), p));
            }
        }
    }
}

// Puts in the answers of the first contents.
fn put_first(net: &Network, found: &mut Found) {
    for b in 0..net.boxes() {
        for p in 0..net.headers().count() {
            found.put(net, Fact::State(b, p, first_answers(net, b, p)));
        }
    }
}

// Delivers each packet that is found.
fn go_round<L: Ledger>(
    alloc: Global,
    net: &Network,
    found: &mut Found,
    steps: &mut Steps<L>,
) -> Result<(), NoMemory> {
    let mut paths = Paths::new(alloc, net)?;
    for cell in 0..net.cells() {
        if found.has(cell) {
            deliver_cell(net, &mut paths, cell, found, steps);
        }
    }
    Ok(())
}

fn deliver_cell<L: Ledger>(
    net: &Network,
    paths: &mut Paths<'_>,
    cell: u32,
    found: &mut Found,
    steps: &mut Steps<L>,
)
    requires made { paths.old ≡ net.now }
    requires cell { cell < cells_of net.now }
    ensures { paths.new ≡ net.now }
{
    if let Fact::Out(end, p) = net.fact_at(cell) {
        deliver(net, paths, end, p, found, steps);
    }
}

// Delivers a packet that is put out at an end, where the end is linked to a port.
fn deliver<L: Ledger>(
    net: &Network,
    paths: &mut Paths<'_>,
    end: u32,
    p: u32,
    found: &mut Found,
    steps: &mut Steps<L>,
)
    requires made { paths.old ≡ net.now }
    requires end { end < ends_of net.now }
    requires packet { p < packets_of net.now }
    ensures { paths.new ≡ net.now }
{
    let Some(other) = net.partner(end) else {
        return;
    };
    let Place::Port(b, port) = net.place(other) else {
        return;
    };
    if b < net.boxes() && port < net.ports(b) {
        deliver_to(net, paths, b, port, p, found, steps);
    } else {
        found.strays = true;
    }
}

// Fires a packet at a port with all found answers of the box at it.
fn deliver_to<L: Ledger>(
    net: &Network,
    paths: &mut Paths<'_>,
    b: u32,
    port: u32,
    p: u32,
    found: &mut Found,
    steps: &mut Steps<L>,
)
    requires made { paths.old ≡ net.now }
    requires boxed { b < boxes_of net.now }
    requires port { port < ports_of net.now (box_at net.now b) }
    requires packet { p < packets_of net.now }
    ensures { paths.new ≡ net.now }
{
    for v in 0..masks(net, b) {
        if found.has_fact(net, Fact::State(b, p, v)) {
            let fired = paths.fire(net, b, port, p, v, steps);
            put_results(net, fired, b, p, v, found);
        }
    }
}

// Puts in what follows from each result.
fn put_results(net: &Network, fired: &Fired, b: u32, p: u32, v: u16, found: &mut Found)
    requires boxed { b < boxes_of net.now }
    requires packet { p < packets_of net.now }
    requires mask { IsMaskOf net.now b v }
{
    for i in 0..fired.len() {
        if fired.aborted(i) {
            found.put(net, Fact::Abort(b, p));
        } else {
            put_outs(net, b, fired.outs(i), found);
            put_changes(net, b, p, v, fired.update(i), found);
        }
    }
}

fn put_outs(net: &Network, b: u32, outs: &[Put], found: &mut Found)
    requires { b < boxes_of net.now }
{
    for out in outs {
        if out.port < net.ports(b) {
            found.put(net, Fact::Out(net.end_of_port(b, out.port), out.packet));
        } else {
            found.strays = true;
        }
    }
}

// Puts in what the writes make of all found answers that some contents give with `v` at `p`.
fn put_changes(net: &Network, b: u32, p: u32, v: u16, update: &[Write], found: &mut Found)
    requires boxed { b < boxes_of net.now }
    requires packet { p < packets_of net.now }
    requires mask { IsMaskOf net.now b v }
{
    for q in 0..net.headers().count() {
        for w in 0..masks(net, b) {
            if found.has_fact(net, Fact::State(b, q, w)) {
                put_change(net, b, p, v, update, q, w, found);
            }
        }
    }
}

// The same of answers that are found. Where what becomes of them is found too, nothing is asked.
fn put_change(
    net: &Network,
    b: u32,
    p: u32,
    v: u16,
    update: &[Write],
    q: u32,
    w: u16,
    found: &mut Found,
)
    requires boxed { b < boxes_of net.now }
    requires packet { p < packets_of net.now }
    requires mask { IsMaskOf net.now b v }
    requires other { q < packets_of net.now }
    requires other_mask { IsMaskOf net.now b w }
{
    let after = Fact::State(b, q, patch(net, b, update, q, w));
    if !found.has_fact(net, after) && agree(net, b, p, v, q, w) {
        found.put(net, after);
    }
}
