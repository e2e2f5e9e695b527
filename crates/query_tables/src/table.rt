// The tables of one box.
ghost use Rattle.std.specs.Prelude.{◌≡◌, ◌+◌, ◌<◌, ◌≤◌, [], ◌∷◌, ◌++◌, length, take, drop, OnOk, IfOk};
ghost use Rattle.net_plan.specs.Plan.{packets_of, boxes_of};
ghost use Rattle.query_tables.specs.Stored.{IsTable};
ghost use Rattle.query_tables.specs.Tables.{tuples_in, all_tuples};

use crate::sites::{Site, sites_of};
use crate::spots::{packets_of, spots_of};
use amdl_tree::NoMemory;
use box_contents::Entry;
use net_plan::Network;
use std::alloc::Global;

/// The tables of a box: the tuples of its queries, packet by packet, the sites in the order of their tuples, and their
/// packets, site by site.
#[derive(Debug, Drop)]
pub struct BoxTable {
    pub tuples: Vec<Entry>,
    pub sites: Vec<Site>,
    pub members: Vec<u32>,
}

/// The tables of a box. Linear in the packets times the square of the queries, but for a sort of the tuples and a
/// binary search for each site.
pub fn table_of(alloc: Global, net: &Network, b: u32) -> Result<BoxTable, NoMemory>
    requires { b < boxes_of net.now }
    ensures { IfOk result (IsTable net.now b) }
{
    let tuples = tuples_of(alloc, net, b)?;
    let spots = spots_of(alloc, net, b, &tuples)?;
    let sites = sites_of(alloc, net, b, &tuples, &spots)?;
    let members = packets_of(alloc, &spots)?;
    Ok(BoxTable {
        tuples,
        sites,
        members,
    })
}

// The tuples of a box at all its packets.
fn tuples_of(alloc: Global, net: &Network, b: u32) -> Result<Vec<Entry>, NoMemory>
    requires { b < boxes_of net.now }
    ensures { IfOk result (λ tuples. tuples.items ≡ all_tuples net.now b) }
{
    net.sound();
    let packets = net.headers().count();
    let mut tuples = room_for(alloc, packets as usize * net.queries(b).len())?;
    for p in 0..packets {
        push_packet(net, b, p, &mut tuples)?;
    }
    Ok(tuples)
}

// Puts the tuples of the queries at a packet last.
fn push_packet(net: &Network, b: u32, p: u32, tuples: &mut Vec<Entry>) -> Result<(), NoMemory>
    requires boxed { b < boxes_of net.now }
    requires packet { p < packets_of net.now }
    ensures { OnOk result (tuples.new.items ≡ tuples.old.items ++ tuples_in net.now b p) }
{
    for query in net.queries(b) {
        push(tuples, net.tuple_at(b, query, p, &[]))?;
    }
    Ok(())
}

/// The tuples of the queries of a box at a packet, among those at all packets. Constant time.
pub fn row_at<'t>(net: &Network, b: u32, tuples: &'t [Entry], p: u32) -> &'t [Entry]
    requires boxed { b < boxes_of net.now }
    requires packet { p < packets_of net.now }
    requires tuples { tuples.now ≡ all_tuples net.now b }
    ensures tuples { result.now ≡ tuples_in net.now b p }
    ensures few { length result.now ≤ 12 }
{
    let queries = net.queries(b).len();
    row_of(tuples, p as usize * queries, queries)
}

// So many tuples from this place on.
fn row_of(tuples: &[Entry], from: usize, count: usize) -> &[Entry]
    requires { from + count ≤ length tuples.now }
    ensures { result.now ≡ take count (drop from tuples.now) }
{
    &tuples[from..from + count]
}

/// An empty list with room.
pub fn room_for<T>(alloc: Global, count: usize) -> Result<Vec<T>, NoMemory>
    ensures { IfOk result (λ items. items.items ≡ []) }
{
    match Vec::with_capacity(alloc, count) {
        Ok(items) => Ok(items),
        Err(_) => Err(NoMemory),
    }
}

/// Puts an item last.
pub fn push<T: Drop>(items: &mut Vec<T>, item: T) -> Result<(), NoMemory>
    ensures { OnOk result (items.new.items ≡ items.old.items ++ item ∷ []) }
{
    match items.push(item) {
        Ok(()) => Ok(()),
        Err(_) => Err(NoMemory),
    }
}
