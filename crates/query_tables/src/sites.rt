// The sites of a box.
ghost use Rattle.std.specs.Prelude.{◌≡◌, ℕ, ◌-◌, ◌<◌, ◌≤◌, ◌^◌, length, slice_index_or, take, drop, IfOk};
ghost use Rattle.std.specs.Int.{bit_at};
ghost use Rattle.std.specs.List.{All, slice_get};
ghost use Rattle.std.specs.List.Sorted.{IsNonDecreasingBy};
ghost use Rattle.net_plan.specs.Plan.{packets_of, boxes_of};
ghost use Rattle.query_tables.specs.Sites.{AreFixed};
ghost use Rattle.query_tables.specs.Spots.{AreSpots, AreSites, IsStart, IsRun, IsLike, group_seen};
ghost use Rattle.query_tables.specs.Tables.{all_tuples, queries_of, tuples_in};

use crate::masks::alike;
use crate::spots::{Spot, fits, group_of};
use crate::table::{push, row_at};
use amdl_tree::NoMemory;
use box_contents::Entry;
use net_plan::Network;
use std::alloc::Global;

/// A tuple, and the queries that have it at the packets of the site, as bits. The first of these packets, and the
/// queries whose tuple is the same at all of them, as bits.
#[derive(Clone, Copy, PartialEq, Eq, Debug)]
pub struct Site {
    pub entry: Entry,
    pub bits: u16,
    pub fixed: u16,
    pub first: u32,
    // where its packets begin and end among those of all sites
    pub(crate) from: u32,
    pub(crate) to: u32,
}

/// Numbers of sites: from one up to another, without that one.
#[derive(Clone, Copy, PartialEq, Eq, Debug)]
pub struct SiteNumbers {
    pub from: u32,
    pub to: u32,
}

/// The sites of a box of these spots. Linear in the spots times the queries, but for a binary search for each site.
pub fn sites_of(
    alloc: Global,
    net: &Network,
    b: u32,
    tuples: &[Entry],
    spots: &[Spot],
) -> Result<Vec<Site>, NoMemory>
    requires boxed { b < boxes_of net.now }
    requires tuples { tuples.now ≡ all_tuples net.now b }
    requires spots { AreSpots net.now b spots.now }
    requires few { length spots.now < 2 ^ 32 }
    ensures { IfOk result (λ sites. AreSites net.now b spots.now (length spots.now) sites.items) }
{
    let mut sites = Vec::new(alloc);
    let mut at = 0;
    while at < spots.len() {
        let site = site_from(net, b, tuples, spots, at);
        push(&mut sites, site)?;
        at = site.to as usize;
    }
    Ok(sites)
}

// The site of which the spots begin at a place.
fn site_from(net: &Network, b: u32, tuples: &[Entry], spots: &[Spot], at: usize) -> Site
    requires boxed { b < boxes_of net.now }
    requires tuples { tuples.now ≡ all_tuples net.now b }
    requires spots { AreSpots net.now b spots.now }
    requires few { length spots.now < 2 ^ 32 }
    requires start { IsStart spots.now at }
    requires there { at < length spots.now }
    ensures from { result.from ≡ at }
    ensures run { IsRun net.now b spots.now result }
    ensures start { IsStart spots.now result.to }
{
    let first = spots[at];
    fits(first);
    let to = end_of(spots, first);
    let fixed = fixed_of(net, b, tuples, first, part_of(spots, at, to));
    Site {
        entry: first.entry,
        bits: first.bits,
        fixed,
        first: first.packet,
        from: at as u32,
        to: to as u32,
    }
}

// Where the spots end that are like this one.
fn end_of(spots: &[Spot], first: Spot) -> usize
    requires { IsNonDecreasingBy group_seen spots.now }
    ensures within { result ≤ length spots.now }
    ensures before { (k : ℕ) (d : Spot) → k < result → group_seen (slice_index_or spots.now k d) ≤ group_seen first }
    ensures behind { (k : ℕ) (d : Spot) → result ≤ k → k < length spots.now →
        group_seen first < group_seen (slice_index_or spots.now k d) }
{
    let group = group_of(first.entry, first.bits);
    spots.partition_point(|spot| group_of(spot.entry, spot.bits) <= group)
}

// The queries whose tuples are the same at the packets of all these spots as at the first one, as bits. The spots are
// all like the first one, since they have its number.
fn fixed_of(net: &Network, b: u32, tuples: &[Entry], first: Spot, run: &[Spot]) -> u16
    requires boxed { b < boxes_of net.now }
    requires tuples { tuples.now ≡ all_tuples net.now b }
    requires first { first.packet < packets_of net.now }
    requires packets { All (λ spot. spot.packet < packets_of net.now) run.now }
    requires group { All (λ spot. group_seen spot ≡ group_seen first) run.now }
    ensures like { All (IsLike first) run.now }
    ensures below { result < 2 ^ queries_of net.now b }
    ensures fixed { All (λ spot. AreFixed result (tuples_in net.now b first.packet) (tuples_in net.now b spot.packet))
        run.now }
    ensures all { (query : ℕ) → query < queries_of net.now b →
        All (λ spot. slice_get (tuples_in net.now b first.packet) query
        ≡ slice_get (tuples_in net.now b spot.packet) query) run.now → bit_at result query ≡ 1 }
{
    fits(first);
    let row = row_at(net, b, tuples, first.packet);
    let mut fixed = alike(row, row);
    for spot in run {
        fits(*spot);
        fixed &= alike(row, row_at(net, b, tuples, spot.packet));
    }
    fixed
}

// The spots from one place up to another.
fn part_of(spots: &[Spot], from: usize, to: usize) -> &[Spot]
    requires from { from ≤ to }
    requires to { to ≤ length spots.now }
    ensures { result.now ≡ take (to - from) (drop from spots.now) }
{
    &spots[from..to]
}
