// The tables of all boxes.
ghost use Rattle.std.specs.Prelude.{◌≡◌, ℕ, ◌-◌, ◌<◌, ◌≤◌, length, take, drop, IfOk, MatchOption};
ghost use Rattle.std.specs.List.{All, Contains};
ghost use Rattle.std.specs.List.Sorted.{IsNonDecreasing};
ghost use Rattle.net_plan.specs.Plan.{packets_of, boxes_of};
ghost use Rattle.query_tables.specs.Sites.{AreCommon, HasNoCommon, HasNoCommonFrom};
ghost use Rattle.box_contents.specs.declared.entry.Entry.{Entry};
ghost use Rattle.query_tables.specs.declared.sites.Site.{Site};
ghost use Rattle.query_tables.specs.Sites.{IsMember, IsSite, IsSiteAt, IsSiteOf, sites_at};
ghost use Rattle.query_tables.specs.Tables.{Reads, tuples_in};

use crate::search;
use crate::sites::{Site, SiteNumbers};
use crate::table::{BoxTable, row_at, table_of};
use amdl_tree::NoMemory;
use box_contents::Entry;
use net_plan::{Network, Plan};
use std::alloc::Global;
use std::marker::Model;

/// The tuples of the queries of each box at each packet, and the sites: the packets at which the same queries have the
/// same tuple. Contracts see it as the plan of its network and the sites of each box.
///
/// It takes 12 bytes for each box, packet and query, and 24 for each site.
#[derive(Drop)]
pub struct QueryTables<'a> {
    net: &'a Network,
    boxes: Vec<BoxTable>,
}

impl<'a> Model for QueryTables<'a> {
    ghost use Rattle.net_plan.specs.Plan.{boxes_of};
    ghost use Rattle.net_plan.specs.contracts.network.Network as network;
    ghost use Rattle.query_tables.specs.contracts.sites.Site as site;
    ghost use Rattle.query_tables.specs.Coded.{tables_code};
    ghost use Rattle.query_tables.specs.Stored.{AreTables, seen_of};
    ghost use Rattle.query_tables.specs.Sites.{Tables};

    ghost Value = { Tables };

    ghost coded = { tables_code network.the_row.coded site.the_row.coded };

    ghost view = { λ tables. seen_of tables.net.now tables.boxes.items };

    ghost invariant = { λ tables. AreTables tables.net.now (boxes_of tables.net.now) tables.boxes.items };
}

impl<'a> QueryTables<'a> {
    /// The tables of a network, after which no call takes memory. Linear in the boxes times the packets times the
    /// square of the queries, but for a sort of the tuples of each box.
    pub fn new(alloc: Global, net: &'a Network) -> Result<QueryTables<'a>, NoMemory>
        ensures { IfOk result (λ tables. tables.plan ≡ net.now) }
    {
        let mut boxes = Vec::new(alloc);
        for b in 0..net.boxes() {
            match boxes.push(table_of(alloc, net, b)?) {
                Ok(()) => (),
                Err(_) => return Err(NoMemory),
            }
        }
        Ok(QueryTables { net, boxes })
    }

    /// What holds of all tables, for a caller that needs it: each packet that reads a tuple is at a site of it.
    pub fn sound(&self)
        ensures sites { (box packet : ℕ) (entry : Entry) → box < boxes_of self.now.plan →
            packet < packets_of self.now.plan → Reads self.now.plan box packet entry →
            (number : ℕ) × IsSiteOf self.now box number entry packet }
        ensures are { (box number : ℕ) (site : Site) → box < boxes_of self.now.plan →
            IsSiteAt self.now box number site → IsSite self.now.plan box site }
    {
        let _net = self.net;
    }

    /// The tuples of the queries of a box at a packet, in the order of the queries. Constant time.
    pub fn tuples(&self, b: u32, p: u32) -> &[Entry]
        requires boxed { b < boxes_of self.now.plan }
        requires packet { p < packets_of self.now.plan }
        ensures { result.now ≡ tuples_in self.now.plan b p }
    {
        row_at(self.net, b, &self.boxes[b as usize].tuples, p)
    }

    /// The numbers of the sites of a tuple. Logarithmic in the sites of the box.
    pub fn sites(&self, b: u32, entry: Entry) -> SiteNumbers
        requires { b < boxes_of self.now.plan }
        ensures within { result.to ≤ length (sites_at self.now b) }
        ensures all { (number : ℕ) (site : Site) → IsSiteAt self.now b number site → site.entry ≡ entry →
            (result.from ≤ number) × (number < result.to) }
    {
        search::numbers_of(&self.boxes[b as usize].sites, entry)
    }

    /// How many sites a box has. Constant time.
    pub fn count(&self, b: u32) -> u32
        requires { b < boxes_of self.now.plan }
        ensures { result ≡ length (sites_at self.now b) }
    {
        self.boxes[b as usize].sites.len() as u32
    }

    /// The site of a number. Constant time.
    pub fn site(&self, b: u32, number: u32) -> Site
        requires boxed { b < boxes_of self.now.plan }
        requires number { number < length (sites_at self.now b) }
        ensures at { IsSiteAt self.now b number result }
        ensures is { IsSite self.now.plan b result }
    {
        self.boxes[b as usize].sites[number as usize]
    }

    /// The packets of a site, in rising order. Constant time.
    pub fn members(&self, b: u32, number: u32) -> &[u32]
        requires boxed { b < boxes_of self.now.plan }
        requires number { number < length (sites_at self.now b) }
        ensures all { (site : Site) → IsSiteAt self.now b number site → (packet : ℕ) →
            IsMember self.now.plan b site packet → Contains result.now packet }
        ensures only { (site : Site) → IsSiteAt self.now b number site →
            All (IsMember self.now.plan b site) result.now }
        ensures rising { IsNonDecreasing result.now }
    {
        let table = &self.boxes[b as usize];
        members_of(&table.members, table.sites[number as usize])
    }

    /// The least packet from one on that is a member of two sites. It leaps from the one list of members to the other
    /// by binary searches.
    pub fn next_common(&self, b: u32, one: u32, other: u32, from: u32) -> Option<u32>
        requires boxed { b < boxes_of self.now.plan }
        requires one { one < length (sites_at self.now b) }
        requires other { other < length (sites_at self.now b) }
        ensures { MatchOption result (HasNoCommonFrom self.now b one other from)
            (λ packet. (from ≤ packet) × AreCommon self.now b one other packet
            × HasNoCommon self.now b one other from packet) }
    {
        search::common_from(self.members(b, one), self.members(b, other), from)
    }
}

// The packets of the site, among those of all sites.
fn members_of(members: &[u32], site: Site) -> &[u32]
    requires from { site.from ≤ site.to }
    requires to { site.to ≤ length members.now }
    ensures { result.now ≡ take (site.to - site.from) (drop site.from members.now) }
{
    &members[site.from as usize..site.to as usize]
}
