ghost use Rattle.std.specs.Prelude.{◌≡◌, ℕ, ◌<◌, ◌≤◌, ◌↔◌, [], length, slice_index_or, IsTrue, IfOk};
ghost use Rattle.net_plan.specs.Plan.{sizes_of, packets_of, boxes_of, kind_at, field_at, host_at, box_at, class_of};
ghost use Rattle.net_plan.specs.Plan.{ports_of, masks_of, port_name_at, Sends, Forbids};
ghost use Rattle.net_plan.specs.Cells.{IsInRange};
ghost use Rattle.header_set.specs.Headers.{product};
ghost use Rattle.header_set.specs.Pattern.{Matches};
ghost use Rattle.std.specs.List.{Any};
ghost use Rattle.net_plan.specs.Sound.{IsClass, IsHandled, IsSound};
ghost use Rattle.net_plan.specs.Follows.{IsBad, IsForbiddenDelivery};
ghost use Rattle.net_plan.specs.Ends.{ends_of, IsEndAt};

mod finding;
mod handlers;
mod numbering;

use crate::fact::{Fact, Place};
use crate::plan::{BoxPlan, ClassPlan, FieldPlan, HostPlan, KindPlan, Plan};
use crate::tables::{
    first_ends_of, first_states_of, headers_of, mask_count, partners_of, places_of,
};
use amdl_tree::{List, Name, NoMemory};
use header_set::{Headers, Pattern};
use std::alloc::Global;
use std::marker::Model;

/// A network whose plan is sound. Contracts see it as its plan.
///
/// No accessor takes memory. Those that answer a number, a name or a place by a number take constant time where their
/// docs say nothing else.
#[derive(Debug, Drop)]
pub struct Network {
    plan: Plan,
    headers: Headers,
    // the place of each end
    places: List<Place>,
    // the other end of the link of each end
    partners: List<Option<u32>>,
    // the end of port 0 of each box
    first_ends: List<u32>,
    // the first `State` cell of each box, and behind them the first `Abort` cell
    first_states: List<u32>,
}

impl Model for Network {
    ghost use Rattle.net_plan.specs.declared.plan.Plan.{Plan};
    ghost use Rattle.net_plan.specs.Kept.{IsKept};
    ghost use Rattle.box_handlers.specs.contracts.act.Act as act;
    ghost use Rattle.std.specs.Coded.{codes};

    ghost Value = { Plan };

    ghost coded = { Prim.hlevel (codes, act.the_row.coded) };

    ghost view = { λ network. network.plan };

    ghost invariant = { λ network. IsKept network.plan network.headers network.places network.partners network.first_ends
        network.first_states };
}

impl Network {
    /// The network of a sound plan. Linear in the fields, the ends, the links and the boxes.
    pub fn new(alloc: Global, plan: Plan) -> Result<Network, NoMemory>
        requires { IsSound plan }
        ensures { IfOk result (λ network. network ≡ plan) }
    {
        let headers = headers_of(&plan);
        let places = places_of(alloc, &plan)?;
        let ends = places.as_slice().len() as u32;
        let partners = partners_of(alloc, &plan, ends)?;
        let first_ends = first_ends_of(alloc, &plan)?;
        let first_states = first_states_of(alloc, &plan, headers.count(), ends)?;
        Ok(Network {
            plan,
            headers,
            places,
            partners,
            first_ends,
            first_states,
        })
    }

    /// The soundness of the plan, for a caller that only has the network.
    pub fn sound(&self)
        ensures { IsSound self.now }
    {
        let _plan = &self.plan;
    }

    /// The headers, which by `sound` have one to eight fields and at most 65,536 packets.
    pub fn headers(&self) -> &Headers
        ensures { result.now ≡ sizes_of self.now }
    {
        &self.headers
    }

    /// The name of the network.
    pub fn name(&self) -> Name
        ensures { result ≡ self.now.name }
    {
        self.plan.name
    }

    /// The number of hosts, by `sound` at most 256.
    pub fn hosts(&self) -> u32
        ensures { result ≡ length self.now.hosts }
    {
        let plan = &self.plan;
        plan.hosts.as_slice().len() as u32
    }

    /// The number of boxes, by `sound` at most 256.
    pub fn boxes(&self) -> u32
        ensures { result ≡ boxes_of self.now }
    {
        let plan = &self.plan;
        plan.boxes.as_slice().len() as u32
    }

    /// The number of links.
    pub fn links(&self) -> u32
        ensures { result ≡ length self.now.links }
    {
        self.sound();
        let plan = &self.plan;
        plan.links.as_slice().len() as u32
    }

    /// The number of types, by `sound` at most 32.
    pub fn types(&self) -> u32
        ensures { result ≡ length self.now.kinds }
    {
        let plan = &self.plan;
        plan.kinds.as_slice().len() as u32
    }

    /// The number of classes, by `sound` at most 64.
    pub fn classes(&self) -> u32
        ensures { result ≡ length self.now.classes }
    {
        let plan = &self.plan;
        plan.classes.as_slice().len() as u32
    }

    /// The name of a host.
    pub fn host_name(&self, host: u32) -> Name
        requires { host < length self.now.hosts }
        ensures { result ≡ (host_at self.now host).name }
    {
        self.host(host).name
    }

    /// The name of a box.
    pub fn box_name(&self, b: u32) -> Name
        requires { b < boxes_of self.now }
        ensures { result ≡ (box_at self.now b).name }
    {
        self.boxed(b).name
    }

    /// The number of ports of a box, at most 32.
    pub fn ports(&self, b: u32) -> u32
        requires { b < boxes_of self.now }
        ensures ports { result ≡ ports_of self.now (box_at self.now b) }
        ensures few { result ≤ 32 }
    {
        self.class(b).ports.as_slice().len() as u32
    }

    /// The name of a port of a box.
    pub fn port_name(&self, b: u32, port: u32) -> Name
        requires boxed { b < boxes_of self.now }
        requires port { port < ports_of self.now (box_at self.now b) }
        ensures { result ≡ port_name_at self.now (box_at self.now b) port }
    {
        self.class(b).ports.as_slice()[port as usize]
    }

    /// The name of field k.
    pub fn field_name(&self, k: u32) -> Name
        requires { k < length self.now.fields }
        ensures { result ≡ (field_at self.now k).name }
    {
        self.field(k).name
    }

    /// The number of the type of field k.
    pub fn kind_of_field(&self, k: u32) -> u32
        requires { k < length self.now.fields }
        ensures kind { result ≡ (field_at self.now k).kind }
        ensures in_range { result < length self.now.kinds }
    {
        self.field(k).kind
    }

    /// The number of values of a type, by `sound` from 1 to 256.
    pub fn values(&self, kind: u32) -> u32
        requires { kind < length self.now.kinds }
        ensures { result ≡ length (kind_at self.now kind).values }
    {
        self.kind(kind).values.as_slice().len() as u32
    }

    /// The name of value x of a type.
    pub fn value_name(&self, kind: u32, x: u32) -> Name
        requires kind { kind < length self.now.kinds }
        requires value { x < length (kind_at self.now kind).values }
        ensures { result ≡ slice_index_or (kind_at self.now kind).values x [] }
    {
        self.kind(kind).values.as_slice()[x as usize]
    }

    /// Whether a host may send a packet. Linear in the patterns of the host.
    pub fn sends(&self, host: u32, packet: u32) -> bool
        requires host { host < length self.now.hosts }
        requires packet { packet < packets_of self.now }
        ensures { IsTrue result ↔ Sends self.now host packet }
    {
        matches_one(&self.headers, self.host(host).sends.as_slice(), packet)
    }

    /// Whether a packet must not be delivered to a host. Linear in the patterns of the host.
    pub fn forbidden(&self, host: u32, packet: u32) -> bool
        requires host { host < length self.now.hosts }
        requires packet { packet < packets_of self.now }
        ensures { IsTrue result ↔ Forbids self.now host packet }
    {
        matches_one(&self.headers, self.host(host).forbids.as_slice(), packet)
    }

    /// Whether a fact in range is bad: an abort, or a packet put out at an end that is linked to a host which forbids
    /// it. Linear in the patterns of that host.
    pub fn bad(&self, fact: Fact) -> bool
        requires { IsInRange self.now fact }
        ensures { IsTrue result ↔ IsBad self.now fact }
    {
        match fact {
            Fact::Out(end, packet) => self.bad_delivery(end, packet),
            Fact::State(..) => false,
            Fact::Abort(..) => true,
        }
    }

    // Whether the end is linked to the end of a host that forbids the packet.
    fn bad_delivery(&self, end: u32, packet: u32) -> bool
        requires end { end < ends_of self.now }
        requires packet { packet < packets_of self.now }
        ensures { IsTrue result ↔ IsForbiddenDelivery self.now end packet }
    {
        self.sound();
        match self.partner(end) {
            Some(other) => self.forbidden_at(other, packet),
            None => false,
        }
    }

    // Whether the end is that of a host which forbids the packet.
    fn forbidden_at(&self, end: u32, packet: u32) -> bool
        requires end { end < ends_of self.now }
        requires packet { packet < packets_of self.now }
        ensures { IsTrue result ↔ ((host : ℕ) × IsEndAt self.now end (Place.Host host) × Forbids self.now host packet) }
    {
        match self.place(end) {
            Place::Host(host) => self.forbidden(host, packet),
            Place::Port(..) => false,
        }
    }

    fn host(&self, host: u32) -> &HostPlan
        requires { host < length self.now.hosts }
        ensures { result.now ≡ host_at self.now host }
    {
        &self.plan.hosts.as_slice()[host as usize]
    }

    fn field(&self, k: u32) -> &FieldPlan
        requires { k < length self.now.fields }
        ensures field { result.now ≡ field_at self.now k }
        ensures in_range { result.now.kind < length self.now.kinds }
    {
        &self.plan.fields.as_slice()[k as usize]
    }

    fn kind(&self, kind: u32) -> &KindPlan
        requires { kind < length self.now.kinds }
        ensures kind { result.now ≡ kind_at self.now kind }
        ensures few { length result.now.values ≤ 256 }
    {
        &self.plan.kinds.as_slice()[kind as usize]
    }

    fn boxed(&self, b: u32) -> &BoxPlan
        requires { b < boxes_of self.now }
        ensures boxed { result.now ≡ box_at self.now b }
        ensures class { result.now.class < length self.now.classes }
    {
        &self.plan.boxes.as_slice()[b as usize]
    }

    // The class of a box.
    fn class(&self, b: u32) -> &ClassPlan
        requires { b < boxes_of self.now }
        ensures class { result.now ≡ class_of self.now (box_at self.now b) }
        ensures few_ports { length result.now.ports ≤ 32 }
        ensures few_relations { length result.now.relations ≤ 16 }
        ensures few_queries { length result.now.queries ≤ 12 }
        ensures sound { IsClass self.now result.now }
        ensures handled { IsHandled self.now result.now }
    {
        let class = self.boxed(b).class;
        &self.plan.classes.as_slice()[class as usize]
    }

    // How many masks a box has.
    fn masks(&self, b: u32) -> u32
        requires { b < boxes_of self.now }
        ensures masks { result ≡ masks_of self.now (box_at self.now b) }
        ensures few { result ≤ 4096 }
    {
        mask_count(self.class(b))
    }
}

// Whether one of the patterns matches the packet.
fn matches_one(headers: &Headers, patterns: &[Pattern], packet: u32) -> bool
    requires { packet < product headers.now }
    ensures { IsTrue result ↔ Any (λ pattern. Matches headers.now pattern packet) patterns.now }
{
    patterns
        .iter()
        .any(|pattern| pattern.matches(headers, packet))
}
