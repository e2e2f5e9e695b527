//! The tables that a network keeps beside its plan.
ghost use Rattle.std.specs.Prelude.{◌≡◌, ◌<◌, ◌≤◌, ◌^◌, ◌++◌, length, map, replicate, OnOk, IfOk};
ghost use Rattle.std.specs.List.{range_with_len};
ghost use Rattle.net_plan.specs.Plan.{sizes_of, packets_of, kind_at, class_of, ports_of};
ghost use Rattle.net_plan.specs.Ends.{places_of, ends_of};
ghost use Rattle.net_plan.specs.Kept.{first_ends, first_states, partners_of};
ghost use Rattle.net_plan.specs.Sound.{IsSound};

use crate::fact::Place;
use crate::plan::{BoxPlan, ClassPlan, Plan};
use amdl_tree::{List, NoMemory};
use header_set::Headers;
use std::alloc::Global;

/// The headers of the fields of a sound plan. Linear in the fields.
pub fn headers_of(plan: &Plan) -> Headers
    requires { IsSound plan.now }
    ensures { result ≡ sizes_of plan.now }
{
    let fields = plan.fields.as_slice();
    let mut sizes = [0u32; 8];
    for (k, field) in fields.iter().enumerate() {
        sizes[k] = values_of(plan, field.kind);
    }
    match Headers::new(&sizes[..fields.len()]) {
        Ok(headers) => headers,
        Err(_) => unreachable!(),
    }
}

// The number of values of a type of a sound plan.
fn values_of(plan: &Plan, kind: u32) -> u32
    requires sound { IsSound plan.now }
    requires kind { kind < length plan.now.kinds }
    ensures { result ≡ length (kind_at plan.now kind).values }
{
    let kinds = plan.kinds.as_slice();
    kinds[kind as usize].values.as_slice().len() as u32
}

// The class of a box of a sound plan.
fn class_of_box<'a>(plan: &'a Plan, boxed: &BoxPlan) -> &'a ClassPlan
    requires sound { IsSound plan.now }
    requires class { boxed.now.class < length plan.now.classes }
    ensures class { result.now ≡ class_of plan.now boxed.now }
    ensures few_ports { length result.now.ports ≤ 32 }
    ensures few_queries { length result.now.queries ≤ 12 }
{
    &plan.classes.as_slice()[boxed.class as usize]
}

/// How many masks the queries of a class have.
pub fn mask_count(class: &ClassPlan) -> u32
    requires { length class.now.queries ≤ 12 }
    ensures masks { result ≡ 2 ^ length class.now.queries }
    ensures few { result ≤ 4096 }
{
    2u32.pow(class.queries.as_slice().len() as u32)
}

/// The places of the ends of a sound plan, in their order. Linear in the ends.
pub fn places_of(alloc: Global, plan: &Plan) -> Result<List<Place>, NoMemory>
    requires { IsSound plan.now }
    ensures { IfOk result (λ places. places ≡ places_of plan.now) }
{
    let mut places = List::new(alloc);
    push_hosts(&mut places, plan.hosts.as_slice().len() as u32)?;
    for (number, boxed) in plan.boxes.as_slice().iter().enumerate() {
        let ports = class_of_box(plan, boxed).ports.as_slice().len() as u32;
        push_ports(&mut places, number as u32, ports)?;
    }
    Ok(places)
}

fn push_hosts(places: &mut List<Place>, count: u32) -> Result<(), NoMemory>
    ensures { OnOk result (places.new ≡ places.old ++ map Place.Host (range_with_len 0 count)) }
{
    for host in 0..count {
        places.push(Place::Host(host))?;
    }
    Ok(())
}

fn push_ports(places: &mut List<Place>, number: u32, count: u32) -> Result<(), NoMemory>
    ensures { OnOk result (places.new ≡ places.old ++ map (Place.Port number) (range_with_len 0 count)) }
{
    for port in 0..count {
        places.push(Place::Port(number, port))?;
    }
    Ok(())
}

/// The other end of the link of each end. Linear in the ends and the links.
pub fn partners_of(alloc: Global, plan: &Plan, ends: u32) -> Result<List<Option<u32>>, NoMemory>
    requires sound { IsSound plan.now }
    requires ends { ends ≡ ends_of plan.now }
    ensures { IfOk result (λ partners. partners ≡ partners_of plan.now) }
{
    let mut partners = nobody(alloc, ends)?;
    for link in plan.links.as_slice() {
        partners.replace(link.one as usize, Some(link.two));
        partners.replace(link.two as usize, Some(link.one));
    }
    Ok(partners)
}

// No partner for any of this many ends.
fn nobody(alloc: Global, ends: u32) -> Result<List<Option<u32>>, NoMemory>
    ensures { IfOk result (λ partners. partners ≡ replicate ends None) }
{
    let mut partners = List::new(alloc);
    let mut made = 0;
    while made < ends {
        partners.push(None)?;
        made += 1;
    }
    Ok(partners)
}

/// The end of port 0 of each box. Linear in the boxes.
pub fn first_ends_of(alloc: Global, plan: &Plan) -> Result<List<u32>, NoMemory>
    requires { IsSound plan.now }
    ensures { IfOk result (λ ends. ends ≡ first_ends plan.now) }
{
    let mut ends = List::new(alloc);
    let mut end = plan.hosts.as_slice().len() as u32;
    for boxed in plan.boxes.as_slice() {
        ends.push(end)?;
        end += class_of_box(plan, boxed).ports.as_slice().len() as u32;
    }
    Ok(ends)
}

/// The first `State` cell of each box, and behind them the first `Abort` cell. Linear in the boxes.
pub fn first_states_of(
    alloc: Global,
    plan: &Plan,
    packets: u32,
    ends: u32,
) -> Result<List<u32>, NoMemory>
    requires sound { IsSound plan.now }
    requires packets { packets ≡ packets_of plan.now }
    requires ends { ends ≡ ends_of plan.now }
    ensures { IfOk result (λ states. states ≡ first_states plan.now) }
{
    let mut states = List::new(alloc);
    let mut cell = packets * ends;
    states.push(cell)?;
    for boxed in plan.boxes.as_slice() {
        cell += packets * mask_count(class_of_box(plan, boxed));
        states.push(cell)?;
    }
    Ok(states)
}
