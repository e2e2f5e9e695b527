ghost use Rattle.std.specs.Prelude.{◌≡◌, ◌+◌, IfOk, slice_get};
ghost use Rattle.std.specs.List.{position_from};
ghost use Rattle.std.specs.Option.{option_map, option_and_then};
ghost use Rattle.net_plan.specs.declared.fact.Place.TheVariants.{Host as AtHost, Port as AtPort};
ghost use Rattle.net_plan.specs.Plan.{ports_of};
ghost use Rattle.net_plan.specs.Ends.{places_of};
ghost use Rattle.tree_plan.specs.Names.{same_name, number_of, all_some};
ghost use Rattle.tree_plan.specs.Net.{port_of, port_place, box_number, end_at, end_by, link_by};
ghost use Rattle.tree_network.specs.Reads.{classes_back, box_back, boxes_back, link_back, links_back, placed_by};

use crate::boxes::class_named;
use crate::items::{BoxItem, LinkItem};
use crate::names::numbered;
use crate::nodes::Nodes;
use amdl_tree::{Class, End, List, Name, NoMemory};
use net_plan::{BoxPlan, LinkPlan, Place, Plan};
use std::alloc::Global;
use tree_plan::number_of;

/// The links between the numbers of their ends. None comes exactly where an end isn't an end of the plan.
///
/// For each link linear in the hosts, the boxes, the classes and the ports of one class.
#[tactic(auto, using(crate::proofs::PassLemmas::mapped_begun, crate::proofs::PassLemmas::mapped_more, crate::proofs::PassLemmas::mapped_lost, crate::proofs::PassLemmas::mapped_came))]
pub(crate) fn links_of(
    alloc: Global,
    nodes: &Nodes<'_>,
    plan: &Plan,
    items: &[LinkItem],
) -> Result<Option<List<LinkPlan>>, NoMemory>
    ensures { IfOk result (λ found. found ≡
        all_some (link_by (placed_by nodes.now) (places_of plan.now)) (links_back items.now)) }
{
    let mut links = List::new(alloc);
    for item in items {
        match link_of(nodes, plan, *item)? {
            Some(link) => links.push(link)?,
            None => return Ok(None),
        }
    }
    Ok(Some(links))
}

fn link_of(nodes: &Nodes<'_>, plan: &Plan, item: LinkItem) -> Result<Option<LinkPlan>, NoMemory>
    ensures { IfOk result (λ found. found ≡ link_by (placed_by nodes.now) (places_of plan.now) (link_back item)) }
{
    let Some(one) = end_of(nodes, plan, item.one)? else {
        return Ok(None);
    };
    match end_of(nodes, plan, item.two)? {
        Some(two) => Ok(Some(LinkPlan { one, two })),
        None => Ok(None),
    }
}

fn end_of(nodes: &Nodes<'_>, plan: &Plan, end: End) -> Result<Option<u32>, NoMemory>
    ensures { IfOk result (λ found. found ≡ end_by (placed_by nodes.now) (places_of plan.now) end) }
{
    match place_of(nodes, end)? {
        Some(place) => end_at(plan, place),
        None => Ok(None),
    }
}

// Where an end is. None comes exactly where a name stands for nothing.
fn place_of(nodes: &Nodes<'_>, end: End) -> Result<Option<Place>, NoMemory>
    ensures { IfOk result (λ found. found ≡ placed_by nodes.now end) }
{
    match end {
        End::Host(host) => host_place(nodes.hosts, host),
        End::Port(name, port) => port_place(nodes, name, port),
    }
}

fn host_place(hosts: &[Name], host: Name) -> Result<Option<Place>, NoMemory>
    ensures { IfOk result (λ found. found ≡ option_map AtHost (number_of hosts.now host)) }
{
    match number_of(hosts, host)? {
        Some(number) => Ok(Some(Place::Host(number))),
        None => Ok(None),
    }
}

fn port_place(nodes: &Nodes<'_>, name: Name, port: Name) -> Result<Option<Place>, NoMemory>
    ensures { IfOk result (λ found. found ≡ option_and_then
        (port_place (classes_back nodes.now.classes.now) (boxes_back nodes.now.boxes.now) port)
        (box_number (boxes_back nodes.now.boxes.now) name)) }
{
    match box_number(nodes.boxes, name)? {
        Some(number) => port_of_box(nodes, port, number),
        None => Ok(None),
    }
}

fn port_of_box(nodes: &Nodes<'_>, port: Name, number: u32) -> Result<Option<Place>, NoMemory>
    ensures { IfOk result (λ found. found ≡
        port_place (classes_back nodes.now.classes.now) (boxes_back nodes.now.boxes.now) port number) }
{
    match port_at(nodes, port, number)? {
        Some(place) => Ok(Some(Place::Port(number, place))),
        None => Ok(None),
    }
}

#[tactic(auto, using(crate::proofs::PlaceLemmas::port_here))]
fn port_at(nodes: &Nodes<'_>, port: Name, number: u32) -> Result<Option<u32>, NoMemory>
    ensures { IfOk result (λ found. found ≡ option_and_then (port_of (classes_back nodes.now.classes.now) port)
        (slice_get (boxes_back nodes.now.boxes.now) number)) }
{
    match nodes.boxes.get(number as usize) {
        Some(item) => port_of(nodes.classes, port, item),
        None => Ok(None),
    }
}

fn port_of(classes: &[&Class], port: Name, item: &BoxItem<'_>) -> Result<Option<u32>, NoMemory>
    ensures { IfOk result (λ found. found ≡ port_of (classes_back classes.now) port (box_back item.now)) }
{
    match class_named(classes, item.class) {
        Some(class) => number_of(class.ports.as_slice(), port),
        None => Ok(None),
    }
}

#[tactic(auto, using(crate::proofs::PlaceLemmas::box_found))]
fn box_number(boxes: &[BoxItem<'_>], name: Name) -> Result<Option<u32>, NoMemory>
    ensures { IfOk result (λ found. found ≡ box_number (boxes_back boxes.now) name) }
{
    match box_place(boxes, name) {
        Some(place) => numbered(place),
        None => Ok(None),
    }
}

fn box_place(boxes: &[BoxItem<'_>], name: Name) -> Option<usize>
    ensures { result ≡ position_from (λ item. same_name name item.name) 0 boxes.now }
{
    boxes.iter().position(|item| name == item.name)
}

// The number of the end at a place. None comes exactly where no end is there.
fn end_at(plan: &Plan, place: Place) -> Result<Option<u32>, NoMemory>
    ensures { IfOk result (λ found. found ≡ end_at (places_of plan.now) place) }
{
    match place {
        Place::Host(host) => Ok(host_end(plan, host)),
        Place::Port(number, port) => port_end(plan, number, port),
    }
}

#[tactic(auto, using(crate::proofs::EndLemmas::host_there, crate::proofs::EndLemmas::host_nowhere))]
fn host_end(plan: &Plan, host: u32) -> Option<u32>
    ensures { result ≡ end_at (places_of plan.now) (AtHost host) }
{
    if (host as usize) < plan.hosts.as_slice().len() {
        Some(host)
    } else {
        None
    }
}

#[tactic(auto, using(crate::proofs::EndLemmas::port_begun, crate::proofs::EndLemmas::port_later, crate::proofs::EndLemmas::port_there, crate::proofs::EndLemmas::port_nowhere, crate::proofs::EndLemmas::port_beyond))]
fn port_end(plan: &Plan, sought: u32, port: u32) -> Result<Option<u32>, NoMemory>
    ensures { IfOk result (λ found. found ≡ end_at (places_of plan.now) (AtPort sought port)) }
{
    let mut before = plan.hosts.as_slice().len();
    for (number, made) in plan.boxes.as_slice().iter().enumerate() {
        let ports = ports_of(plan, made);
        if number == sought as usize {
            if (port as usize) < ports {
                return numbered(sum(before, port as usize)?);
            }
            return Ok(None);
        }
        before = sum(before, ports)?;
    }
    Ok(None)
}

#[tactic(auto, using(crate::proofs::EndLemmas::ports_by))]
fn ports_of(plan: &Plan, made: &BoxPlan) -> usize
    ensures { result ≡ ports_of plan.now made.now }
{
    match plan.classes.as_slice().get(made.class as usize) {
        Some(class) => class.ports.as_slice().len(),
        None => 0,
    }
}

fn sum(one: usize, two: usize) -> Result<usize, NoMemory>
    ensures { IfOk result (λ sum. sum ≡ one + two) }
{
    match one.checked_add(two) {
        Some(sum) => Ok(sum),
        None => Err(NoMemory),
    }
}
