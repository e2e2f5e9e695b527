//! Hosts, boxes and ends by their names.
ghost use Rattle.std.specs.Prelude.{◌≡◌, ◌≢◌, ℕ, ◌<◌, [], length, slice_index_or, All, MatchOption};
ghost use Rattle.net_plan.specs.declared.plan.HostPlan.{HostPlan};
ghost use Rattle.net_plan.specs.declared.plan.BoxPlan.{BoxPlan};
ghost use Rattle.net_plan.specs.Plan.{boxes_of, box_at, ports_of, port_name_at, IsHostNamed, IsBoxNamed};
ghost use Rattle.net_plan.specs.declared.fact.Place.{Place};
ghost use Rattle.net_plan.specs.Ends.{IsEndNamed, IsEndAt};

use super::Network;
use crate::plan::{BoxPlan, HostPlan};
use amdl_tree::Name;

impl Network {
    /// The number of the host with this name. None comes exactly where there is none. Linear in the hosts.
    pub fn find_host(&self, name: Name) -> Option<u32>
        ensures { MatchOption result ((host : ℕ) → IsHostNamed self.now name host → ⊥) (IsHostNamed self.now name) }
    {
        let plan = &self.plan;
        let found = place_of_host(plan.hosts.as_slice(), name)?;
        Some(found as u32)
    }

    /// The number of the box with this name. None comes exactly where there is none. Linear in the boxes.
    pub fn find_box(&self, name: Name) -> Option<u32>
        ensures { MatchOption result ((b : ℕ) → IsBoxNamed self.now name b → ⊥) (IsBoxNamed self.now name) }
    {
        let plan = &self.plan;
        let found = place_of_box(plan.boxes.as_slice(), name)?;
        Some(found as u32)
    }

    /// The number of the end with this name: a host's has the name of the host and no port, a port's has the names of
    /// its box and its own. None comes exactly where no such end is declared. Linear in the hosts, or in the boxes and
    /// the ports of the box.
    pub fn find_end(&self, host_or_box: Name, port: Option<Name>) -> Option<u32>
        ensures { MatchOption result ((end : ℕ) → IsEndNamed self.now host_or_box port end → ⊥)
            (IsEndNamed self.now host_or_box port) }
    {
        match port {
            None => self.find_host_end(host_or_box),
            Some(port) => self.find_port_end(host_or_box, port),
        }
    }

    fn find_host_end(&self, name: Name) -> Option<u32>
        ensures { MatchOption result ((end : ℕ) → IsEndNamed self.now name None end → ⊥)
            (IsEndNamed self.now name None) }
    {
        match self.find_host(name) {
            Some(host) => Some(self.end_of_host(host)),
            None => None,
        }
    }

    fn find_port_end(&self, name: Name, port: Name) -> Option<u32>
        ensures { MatchOption result ((end : ℕ) → IsEndNamed self.now name (Some port) end → ⊥)
            (IsEndNamed self.now name (Some port)) }
    {
        self.sound();
        match self.find_box(name) {
            Some(b) => self.find_end_of(b, port),
            None => None,
        }
    }

    // The end of the port of a box with this name.
    fn find_end_of(&self, b: u32, name: Name) -> Option<u32>
        requires { b < boxes_of self.now }
        ensures { MatchOption result
            ((port : ℕ) → port < ports_of self.now (box_at self.now b) → port_name_at self.now (box_at self.now b) port ≢ name)
            (λ end. (port : ℕ) × IsEndAt self.now end (Place.Port b port) × (port_name_at self.now (box_at self.now b) port ≡ name)) }
    {
        match self.find_port(b, name) {
            Some(port) => Some(self.end_of_port(b, port)),
            None => None,
        }
    }

    // The number of the port of a box with this name.
    fn find_port(&self, b: u32, name: Name) -> Option<u32>
        requires { b < boxes_of self.now }
        ensures { MatchOption result
            ((port : ℕ) → port < ports_of self.now (box_at self.now b) → port_name_at self.now (box_at self.now b) port ≢ name)
            (λ port. (port < ports_of self.now (box_at self.now b)) × (port_name_at self.now (box_at self.now b) port ≡ name)) }
    {
        let found = place_of_name(self.class(b).ports.as_slice(), name)?;
        Some(found as u32)
    }
}

// The place of the first of the hosts that has this name.
fn place_of_host(hosts: &[HostPlan], name: Name) -> Option<usize>
    ensures { MatchOption result (All (λ host. host.name ≢ name) hosts.now)
        (λ place. (place < length hosts.now) × ((d : HostPlan) → (slice_index_or hosts.now place d).name ≡ name)) }
{
    hosts.iter().position(|host| host.name == name)
}

// The place of the first of the boxes that has this name.
fn place_of_box(boxes: &[BoxPlan], name: Name) -> Option<usize>
    ensures { MatchOption result (All (λ boxed. boxed.name ≢ name) boxes.now)
        (λ place. (place < length boxes.now) × ((d : BoxPlan) → (slice_index_or boxes.now place d).name ≡ name)) }
{
    boxes.iter().position(|boxed| boxed.name == name)
}

// The place of the first of the names that is this one.
fn place_of_name(names: &[Name], name: Name) -> Option<usize>
    ensures { MatchOption result ((place : ℕ) → place < length names.now → slice_index_or names.now place [] ≢ name)
        (λ place. (place < length names.now) × (slice_index_or names.now place [] ≡ name)) }
{
    names.iter().position(|other| *other == name)
}
