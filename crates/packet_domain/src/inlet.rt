// The ports to which ends are linked.
ghost use Rattle.std.specs.Prelude.{◌≡◌, ℕ, ◌<◌, MatchOption};
ghost use Rattle.net_plan.specs.Plan.{boxes_of, box_at, ports_of};
ghost use Rattle.net_plan.specs.Ends.{ends_of, IsLinked};
ghost use Rattle.packet_domain.specs.Reasons.{LeadsTo};
ghost use Rattle.packet_domain.specs.Inlet.{IsInlet};

use net_plan::laws::partner_is_unique;
use net_plan::{Network, Place};

/// A port of a box, and the end that is linked to it.
#[derive(Clone, Copy, PartialEq, Eq, Debug)]
pub struct Inlet {
    pub end: u32,
    pub b: u32,
    pub port: u32,
}

/// The port to which an end is linked. None comes exactly where it is linked to none.
pub fn inlet_of_end(net: &Network, end: u32) -> Option<Inlet>
    requires { end < ends_of net.now }
    ensures { MatchOption result ((b port : ℕ) → LeadsTo net.now end b port → ⊥)
        (λ inlet. (inlet.end ≡ end) × IsInlet net.now inlet) }
{
    net.sound();
    partner_is_unique();
    match net.partner(end) {
        Some(other) => inlet_at(net, end, other),
        None => None,
    }
}

// The same, where the end is linked to the other one.
fn inlet_at(net: &Network, end: u32, other: u32) -> Option<Inlet>
    requires end { end < ends_of net.now }
    requires other { other < ends_of net.now }
    requires linked { IsLinked net.now end other }
    ensures { MatchOption result ((b port : ℕ) → LeadsTo net.now end b port → ⊥)
        (λ inlet. (inlet.end ≡ end) × IsInlet net.now inlet) }
{
    net.sound();
    partner_is_unique();
    match net.place(other) {
        Place::Port(b, port) => Some(Inlet { end, b, port }),
        Place::Host(_) => None,
    }
}

/// A port of a box with the end that is linked to it. None comes exactly where none is.
pub fn inlet_of_port(net: &Network, b: u32, port: u32) -> Option<Inlet>
    requires boxed { b < boxes_of net.now }
    requires port { port < ports_of net.now (box_at net.now b) }
    ensures { MatchOption result ((end : ℕ) → LeadsTo net.now end b port → ⊥)
        (λ inlet. (inlet.b ≡ b) × (inlet.port ≡ port) × IsInlet net.now inlet) }
{
    match net.partner(net.end_of_port(b, port)) {
        Some(end) => Some(Inlet { end, b, port }),
        None => None,
    }
}
