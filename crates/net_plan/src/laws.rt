//! Laws over the definitions, each the contract of a function that does nothing.
ghost use Rattle.net_plan.specs.Laws.{RisingIsUnique, LeastIsUnique, PartnerIsUnique, PartnerIsLinked, DerivableIsSent};
ghost use Rattle.net_plan.specs.Laws.{HostEnds, PortEnds, CellsAreFacts};

/// A rising list of facts is settled by its members.
pub fn rising_is_unique()
    ensures { RisingIsUnique }
{}

/// A network without boxes has one list of derivable facts.
pub fn least_is_unique()
    ensures { LeastIsUnique }
{}

/// An end has at most one partner.
pub fn partner_is_unique()
    ensures { PartnerIsUnique }
{}

/// The partner of an end is the end that it is linked with.
pub fn partner_is_linked()
    ensures { PartnerIsLinked }
{}

/// Where there is no box, exactly what the hosts send is derivable.
pub fn derivable_is_sent()
    ensures { DerivableIsSent }
{}

/// The ends of the hosts stand first, in the order of the hosts.
pub fn host_ends()
    ensures { HostEnds }
{}

/// The ports of a box stand behind the hosts and the ports of the boxes before it, in their order.
pub fn port_ends()
    ensures { PortEnds }
{}

/// Facts in range and cells are one to one, and in the same order.
pub fn cells_are_facts()
    ensures { CellsAreFacts }
{}
