ghost use Rattle.std.specs.Prelude.{◌↔◌, IsTrue};
ghost use Rattle.net_plan.specs.Fact.{Precedes};

/// What the analysis knows of a network. The derived order is the file order: all `Out` by end and packet, then all
/// `State` by box, packet and mask, then all `Abort` by box and packet.
#[derive(Clone, Copy, PartialEq, Eq, PartialOrd, Ord, Debug)]
pub enum Fact {
    /// A packet may be put out at an end: the end, then the packet.
    Out(u32, u32),
    /// A box may answer its queries at a packet with this mask: the box, the packet, the mask.
    State(u32, u32, u16),
    /// A box may abort at a packet: the box, then the packet.
    Abort(u32, u32),
}

/// Where an end is.
#[derive(Clone, Copy, PartialEq, Eq, Debug)]
pub enum Place {
    /// At a host.
    Host(u32),
    /// At a box and one of its ports.
    Port(u32, u32),
}

/// Whether a fact stands before another in file order, which is also the order of the type.
pub fn precedes(one: Fact, two: Fact) -> bool
    ensures { IsTrue result ↔ Precedes one two }
{
    one < two
}
