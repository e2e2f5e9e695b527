use amdl_tree::List;
use box_contents::Entry;

/// How channels hand packets on.
#[derive(Clone, Copy, PartialEq, Eq, Debug)]
pub enum Mode {
    /// Any packet of a channel may be delivered next.
    Unordered,
    /// The packet at the head of a channel is delivered next.
    Ordered,
}

/// One step of a network.
#[derive(Debug, Drop)]
pub enum Step {
    /// A host sends a packet: the host, then the packet.
    Send(u32, u32),
    /// A packet is delivered: the receiving end, the packet, and the choices that the handler of a box makes, none at a
    /// host.
    Deliver(u32, u32, List<u32>),
    /// A box goes back to its first contents.
    Revert(u32),
}

/// What a step does that others may see.
#[derive(Clone, Copy, PartialEq, Eq, Debug)]
pub enum Event {
    /// Packets moved, or contents changed.
    Moved,
    /// A packet was delivered to a host: the host, then the packet.
    Delivered(u32, u32),
    /// A box aborted at a packet: the box, then the packet.
    Aborted(u32, u32),
}

/// The state of a network: for each end, the packets that wait in the channel out of it, in their order, and for each
/// box its contents, in rising order. The list of an end without a link is empty.
#[derive(Debug, Drop)]
pub struct World {
    pub waiting: List<List<u32>>,
    pub contents: List<List<Entry>>,
}
