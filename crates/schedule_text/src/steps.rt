use amdl_tree::{End, List, Name};

/// One step of a schedule, by the names of a network.
#[derive(Debug, Drop)]
pub enum ScheduleStep {
    /// A host sends a packet: the host, then the packet.
    Send(Name, u32),
    /// A packet is delivered: the receiving end, the packet, and the choices that the handler of a box makes. Without
    /// any, the brackets are left out.
    Deliver(End, u32, List<u32>),
    /// A box goes back to its first contents.
    Revert(Name),
}
