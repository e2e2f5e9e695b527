/// Why a step isn't made.
#[derive(Clone, Copy, PartialEq, Eq, Debug)]
pub enum StepRefusal {
    /// The host, the end, the box or the packet isn't there.
    NoSuch,
    /// The host sends no such packet.
    NotSent,
    /// The packet doesn't wait in the channel towards the end, or the end has no link.
    NoCopy,
    /// Channels are ordered, and the packet waits, but not at the head of its channel.
    NotHead,
    /// The choice of this number is the first that no execution of the handler makes, counted from 0; or there are only
    /// so many choices, and an execution that begins with them wants more. A host makes no choices.
    BadChoice(usize),
    /// There is no memory for it.
    NoMemory,
}
