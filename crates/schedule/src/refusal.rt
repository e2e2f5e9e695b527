/// Why tokens are no schedule of a network. Tokens and steps are counted from 0.
#[derive(Clone, Copy, PartialEq, Eq, Debug)]
pub enum ScheduleRefusal {
    /// So many tokens begin a schedule, and no schedule goes on with the next token. Where the number is that of all
    /// tokens, the tokens end too early.
    Syntax(u32),
    /// The host, end or box of the step of this number isn't declared.
    UnknownName(u32),
    /// The packet of the step of this number isn't below the number of packets.
    OutOfRange(u32),
    /// Want of memory.
    NoMemory,
}
