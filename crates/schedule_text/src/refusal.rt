/// Why tokens are no schedule. Tokens are counted from 0.
#[derive(Clone, Copy, PartialEq, Eq, Debug)]
pub enum ScheduleSyntax {
    /// So many tokens begin a schedule, and no schedule goes on with the next token. Where the number is that of all
    /// tokens, the tokens end too early.
    Syntax(u32),
    /// Want of memory.
    NoMemory,
}

/// Why named steps are no steps of a network. Steps are counted from 0, and the first faulty one counts.
#[derive(Clone, Copy, PartialEq, Eq, Debug)]
pub enum ResolveRefusal {
    /// The host, end or box of the step of this number isn't declared.
    UnknownName(u32),
    /// The packet of the step of this number isn't below the number of packets.
    OutOfRange(u32),
    /// Want of memory.
    NoMemory,
}

/// The same of one step.
#[derive(Clone, Copy, PartialEq, Eq, Debug)]
pub enum StepFault {
    UnknownName,
    OutOfRange,
    NoMemory,
}
