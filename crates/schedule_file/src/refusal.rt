/// Why the text of a schedule is refused. Bytes, tokens and steps are counted from 0.
#[derive(Clone, Copy, PartialEq, Eq, Debug)]
pub enum FileRefusal {
    /// The text has more bytes than a schedule may have. Who loads it finds that out.
    TooLong,
    /// The byte at this place is no blank, stands in no comment and starts no token.
    BadByte(u32),
    /// At this place starts a word of more than 24 bytes, or a number of more than 9 digits.
    WordTooLong(u32),
    /// The text has more tokens than a schedule may have.
    TooManyTokens,
    /// So many tokens begin a schedule, and none goes on with the next token, or the tokens end too early.
    Syntax(u32),
    /// The host, end or box of the step of this number isn't declared.
    UnknownName(u32),
    /// The packet of the step of this number isn't below the number of packets.
    OutOfRange(u32),
}
