use tree_rules::Rule;

/// Why the text of a network is refused. Bytes, tokens and items are counted from 0.
#[derive(Clone, Copy, PartialEq, Eq, Debug)]
pub enum NetworkRefusal {
    /// The text has more bytes than a network text may have.
    TooLong,
    /// The byte at this place is no blank, stands in no comment and starts no token.
    BadByte(u32),
    /// At this place starts a word of more than 24 bytes, or a number of more than 9 digits.
    WordTooLong(u32),
    /// The text has more tokens than a network text may have.
    TooManyTokens,
    /// So many tokens begin a network, and none goes on with the next token, or the tokens end too early.
    Syntax(u32),
    /// So many tokens begin a network, and only networks that are too deep go on with the next token.
    Deep(u32),
    /// The item is the first of which a rule holds together with the items before it, and the rule is the first that
    /// holds of it. Where no item is a field, and no other rule holds, the item is the number of items.
    BrokenRule { item: u32, rule: Rule },
}
