ghost use Rattle.std.specs.Prelude.{◌≡◌, ◌≢◌, MatchOption, All, length};
ghost use Rattle.std.specs.List.{Contains};
ghost use Rattle.amdl_tree.specs.declared.reserved.Reserved.{Reserved};
ghost use Rattle.amdl_tree.specs.Word.{spelling_of_reserved};

/// A reserved word, which is no name. The variant is the word with a capital, but for `type`.
#[derive(Clone, Copy, PartialEq, Eq, Debug)]
pub enum Reserved {
    Network,
    Kind,
    Field,
    Middlebox,
    Port,
    Relation,
    On,
    Host,
    Box,
    With,
    Link,
    Sends,
    Forbid,
    Insert,
    Remove,
    Output,
    Abort,
    If,
    Fi,
    Pick,
    In,
    Has,
    Not,
    And,
    Or,
    True,
    Add,
    Drop,
    Swap,
    Verdict,
    Invariant,
}

const OF_TWO: [Reserved; 5] = [
    Reserved::On,
    Reserved::If,
    Reserved::Fi,
    Reserved::In,
    Reserved::Or,
];

const OF_THREE: [Reserved; 5] = [
    Reserved::Box,
    Reserved::Has,
    Reserved::Not,
    Reserved::And,
    Reserved::Add,
];

const OF_FOUR: [Reserved; 9] = [
    Reserved::Kind,
    Reserved::Port,
    Reserved::Host,
    Reserved::With,
    Reserved::Link,
    Reserved::Pick,
    Reserved::True,
    Reserved::Drop,
    Reserved::Swap,
];

const OF_FIVE: [Reserved; 3] = [Reserved::Field, Reserved::Sends, Reserved::Abort];

const OF_SIX: [Reserved; 4] = [
    Reserved::Forbid,
    Reserved::Insert,
    Reserved::Remove,
    Reserved::Output,
];

const OF_SEVEN: [Reserved; 2] = [Reserved::Network, Reserved::Verdict];

const OF_EIGHT: [Reserved; 1] = [Reserved::Relation];

const OF_NINE: [Reserved; 2] = [Reserved::Middlebox, Reserved::Invariant];

impl Reserved {
    /// The word itself.
    pub fn spelling(self) -> &'static [u8]
        ensures { result.now ≡ spelling_of_reserved self }
    {
        match self {
            Reserved::Network => b"network",
            Reserved::Kind => b"type",
            Reserved::Field => b"field",
            Reserved::Middlebox => b"middlebox",
            Reserved::Port => b"port",
            Reserved::Relation => b"relation",
            Reserved::On => b"on",
            Reserved::Host => b"host",
            Reserved::Box => b"box",
            Reserved::With => b"with",
            Reserved::Link => b"link",
            Reserved::Sends => b"sends",
            Reserved::Forbid => b"forbid",
            Reserved::Insert => b"insert",
            Reserved::Remove => b"remove",
            Reserved::Output => b"output",
            Reserved::Abort => b"abort",
            Reserved::If => b"if",
            Reserved::Fi => b"fi",
            Reserved::Pick => b"pick",
            Reserved::In => b"in",
            Reserved::Has => b"has",
            Reserved::Not => b"not",
            Reserved::And => b"and",
            Reserved::Or => b"or",
            Reserved::True => b"true",
            Reserved::Add => b"add",
            Reserved::Drop => b"drop",
            Reserved::Swap => b"swap",
            Reserved::Verdict => b"verdict",
            Reserved::Invariant => b"invariant",
        }
    }

    /// The reserved word with this spelling. None comes exactly where there is none. It takes no memory, and compares
    /// the bytes with the words of their length, at most nine.
    pub fn of(bytes: &[u8]) -> Option<Reserved>
        ensures { MatchOption result ((word : Reserved) → bytes.now ≢ spelling_of_reserved word)
            (λ word. bytes.now ≡ spelling_of_reserved word) }
    {
        first_spelled(of_length(bytes.len()), bytes)
    }
}

// The reserved words of this length.
fn of_length(size: usize) -> &'static [Reserved]
    ensures { (word : Reserved) → length (spelling_of_reserved word) ≡ size → Contains result.now word }
{
    match size {
        2 => &OF_TWO,
        3 => &OF_THREE,
        4 => &OF_FOUR,
        5 => &OF_FIVE,
        6 => &OF_SIX,
        7 => &OF_SEVEN,
        8 => &OF_EIGHT,
        9 => &OF_NINE,
        _ => &[],
    }
}

// The first of the words with this spelling.
fn first_spelled(words: &[Reserved], bytes: &[u8]) -> Option<Reserved>
    ensures { MatchOption result (All (λ word. bytes.now ≢ spelling_of_reserved word) words.now)
        (λ word. bytes.now ≡ spelling_of_reserved word) }
{
    words.iter().copied().find(|word| word.spelling() == bytes)
}
