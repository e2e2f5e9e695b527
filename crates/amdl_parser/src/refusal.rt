/// Why tokens are no tree. Tokens are counted from 0.
#[derive(Clone, Copy, PartialEq, Eq, Debug)]
pub enum SyntaxRefusal {
    /// So many tokens begin a tree, and no tree goes on with the next token. Where the number is that of all tokens,
    /// the tokens end too early.
    Syntax(u32),
    /// So many tokens begin a tree, and only trees that are too deep go on with the next token.
    Deep(u32),
    /// Want of memory.
    NoMemory,
}
