ghost use Rattle.std.specs.Prelude.{◌≡◌};
ghost use Rattle.amdl_tree.specs.Token.{spelling_of_sign};

use crate::name::Name;
use crate::reserved::Reserved;

/// A token of a network text, an edit script or a schedule.
#[derive(Clone, Copy, PartialEq, Eq, Debug)]
pub enum Token {
    /// A word that is not reserved.
    Word(Name),
    /// A number of at most 9 digits, as its value.
    Number(u32),
    /// A reserved word.
    Key(Reserved),
    /// A sign.
    Sign(Sign),
}

/// A sign of the language.
#[derive(Clone, Copy, PartialEq, Eq, Debug)]
pub enum Sign {
    /// `;`
    Semicolon,
    /// `:`
    Colon,
    /// `:=`
    Becomes,
    /// `,`
    Comma,
    /// `.`
    Point,
    /// `{`
    OpenBrace,
    /// `}`
    CloseBrace,
    /// `(`
    OpenParen,
    /// `)`
    CloseParen,
    /// `[`
    OpenBracket,
    /// `]`
    CloseBracket,
    /// `=`
    Equals,
    /// `!=`
    Differs,
    /// `->`
    Arrow,
    /// `--`
    Dashes,
    /// `|`
    Bar,
}

impl Sign {
    /// The sign itself, one or two bytes.
    pub fn spelling(self) -> &'static [u8]
        ensures { result.now ≡ spelling_of_sign self }
    {
        match self {
            Sign::Semicolon => b";",
            Sign::Colon => b":",
            Sign::Becomes => b":=",
            Sign::Comma => b",",
            Sign::Point => b".",
            Sign::OpenBrace => b"{",
            Sign::CloseBrace => b"}",
            Sign::OpenParen => b"(",
            Sign::CloseParen => b")",
            Sign::OpenBracket => b"[",
            Sign::CloseBracket => b"]",
            Sign::Equals => b"=",
            Sign::Differs => b"!=",
            Sign::Arrow => b"->",
            Sign::Dashes => b"--",
            Sign::Bar => b"|",
        }
    }
}

/// A token with the place where it stands in its text: its first byte, and the byte behind its last.
#[derive(Clone, Copy, PartialEq, Eq, Debug)]
pub struct Lexed {
    pub token: Token,
    pub start: u32,
    pub end: u32,
}
