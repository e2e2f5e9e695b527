//! The tokens that are not yet read, the three readings that look at one, and the tests of the next one.
ghost use Rattle.std.specs.Prelude.{All, ◌≡◌, ◌≤◌, ◌<◌, length, MatchResult, OnOk, Ok};
ghost use Rattle.amdl_tree.specs.declared.token.Token.{Token};
ghost use Rattle.amdl_parser.specs.Reading.{IsNamed, Reads, tokens_of, same_sign, same_key, heads, begins, word_at};
ghost use Rattle.amdl_parser.specs.Reading.{fixed_at};

use crate::fault::Fault;
use amdl_tree::{Lexed, Name, Reserved, Sign, Token};

#[tactic(auto, unfolding(crate::specs::Reading::same_sign))]
fn are_same_signs(one: Sign, two: Sign) -> bool
    ensures { result ≡ same_sign one two }
{
    one == two
}

#[tactic(auto, unfolding(crate::specs::Reading::same_key))]
fn are_same_words(one: Reserved, two: Reserved) -> bool
    ensures { result ≡ same_key one two }
{
    one == two
}

#[tactic(auto, unfolding(crate::specs::Reading::heads, crate::specs::Reading::is_same))]
fn begin_with_sign(tokens: &[Lexed], sign: Sign) -> bool
    ensures { result ≡ begins (Token.Sign sign) (tokens_of tokens.now) }
{
    match tokens {
        [next, ..] => match next.token {
            Token::Sign(other) => are_same_signs(other, sign),
            _ => false,
        },
        [] => false,
    }
}

#[tactic(auto, unfolding(crate::specs::Reading::heads, crate::specs::Reading::is_same))]
fn begin_with_key(tokens: &[Lexed], word: Reserved) -> bool
    ensures { result ≡ begins (Token.Key word) (tokens_of tokens.now) }
{
    match tokens {
        [next, ..] => match next.token {
            Token::Key(other) => are_same_words(other, word),
            _ => false,
        },
        [] => false,
    }
}

/// Tokens of which the first are read in turn.
#[derive(Drop)]
pub struct Tokens<'a> {
    pub left: &'a [Lexed],
}

impl<'a> Tokens<'a> {
    /// Whether the next token is this sign.
    pub fn next_is_sign(&self, sign: Sign) -> bool
        ensures { result ≡ begins (Token.Sign sign) (tokens_of self.now.left.now) }
    {
        begin_with_sign(self.left, sign)
    }

    /// Whether the next token is this reserved word.
    pub fn next_is_key(&self, word: Reserved) -> bool
        ensures { result ≡ begins (Token.Key word) (tokens_of self.now.left.now) }
    {
        begin_with_key(self.left, word)
    }

    /// Reads a sign.
    #[tactic(auto, unfolding(crate::specs::Reading::heads, crate::specs::Reading::fixed_at))]
    pub fn sign(&mut self, sign: Sign) -> Result<(), Fault>
        ensures read { Reads (fixed_at (Token.Sign sign)) self.old.left.now self.new.left.now result }
        ensures shorter { OnOk result (length self.new.left.now < length self.old.left.now) }
    {
        if !begin_with_sign(self.left, sign) {
            return Err(Fault::Syntax(self.left.len()));
        }
        self.left = &self.left[1..];
        Ok(())
    }

    /// Reads a reserved word.
    #[tactic(auto, unfolding(crate::specs::Reading::heads, crate::specs::Reading::fixed_at))]
    pub fn key(&mut self, word: Reserved) -> Result<(), Fault>
        ensures read { Reads (fixed_at (Token.Key word)) self.old.left.now self.new.left.now result }
        ensures shorter { OnOk result (length self.new.left.now < length self.old.left.now) }
    {
        if !begin_with_key(self.left, word) {
            return Err(Fault::Syntax(self.left.len()));
        }
        self.left = &self.left[1..];
        Ok(())
    }

    /// Reads a name.
    #[tactic(auto, unfolding(crate::specs::Reading::word_at))]
    pub fn word(&mut self) -> Result<Name, Fault>
        ensures read { Reads word_at self.old.left.now self.new.left.now result }
        ensures shorter { OnOk result (length self.new.left.now < length self.old.left.now) }
    {
        match self.left {
            [next, rest @ ..] => match next.token {
                Token::Word(name) => {
                    self.left = rest;
                    Ok(name)
                }
                _ => Err(Fault::Syntax(self.left.len())),
            },
            [] => Err(Fault::Syntax(0)),
        }
    }
}

fn show_name(token: Token)
    ensures { IsNamed token }
{
    if let Token::Word(name) = token {
        name.bytes();
    }
}

/// Each word among the tokens is a name. A name keeps that to itself and shows it where it is asked.
pub fn show_names(tokens: &[Lexed])
    ensures { All IsNamed (tokens_of tokens.now) }
{
    for lexed in tokens {
        show_name(lexed.token);
    }
}
