//! The tokens that are not yet read, the readings that look at one, and the tests of the next one.
ghost use Rattle.std.specs.Prelude.{All, ◌≡◌, ◌≤◌, ◌<◌, ℕ, List, length, OnOk};
ghost use Rattle.amdl_tree.specs.declared.token.Token.{Token};
ghost use Rattle.amdl_parser.specs.Reading.{same_sign};
ghost use Rattle.schedule_text.specs.Readings.{IsNamed, Reads, tokens_of, heads, begins, word_at, fixed_at, same_name};
ghost use Rattle.schedule_text.specs.Readings.{says, said_at, number_at, starts_step};

use crate::fault::Fault;
use amdl_tree::{Lexed, Name, Sign, Token};

#[tactic(auto, unfolding(amdl_parser::specs::Reading::same_sign))]
fn are_same_signs(one: Sign, two: Sign) -> bool
    ensures { result ≡ same_sign one two }
{
    one == two
}

#[tactic(auto, unfolding(crate::specs::Readings::same_name))]
fn is_spelled(name: Name, word: &[u8]) -> bool
    ensures { result ≡ same_name name word.now }
{
    name.bytes() == word
}

#[tactic(auto, unfolding(amdl_parser::specs::Reading::heads, amdl_parser::specs::Reading::is_same))]
fn begin_with_sign(tokens: &[Lexed], sign: Sign) -> bool
    ensures { result ≡ begins (Token.Sign sign) (tokens_of tokens.now) }
{
    match tokens {
        [next, ..] => match next.token {
            Token::Sign(other) => are_same_signs(other, sign),
            _ => false,
        },
        [] => false,
    }
}

#[tactic(auto, unfolding(crate::specs::Readings::says))]
fn is_this_word(token: &Token, word: &[u8]) -> bool
    ensures { result ≡ says word.now token.now }
{
    match token {
        Token::Word(name) => is_spelled(*name, word),
        _ => false,
    }
}

#[tactic(auto, unfolding(amdl_parser::specs::Reading::heads))]
fn begin_with_word(tokens: &[Lexed], word: &[u8]) -> bool
    ensures { result ≡ heads (says word.now) (tokens_of tokens.now) }
{
    match tokens {
        [next, ..] => is_this_word(&next.token, word),
        [] => false,
    }
}

#[tactic(auto, unfolding(crate::specs::Readings::starts_step))]
fn starts_a_step(token: &Token) -> bool
    ensures { result ≡ starts_step token.now }
{
    is_this_word(token, b"send")
        || is_this_word(token, b"deliver")
        || is_this_word(token, b"revert")
}

#[tactic(auto, unfolding(amdl_parser::specs::Reading::heads))]
pub fn begin_with_a_step(tokens: &[Lexed]) -> bool
    ensures { result ≡ heads starts_step (tokens_of tokens.now) }
{
    match tokens {
        [next, ..] => starts_a_step(&next.token),
        [] => false,
    }
}

/// Tokens of which the first are read in turn.
#[derive(Drop)]
pub struct Tokens<'a> {
    pub left: &'a [Lexed],
}

impl<'a> Tokens<'a> {
    /// Whether the next token is this sign.
    pub fn next_is_sign(&self, sign: Sign) -> bool
        ensures { result ≡ begins (Token.Sign sign) (tokens_of self.now.left.now) }
    {
        begin_with_sign(self.left, sign)
    }

    /// Whether the next token is this word.
    pub fn next_is_word(&self, word: &[u8]) -> bool
        ensures { result ≡ heads (says word.now) (tokens_of self.now.left.now) }
    {
        begin_with_word(self.left, word)
    }

    /// Reads a sign.
    #[tactic(auto, unfolding(amdl_parser::specs::Reading::heads, amdl_parser::specs::Reading::fixed_at))]
    pub fn sign(&mut self, sign: Sign) -> Result<(), Fault>
        ensures read { Reads (fixed_at (Token.Sign sign)) self.old.left.now self.new.left.now result }
        ensures shorter { OnOk result (length self.new.left.now < length self.old.left.now) }
    {
        if !begin_with_sign(self.left, sign) {
            return Err(Fault::Syntax(self.left.len()));
        }
        self.left = &self.left[1..];
        Ok(())
    }

    /// Reads this word.
    #[tactic(auto, unfolding(amdl_parser::specs::Reading::heads, crate::specs::Readings::said_at))]
    pub fn said(&mut self, word: &[u8]) -> Result<(), Fault>
        ensures read { Reads (said_at word.now) self.old.left.now self.new.left.now result }
        ensures shorter { OnOk result (length self.new.left.now < length self.old.left.now) }
    {
        if !begin_with_word(self.left, word) {
            return Err(Fault::Syntax(self.left.len()));
        }
        self.left = &self.left[1..];
        Ok(())
    }

    /// Reads a name.
    #[tactic(auto, unfolding(amdl_parser::specs::Reading::word_at))]
    pub fn word(&mut self) -> Result<Name, Fault>
        ensures read { Reads word_at self.old.left.now self.new.left.now result }
        ensures shorter { OnOk result (length self.new.left.now < length self.old.left.now) }
    {
        match self.left {
            [next, rest @ ..] => match next.token {
                Token::Word(name) => {
                    self.left = rest;
                    Ok(name)
                }
                _ => Err(Fault::Syntax(self.left.len())),
            },
            [] => Err(Fault::Syntax(0)),
        }
    }

    /// Reads a number.
    #[tactic(auto, unfolding(crate::specs::Readings::number_at))]
    pub fn number(&mut self) -> Result<u32, Fault>
        ensures read { Reads number_at self.old.left.now self.new.left.now result }
        ensures shorter { OnOk result (length self.new.left.now < length self.old.left.now) }
    {
        match self.left {
            [next, rest @ ..] => match next.token {
                Token::Number(number) => {
                    self.left = rest;
                    Ok(number)
                }
                _ => Err(Fault::Syntax(self.left.len())),
            },
            [] => Err(Fault::Syntax(0)),
        }
    }
}

fn show_name(token: Token)
    ensures { IsNamed token }
{
    if let Token::Word(name) = token {
        name.bytes();
    }
}

/// Each word among the tokens is a name. A name keeps that to itself and shows it where it is asked.
pub fn show_names(tokens: &[Lexed])
    ensures { All IsNamed (tokens_of tokens.now) }
{
    for lexed in tokens {
        show_name(lexed.token);
    }
}
