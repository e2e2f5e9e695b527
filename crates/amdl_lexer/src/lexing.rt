ghost use Rattle.std.specs.Prelude.{◌≡◌, ◌≤◌, ◌<◌, ℕ, length, List, [], Ok, Err, MatchResult};
ghost use Rattle.amdl_tree.specs.declared.token.Lexed.{Lexed};
ghost use Rattle.amdl_lexer.specs.Answer.{IsLexed, IsRefused, IsOrNoMemory, StopsAt, StartsNothing, StartsOverlong};
ghost use Rattle.amdl_lexer.specs.Answer.{IsOverfull};

use crate::front::{Front, front_of};
use amdl_tree::{Lexed, List, NoMemory};
use std::alloc::Global;

/// Why a text has no tokens.
#[derive(Clone, Copy, PartialEq, Eq, Debug)]
pub enum LexRefusal {
    /// The byte at this place is no blank, stands in no comment and starts no token.
    BadByte(u32),
    /// At this place starts a word of more than 24 bytes, or a number of more than 9 digits.
    WordTooLong(u32),
    /// Behind 1,000,000 tokens stands one more.
    TooManyTokens,
    /// Memory ran out.
    NoMemory,
}

impl From<NoMemory> for LexRefusal {
    ghost use Rattle.amdl_lexer.specs.declared.lexing.LexRefusal.TheVariants as refusals;

    ghost from_gives = { λ _ refusal. refusal ≡ refusals.NoMemory };

    fn from(_: NoMemory) -> LexRefusal {
        LexRefusal::NoMemory
    }
}

const MOST_TOKENS: usize = 1_000_000;

/// The tokens of a text of at most 4,194,304 bytes, in order, each with the place of its first byte and the place
/// behind its last.
///
/// Blanks are space, tab, CR and LF. A comment runs from `#` to the end of its line and may hold any byte. Each token
/// is the longest that starts at its place. The first fault in byte order is the one that is named, and a text has
/// tokens or one fault, never both. Time is linear in the bytes, and memory is taken for the tokens alone.
pub fn lex(alloc: Global, bytes: &[u8]) -> Result<List<Lexed>, LexRefusal>
    requires { length bytes.now ≤ 4194304 }
    ensures answer { MatchResult result (λ tokens. IsLexed bytes.now tokens) (λ refusal. IsRefused bytes.now refusal) }

    // Each answer also comes wherever the text has its cause, unless memory runs out.
    ensures lexed { (tokens : List Lexed) → IsLexed bytes.now tokens → IsOrNoMemory result (Ok tokens) }
    ensures bad_byte { (at : ℕ) → StopsAt StartsNothing bytes.now at →
        IsOrNoMemory result (Err (LexRefusal.BadByte at)) }
    ensures too_long { (at : ℕ) → StopsAt StartsOverlong bytes.now at →
        IsOrNoMemory result (Err (LexRefusal.WordTooLong at)) }
    ensures too_many { IsOverfull bytes.now → IsOrNoMemory result (Err LexRefusal.TooManyTokens) }
{
    let mut tokens = List::new(alloc);
    read(bytes, &mut tokens)?;
    Ok(tokens)
}

// Puts the tokens of the text last, where there are none before.
fn read(bytes: &[u8], tokens: &mut List<Lexed>) -> Result<(), LexRefusal>
    requires short { length bytes.now ≤ 4194304 }
    requires empty { tokens.old ≡ [] }
    ensures { MatchResult result (λ _. IsLexed bytes.now tokens.new) (λ refusal. IsRefused bytes.now refusal) }
{
    let mut at = 0;
    while at < bytes.len() {
        match front_of(&bytes[at..]) {
            Front::Gap(size) => {
                at += size;
            }
            Front::Good(token, size) => {
                if tokens.as_slice().len() == MOST_TOKENS {
                    return Err(LexRefusal::TooManyTokens);
                }
                let start = at as u32;
                at += size;
                let end = at as u32;
                tokens.push(Lexed { token, start, end })?;
            }
            Front::Overlong => return Err(LexRefusal::WordTooLong(at as u32)),
            Front::Nothing => return Err(LexRefusal::BadByte(at as u32)),
        }
    }
    Ok(())
}
