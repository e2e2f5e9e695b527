ghost use Rattle.std.specs.Prelude.{◌≡◌, ◌≤◌, length, Result, IfOk};
ghost use Rattle.amdl_tree.specs.declared.tree.Tree.{Tree};
ghost use Rattle.amdl_parser.specs.Answer.{tokens_of};
ghost use Rattle.network_file.specs.declared.reading.ReadRefusal.{ReadRefusal};
ghost use Rattle.network_file.specs.Reading.{IsParsedAs, IsReadAs};

use crate::laws::one_reading;
use amdl_lexer::{LexRefusal, lex};
use amdl_parser::{SyntaxRefusal, parse};
use amdl_tree::{Lexed, NoMemory, Tree};
use std::alloc::Global;

/// Why a text is no network file. Bytes and tokens are counted from 0.
#[derive(Clone, Copy, PartialEq, Eq, Debug)]
pub enum ReadRefusal {
    /// The byte at this place is no blank, stands in no comment and starts no token.
    BadByte(u32),
    /// At this place starts a word of more than 24 bytes, or a number of more than 9 digits.
    WordTooLong(u32),
    /// Behind 1,000,000 tokens stands one more.
    TooManyTokens,
    /// So many tokens begin a network, and none goes on with the next token, or the tokens end too early.
    Syntax(u32),
    /// So many tokens begin a network, and only networks that are too deep go on with the next token.
    Deep(u32),
}

/// The tree of a network file of at most 4,194,304 bytes, or why the text is none.
///
/// The whole text is cut into tokens before any is read, so a fault of its bytes goes before one of its tokens; of each
/// kind the first fault counts. The one error is want of memory. Time is linear in the text.
pub fn read(alloc: Global, text: &[u8]) -> Result<Result<Tree, ReadRefusal>, NoMemory>
    requires { length text.now ≤ 4194304 }
    ensures read { IfOk result (IsReadAs text.now) }

    // What the text is read as by the definitions is the answer, unless memory runs out.
    ensures exact { (reading : Result Tree ReadRefusal) → IsReadAs text.now reading →
        IfOk result (λ found. found ≡ reading) }
{
    one_reading();
    read_text(alloc, text)
}

fn read_text(alloc: Global, text: &[u8]) -> Result<Result<Tree, ReadRefusal>, NoMemory>
    requires { length text.now ≤ 4194304 }
    ensures { IfOk result (IsReadAs text.now) }
{
    match lex(alloc, text) {
        Ok(tokens) => read_tokens(alloc, tokens.as_slice()),
        Err(LexRefusal::BadByte(at)) => Ok(Err(ReadRefusal::BadByte(at))),
        Err(LexRefusal::WordTooLong(at)) => Ok(Err(ReadRefusal::WordTooLong(at))),
        Err(LexRefusal::TooManyTokens) => Ok(Err(ReadRefusal::TooManyTokens)),
        Err(LexRefusal::NoMemory) => Err(NoMemory),
    }
}

fn read_tokens(alloc: Global, tokens: &[Lexed]) -> Result<Result<Tree, ReadRefusal>, NoMemory>
    requires { length tokens.now ≤ 1000000 }
    ensures { IfOk result (IsParsedAs (tokens_of tokens.now)) }
{
    match parse(alloc, tokens) {
        Ok(tree) => Ok(Ok(tree)),
        Err(SyntaxRefusal::Syntax(at)) => Ok(Err(ReadRefusal::Syntax(at))),
        Err(SyntaxRefusal::Deep(at)) => Ok(Err(ReadRefusal::Deep(at))),
        Err(SyntaxRefusal::NoMemory) => Err(NoMemory),
    }
}
