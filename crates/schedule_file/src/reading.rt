ghost use Rattle.std.specs.Prelude.{◌≡◌, ◌≤◌, List, length, Result, IfOk};
ghost use Rattle.amdl_parser.specs.Answer.{tokens_of};
ghost use Rattle.net_runs.specs.declared.world.Step.{Step};
ghost use Rattle.schedule_file.specs.declared.refusal.FileRefusal.{FileRefusal};
ghost use Rattle.schedule_file.specs.Reading.{AreReadAs, IsReadAs};

use crate::laws::one_reading;
use crate::refusal::FileRefusal;
use amdl_lexer::{LexRefusal, lex};
use amdl_tree::{Lexed, List, NoMemory};
use net_plan::Network;
use net_runs::Step;
use schedule::{ScheduleRefusal, read_schedule};
use std::alloc::Global;

/// The steps of a network that a text of at most 4,194,304 bytes spells by their names, or why it is refused.
///
/// The whole text is cut into tokens before any is read, and the tokens are read as named steps before any name is
/// looked up: a fault of its bytes goes before one of its tokens, and that before one of its steps. Of each kind the
/// first fault counts. The one error is want of memory. Linear in the text, for each step also in the hosts, or in the
/// boxes and the ports of a box.
pub fn read(
    alloc: Global,
    net: &Network,
    text: &[u8],
) -> Result<Result<List<Step>, FileRefusal>, NoMemory>
    requires { length text.now ≤ 4194304 }
    ensures read { IfOk result (IsReadAs net.now text.now) }
    ensures few { IfOk result (λ reading. IfOk reading (λ steps. length steps ≤ 1000000)) }

    // What the text is read as by the definitions is the answer, unless memory runs out.
    ensures exact { (reading : Result (List Step) FileRefusal) → IsReadAs net.now text.now reading →
        IfOk result (λ found. found ≡ reading) }
{
    net.sound();
    one_reading();
    read_text(alloc, net, text)
}

fn read_text(
    alloc: Global,
    net: &Network,
    text: &[u8],
) -> Result<Result<List<Step>, FileRefusal>, NoMemory>
    requires { length text.now ≤ 4194304 }
    ensures read { IfOk result (IsReadAs net.now text.now) }
    ensures few { IfOk result (λ reading. IfOk reading (λ steps. length steps ≤ 1000000)) }
{
    match lex(alloc, text) {
        Ok(tokens) => read_tokens(alloc, net, tokens.as_slice()),
        Err(LexRefusal::BadByte(at)) => Ok(Err(FileRefusal::BadByte(at))),
        Err(LexRefusal::WordTooLong(at)) => Ok(Err(FileRefusal::WordTooLong(at))),
        Err(LexRefusal::TooManyTokens) => Ok(Err(FileRefusal::TooManyTokens)),
        Err(LexRefusal::NoMemory) => Err(NoMemory),
    }
}

fn read_tokens(
    alloc: Global,
    net: &Network,
    tokens: &[Lexed],
) -> Result<Result<List<Step>, FileRefusal>, NoMemory>
    requires { length tokens.now ≤ 1000000 }
    ensures read { IfOk result (AreReadAs net.now (tokens_of tokens.now)) }
    ensures few { IfOk result (λ reading. IfOk reading (λ steps. length steps ≤ 1000000)) }
{
    match read_schedule(alloc, net, tokens) {
        Ok(steps) => Ok(Ok(steps)),
        Err(ScheduleRefusal::Syntax(at)) => Ok(Err(FileRefusal::Syntax(at))),
        Err(ScheduleRefusal::UnknownName(step)) => Ok(Err(FileRefusal::UnknownName(step))),
        Err(ScheduleRefusal::OutOfRange(step)) => Ok(Err(FileRefusal::OutOfRange(step))),
        Err(ScheduleRefusal::NoMemory) => Err(NoMemory),
    }
}
