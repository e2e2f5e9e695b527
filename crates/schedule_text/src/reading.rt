ghost use Rattle.std.specs.Prelude.{◌≡◌, ◌≤◌, ◌-◌, ℕ, List, length, IfOk, Ok, Err};
ghost use Rattle.schedule_text.specs.declared.steps.ScheduleStep.{ScheduleStep};
ghost use Rattle.schedule_text.specs.Spelled.{spell_of_steps, AreBuiltSteps};
ghost use Rattle.schedule_text.specs.Readings.{answer_of, IsUnlessMemory, steps_at, parsed};
ghost use Rattle.schedule_text.specs.Answering.{IsScheduleAnswer, IsScheduleSyntaxAt, IsOrWantsMemory, tokens_of};

use crate::fault::Fault;
use crate::primitive::{Tokens, show_names};
use crate::refusal::ScheduleSyntax;
use crate::steps::ScheduleStep;
use amdl_tree::{Lexed, List};
use std::alloc::Global;

/// The number of the token in front of which so many are left.
fn place(count: usize, left: usize) -> u32
    requires { count ≤ 1000000 }
    ensures { result ≡ count - left }
{
    count.saturating_sub(left) as u32
}

/// The steps whose spelling the tokens are; no tokens are the spelling of none. It takes time linear in the tokens and
/// memory for the steps.
///
/// `Syntax(k)` comes where the first `k` tokens begin such a spelling and the first `k + 1` begin none, or where `k` is
/// the number of tokens and they end too early. After want of memory nothing is kept.
pub fn parse_schedule(alloc: Global, tokens: &[Lexed]) -> Result<List<ScheduleStep>, ScheduleSyntax>
    requires { length tokens.now ≤ 1000000 }
    ensures answer { IsScheduleAnswer (tokens_of tokens.now) result }
    ensures few { IfOk result (λ steps. length steps ≤ length tokens.now) }

    // Each answer also comes wherever the tokens have its cause, unless memory runs out.
    ensures read { (steps : List ScheduleStep) → AreBuiltSteps steps → spell_of_steps steps ≡ tokens_of tokens.now →
        IsOrWantsMemory result (Ok steps) }
    ensures syntax { (k : ℕ) → IsScheduleSyntaxAt (tokens_of tokens.now) k →
        IsOrWantsMemory result (Err (ScheduleSyntax.Syntax k)) }
{
    show_names(tokens);
    read_whole(alloc, tokens)
}

fn read_whole(alloc: Global, tokens: &[Lexed]) -> Result<List<ScheduleStep>, ScheduleSyntax>
    requires { length tokens.now ≤ 1000000 }
    ensures { IsUnlessMemory (answer_of (length tokens.now) (steps_at (tokens_of tokens.now))) (parsed result) }
{
    let mut unread = Tokens { left: tokens };
    match unread.steps(alloc) {
        Ok(steps) => {
            if unread.left.is_empty() {
                return Ok(steps);
            }
            Err(ScheduleSyntax::Syntax(place(tokens.len(), unread.left.len())))
        }
        Err(Fault::Syntax(left)) => Err(ScheduleSyntax::Syntax(place(tokens.len(), left))),
        Err(Fault::NoMemory) => Err(ScheduleSyntax::NoMemory),
    }
}
