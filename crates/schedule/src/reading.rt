ghost use Rattle.std.specs.Prelude.{◌≡◌, ◌≤◌, List, length, IfOk, Ok, Err};
ghost use Rattle.net_runs.specs.declared.world.Step.{Step};
ghost use Rattle.schedule_text.specs.Answering.{tokens_of};
ghost use Rattle.schedule.specs.declared.refusal.ScheduleRefusal.{ScheduleRefusal};
ghost use Rattle.schedule.specs.Read.{IsReading, ReadsAs, IsCauseOf, IsOrWantsMemory, of_syntax, of_names};

use crate::refusal::ScheduleRefusal;
use amdl_tree::{Lexed, List};
use net_plan::Network;
use net_runs::Step;
use schedule_text::laws::one_answer;
use schedule_text::{ResolveRefusal, ScheduleSyntax, parse_schedule, resolve};
use std::alloc::Global;

/// The steps of a network that the tokens spell by their names; no tokens spell none. It takes time linear in the
/// tokens, for each step also in the hosts, or in the boxes and the ports of a box, and memory for the steps.
///
/// The syntax of the whole text comes first: `Syntax(k)` comes where the first `k` tokens begin a schedule and the
/// first `k + 1` begin none, or where `k` is the number of tokens and they end too early. Then the first faulty step
/// counts: `UnknownName(s)` comes exactly where its host, end or box isn't declared, else `OutOfRange(s)` exactly where
/// its packet isn't below the number of packets. After want of memory nothing is kept.
pub fn read_schedule(
    alloc: Global,
    net: &Network,
    tokens: &[Lexed],
) -> Result<List<Step>, ScheduleRefusal>
    requires { length tokens.now ≤ 1000000 }
    ensures answer { IsReading net.now (tokens_of tokens.now) result }
    ensures few { IfOk result (λ steps. length steps ≤ length tokens.now) }

    // Each answer also comes wherever the tokens have its cause, unless memory runs out.
    ensures read { (steps : List Step) → ReadsAs net.now (tokens_of tokens.now) steps →
        IsOrWantsMemory result (Ok steps) }
    ensures refused { (refusal : ScheduleRefusal) → IsCauseOf net.now (tokens_of tokens.now) refusal →
        IsOrWantsMemory result (Err refusal) }
{
    net.sound();
    one_answer();
    read_named(alloc, net, tokens)
}

#[tactic(auto, using(crate::proofs::ReadLemmas::found, crate::proofs::ReadLemmas::few_found, crate::proofs::ReadLemmas::not_found, crate::proofs::ReadLemmas::not_parsed))]
fn read_named(alloc: Global, net: &Network, tokens: &[Lexed]) -> Result<List<Step>, ScheduleRefusal>
    requires { length tokens.now ≤ 1000000 }
    ensures answer { IsReading net.now (tokens_of tokens.now) result }
    ensures few { IfOk result (λ steps. length steps ≤ length tokens.now) }
{
    match parse_schedule(alloc, tokens) {
        Ok(named) => match resolve(alloc, net, named.as_slice()) {
            Ok(steps) => Ok(steps),
            Err(refusal) => Err(refused_names(refusal)),
        },
        Err(refusal) => Err(refused_syntax(refusal)),
    }
}

fn refused_syntax(refusal: ScheduleSyntax) -> ScheduleRefusal
    ensures { result ≡ of_syntax refusal }
{
    match refusal {
        ScheduleSyntax::Syntax(k) => ScheduleRefusal::Syntax(k),
        ScheduleSyntax::NoMemory => ScheduleRefusal::NoMemory,
    }
}

fn refused_names(refusal: ResolveRefusal) -> ScheduleRefusal
    ensures { result ≡ of_names refusal }
{
    match refusal {
        ResolveRefusal::UnknownName(s) => ScheduleRefusal::UnknownName(s),
        ResolveRefusal::OutOfRange(s) => ScheduleRefusal::OutOfRange(s),
        ResolveRefusal::NoMemory => ScheduleRefusal::NoMemory,
    }
}
