ghost use Rattle.std.specs.Prelude.{◌≡◌, ◌++◌, ◌+◌, ◌≤◌, ℕ, List, if◌then◌else◌, length, MatchResult};
ghost use Rattle.net_runs.specs.declared.world.Event.{Event};
ghost use Rattle.net_runs.specs.declared.world.World.{World};
ghost use Rattle.net_runs.specs.World.{first_world, Run, IsWorld};
ghost use Rattle.concrete_net.specs.Seen.{first_seen};
ghost use Rattle.concrete_net.specs.declared.refusal.StepRefusal.{StepRefusal};
ghost use Rattle.schedule.specs.declared.replayed.ReplayRefusal.{ReplayRefusal};
ghost use Rattle.concrete_net.specs.Sizes.{argument_sizes};
ghost use Rattle.schedule_text.specs.Fronts.{KeepsFronts};
ghost use Rattle.schedule.specs.Texts.{IsEventInRange, line_of_event, end_line, is_bad};
ghost use Rattle.schedule.specs.Replays.{IsReplay, IsReplayBut, IsTold, SoFar, IsStopped, refusal_at};
ghost use Rattle.schedule.specs.Replays.{IsRefusedAt, IsRunOrWantsMemory, IsRefusedOrWantsMemory};

use crate::lines::{is_bad_event, put_end_line, put_event_line};
use crate::replayed::{ReplayRefusal, Replayed};
use amdl_tree::NoMemory;
use concrete_net::{Arguments, State, StepRefusal};
use net_plan::Network;
use net_plan::laws::{host_ends, port_ends};
use net_runs::laws::{first_is_world, runs_compose, step_is_determined, step_keeps_world};
use net_runs::{Event, Mode, Step};
use std::alloc::Global;

/// Makes the steps from the first state of a network on, and appends a line on each and a last one on all. The
/// arguments are those of the plan of the network. It takes the time of the steps, and memory for the state of the
/// network and for the text.
///
/// `Refused(k, why)` comes exactly where the first `k` steps are a run and step `k` is refused; then the lines on the
/// first `k` are appended. After want of memory nothing is appended. What `out` held stays.
pub fn replay(
    alloc: Global,
    net: &Network,
    arguments: &Arguments,
    steps: &[Step],
    mode: Mode,
    out: &mut Vec<u8>,
) -> Result<Replayed, ReplayRefusal>
    requires few { length steps.now ≤ 1000000 }
    requires arguments { arguments.now ≡ argument_sizes net.now }
    ensures answer { IsReplay net.now mode steps.now out.old.items result out.new.items }

    // Each answer also comes wherever the steps have its cause, unless memory runs out.
    ensures run { (events : List Event) (world : World) →
        Run net.now mode (first_world net.now) steps.now events world →
        IsRunOrWantsMemory net.now steps.now events out.old.items result out.new.items }
    ensures refused { (k : ℕ) (why : StepRefusal) (events : List Event) →
        IsRefusedAt net.now (first_seen net.now mode) steps.now k why events →
        IsRefusedOrWantsMemory net.now k events out.old.items result out.new.items }
{
    net.sound();
    step_is_determined();
    replay_or_nothing(alloc, net, arguments, steps, mode, out)
}

fn replay_or_nothing(
    alloc: Global,
    net: &Network,
    arguments: &Arguments,
    steps: &[Step],
    mode: Mode,
    out: &mut Vec<u8>,
) -> Result<Replayed, ReplayRefusal>
    requires few { length steps.now ≤ 1000000 }
    requires arguments { arguments.now ≡ argument_sizes net.now }
    ensures { IsReplay net.now mode steps.now out.old.items result out.new.items }
{
    let start = out.len();
    match put_replay(alloc, net, arguments, steps, mode, out) {
        Ok(replayed) => Ok(replayed),
        Err(ReplayRefusal::Refused(k, why)) => Err(ReplayRefusal::Refused(k, why)),
        Err(ReplayRefusal::NoMemory) => {
            // What was appended is taken back.
            out.truncate(start);
            Err(ReplayRefusal::NoMemory)
        }
    }
}

fn put_replay(
    alloc: Global,
    net: &Network,
    arguments: &Arguments,
    steps: &[Step],
    mode: Mode,
    out: &mut Vec<u8>,
) -> Result<Replayed, ReplayRefusal>
    requires few { length steps.now ≤ 1000000 }
    requires arguments { arguments.now ≡ argument_sizes net.now }
    ensures told { IsReplayBut net.now mode steps.now out.old.items result out.new.items }
    ensures kept { KeepsFronts out.old.items out.new.items }
{
    net.sound();
    first_is_world();
    let Ok(mut state) = State::new(alloc, net, mode) else {
        return Err(ReplayRefusal::NoMemory);
    };
    let bad = match put_steps(alloc, net, arguments, steps, &mut state, out) {
        Ok(bad) => bad,
        Err(refusal) => return Err(refusal),
    };
    put_end(steps.len() as u32, bad, out)
}

// Appends the last line on all steps.
#[tactic(auto, using(schedule_text::proofs::FrontLemmas::front_of_either))]
fn put_end(steps: u32, bad: u32, out: &mut Vec<u8>) -> Result<Replayed, ReplayRefusal>
    ensures told { MatchResult result
        (λ all. (all.steps ≡ steps) × (all.bad ≡ bad) × (out.new.items ≡ out.old.items ++ end_line steps bad))
        (λ refusal. refusal ≡ ReplayRefusal.NoMemory) }
    ensures kept { KeepsFronts out.old.items out.new.items }
{
    match put_end_line(steps, bad, out) {
        Ok(()) => Ok(Replayed { steps, bad }),
        Err(NoMemory) => Err(ReplayRefusal::NoMemory),
    }
}

// Makes the steps in turn, and appends a line on each; how many of their events are bad.
fn put_steps(
    alloc: Global,
    net: &Network,
    arguments: &Arguments,
    steps: &[Step],
    state: &mut State,
    out: &mut Vec<u8>,
) -> Result<u32, ReplayRefusal>
    requires few { length steps.now ≤ 1000000 }
    requires world { IsWorld net.now state.old.world }
    requires arguments { arguments.now ≡ argument_sizes net.now }
    ensures told { MatchResult result
        (SoFar net.now state.old state.new steps.now out.old.items out.new.items)
        (λ refusal. IsStopped net.now state.old steps.now out.old.items refusal out.new.items) }
    ensures kept { KeepsFronts out.old.items out.new.items }
{
    net.sound();
    runs_compose();
    step_keeps_world();
    let mut bad: u32 = 0;
    for k in 0..steps.len() as u32 {
        match put_step(alloc, net, arguments, k, &steps[k as usize], state, out) {
            Ok(is_bad) => bad = counted(bad, is_bad),
            Err(why) => return Err(refused(k, why)),
        }
    }
    Ok(bad)
}

// How many events are bad with one more.
fn counted(bad: u32, is_bad: bool) -> u32
    requires { bad ≤ 1000000 }
    ensures { result ≡ bad + (if is_bad then 1 else 0) }
{
    if is_bad { bad + 1 } else { bad }
}

// The refusal of all steps where step k is refused.
fn refused(k: u32, why: StepRefusal) -> ReplayRefusal
    ensures { result ≡ refusal_at k why }
{
    match why {
        StepRefusal::NoMemory => ReplayRefusal::NoMemory,
        _ => ReplayRefusal::Refused(k, why),
    }
}

// Makes step k, and appends the line on it; whether its event is bad.
fn put_step(
    alloc: Global,
    net: &Network,
    arguments: &Arguments,
    k: u32,
    step: &Step,
    state: &mut State,
    out: &mut Vec<u8>,
) -> Result<bool, StepRefusal>
    requires world { IsWorld net.now state.old.world }
    requires arguments { arguments.now ≡ argument_sizes net.now }
    ensures told { IsTold net.now k step.now state.old state.new out.old.items result out.new.items }
    ensures kept { KeepsFronts out.old.items out.new.items }
{
    host_ends();
    port_ends();
    match state.step(alloc, net, arguments, step) {
        Ok(event) => tell(net, k, event, out),
        Err(why) => Err(why),
    }
}

// Appends the line on step k by its event; whether that is bad.
#[tactic(auto, using(schedule_text::proofs::FrontLemmas::front_of_either))]
fn tell(net: &Network, k: u32, event: Event, out: &mut Vec<u8>) -> Result<bool, StepRefusal>
    requires { IsEventInRange net.now event }
    ensures told { MatchResult result
        (λ bad. (out.new.items ≡ out.old.items ++ line_of_event net.now k event) × (bad ≡ is_bad net.now event))
        (λ why. why ≡ StepRefusal.NoMemory) }
    ensures kept { KeepsFronts out.old.items out.new.items }
{
    match put_event_line(net, k, event, out) {
        Ok(()) => Ok(is_bad_event(net, event)),
        Err(NoMemory) => Err(StepRefusal::NoMemory),
    }
}
