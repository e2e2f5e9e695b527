ghost use Rattle.std.specs.Prelude.{◌≡◌, ◌↔◌, ◌<◌, ◌≤◌, ℕ, length, All, IsTrue, IfOk, MatchOption, Err};
ghost use Rattle.net_plan.specs.Plan.{packets_of};
ghost use Rattle.schedule_text.specs.declared.steps.ScheduleStep.{ScheduleStep};
ghost use Rattle.schedule_text.specs.Resolved.{IsEndCalled, IsFaultless, IsUnknownNameAt, IsOutOfRangeAt, IsStepAnswer};
ghost use Rattle.schedule_text.specs.Resolved.{IsResolution, IsRefusedOrWantsMemory, IsFoundOrWantsMemory, refusal_of};

use crate::refusal::{ResolveRefusal, StepFault};
use crate::steps::ScheduleStep;
use amdl_tree::{End, List, Name, NoMemory};
use net_plan::Network;
use net_runs::Step;
use std::alloc::Global;

/// The steps of a network that are named, with numbers for names. For each step linear in the hosts, or in the boxes
/// and the ports of a box, and in its choices.
///
/// The first faulty step counts: `UnknownName(s)` comes exactly where its host, end or box isn't declared, else
/// `OutOfRange(s)` exactly where its packet isn't below the number of packets. After want of memory nothing is kept.
pub fn resolve(
    alloc: Global,
    net: &Network,
    steps: &[ScheduleStep],
) -> Result<List<Step>, ResolveRefusal>
    requires { length steps.now ≤ 1000000 }
    ensures answer { IsResolution net.now steps.now result }

    // Each answer also comes wherever the steps have its cause, unless memory runs out.
    ensures found { All (IsFaultless net.now) steps.now → IsFoundOrWantsMemory result }
    ensures unknown { (s : ℕ) → IsUnknownNameAt net.now steps.now s →
        IsRefusedOrWantsMemory result (ResolveRefusal.UnknownName s) }
    ensures outside { (s : ℕ) → IsOutOfRangeAt net.now steps.now s →
        IsRefusedOrWantsMemory result (ResolveRefusal.OutOfRange s) }
{
    resolve_all(alloc, net, steps)
}

#[tactic(auto, using(crate::proofs::ResolveLemmas::one_more, crate::proofs::ResolveLemmas::refused_there, crate::proofs::ResolveLemmas::all_found, crate::proofs::ResolveLemmas::as_many))]
fn resolve_all(
    alloc: Global,
    net: &Network,
    steps: &[ScheduleStep],
) -> Result<List<Step>, ResolveRefusal>
    requires { length steps.now ≤ 1000000 }
    ensures { IsResolution net.now steps.now result }
{
    let mut found = List::new(alloc);
    for step in steps {
        let number = found.as_slice().len() as u32;
        let one = match resolve_one(alloc, net, step) {
            Ok(one) => one,
            Err(fault) => return Err(refused(fault, number)),
        };
        if found.push(one).is_err() {
            return Err(ResolveRefusal::NoMemory);
        }
    }
    Ok(found)
}

// The refusal of all steps where the step of this number has this fault.
fn refused(fault: StepFault, number: u32) -> ResolveRefusal
    ensures { result ≡ refusal_of fault number }
{
    match fault {
        StepFault::UnknownName => ResolveRefusal::UnknownName(number),
        StepFault::OutOfRange => ResolveRefusal::OutOfRange(number),
        StepFault::NoMemory => ResolveRefusal::NoMemory,
    }
}

fn resolve_one(alloc: Global, net: &Network, step: &ScheduleStep) -> Result<Step, StepFault>
    ensures { IsStepAnswer net.now step.now result }
{
    match step {
        ScheduleStep::Send(host, packet) => resolve_send(net, *host, *packet),
        ScheduleStep::Deliver(end, packet, choices) => {
            resolve_delivery(alloc, net, *end, *packet, choices.as_slice())
        }
        ScheduleStep::Revert(name) => resolve_revert(net, *name),
    }
}

fn resolve_send(net: &Network, host: Name, packet: u32) -> Result<Step, StepFault>
    ensures { IsStepAnswer net.now (ScheduleStep.Send host packet) result }
{
    let Some(number) = net.find_host(host) else {
        return Err(StepFault::UnknownName);
    };
    if !is_packet(net, packet) {
        return Err(StepFault::OutOfRange);
    }
    Ok(Step::Send(number, packet))
}

fn resolve_delivery(
    alloc: Global,
    net: &Network,
    end: End,
    packet: u32,
    choices: &[u32],
) -> Result<Step, StepFault>
    ensures { IsStepAnswer net.now (ScheduleStep.Deliver end packet choices.now) result }
{
    let Some(number) = number_of_end(net, end) else {
        return Err(StepFault::UnknownName);
    };
    if !is_packet(net, packet) {
        return Err(StepFault::OutOfRange);
    }
    match copied(alloc, choices) {
        Ok(copy) => Ok(Step::Deliver(number, packet, copy)),
        Err(_) => Err(StepFault::NoMemory),
    }
}

fn resolve_revert(net: &Network, name: Name) -> Result<Step, StepFault>
    ensures { IsStepAnswer net.now (ScheduleStep.Revert name) result }
{
    match net.find_box(name) {
        Some(number) => Ok(Step::Revert(number)),
        None => Err(StepFault::UnknownName),
    }
}

fn is_packet(net: &Network, packet: u32) -> bool
    ensures { IsTrue result ↔ (packet < packets_of net.now) }
{
    packet < net.headers().count()
}

fn number_of_end(net: &Network, end: End) -> Option<u32>
    ensures { MatchOption result ((number : ℕ) → IsEndCalled net.now end number → ⊥) (IsEndCalled net.now end) }
{
    match end {
        End::Host(host) => net.find_end(host, None),
        End::Port(box_name, port) => net.find_end(box_name, Some(port)),
    }
}

fn copied(alloc: Global, choices: &[u32]) -> Result<List<u32>, NoMemory>
    ensures { IfOk result (λ copy. copy ≡ choices.now) }
{
    let mut copy = List::new(alloc);
    for choice in choices {
        copy.push(*choice)?;
    }
    Ok(copy)
}
