//! Deliveries at ports of boxes.
ghost use Rattle.std.specs.Prelude.{◌≡◌, ℕ, ◌<◌, ◌⊎◌, List, Some, All, slice_get, length, map, MatchResult, OnOk};
ghost use Rattle.std.specs.Prelude.{OnErr};
ghost use Rattle.std.specs.List.{remove};
ghost use Rattle.handler_runs.specs.Code.{emission_of};
ghost use Rattle.net_plan.specs.declared.fact.Place.{Place};
ghost use Rattle.net_plan.specs.Plan.{packets_of, boxes_of, box_at, ports_of};
ghost use Rattle.net_plan.specs.Ends.{ends_of, IsEndAt};
ghost use Rattle.net_runs.specs.declared.world.Step.{Step};
ghost use Rattle.net_runs.specs.World.{IsWorld};
ghost use Rattle.concrete_net.specs.Answered.{IsAnswer};
ghost use Rattle.concrete_net.specs.Executed.{IsExecuted, IsExchanged, refusal_of};
ghost use Rattle.concrete_net.specs.Sizes.{argument_sizes};
ghost use Rattle.concrete_net.specs.Taking.{StandsNext, IsShortened};

use crate::arguments::Arguments;
use crate::outputs::exchange;
use crate::refusal::StepRefusal;
use crate::state::State;
use crate::taking::take_at;
use amdl_tree::NoMemory;
use box_contents::Contents;
use box_executions::outcome_is_in_range;
use handler_runs::{Emission, Ending, ExecuteRefusal, execute};
use net_plan::Network;
use net_runs::Event;
use std::alloc::Global;

impl State {
    /// The packet at the place is delivered at the port.
    pub(crate) fn deliver_to_port(
        &mut self,
        alloc: Global,
        net: &Network,
        arguments: &Arguments,
        from: u32,
        place: usize,
        b: u32,
        port: u32,
        packet: u32,
        choices: &[u32],
    ) -> Result<Event, StepRefusal>
        requires world { IsWorld net.now self.old.world }
        requires arguments { arguments.now ≡ argument_sizes net.now }
        requires from { from < ends_of net.now }
        requires place { (packets : List ℕ) → slice_get self.old.world.waiting from ≡ Some packets →
            place < length packets }
        requires boxed { b < boxes_of net.now }
        requires port { port < ports_of net.now (box_at net.now b) }
        requires packet { packet < packets_of net.now }
        ensures { (end : ℕ) → IsEndAt net.now end (Place.Port b port) →
            StandsNext net.now self.old.mode self.old.world end packet from place →
            IsAnswer net.now self.old (Step.Deliver end packet choices.now) result self.new }
    {
        net.sound();
        outcome_is_in_range();
        match self.executed(alloc, net, arguments, b, port, packet, choices) {
            Ok(Ending::Done { contents, outputs }) => self.done(
                alloc,
                net,
                from,
                place,
                b,
                contents,
                outputs.as_slice(),
            ),
            Ok(Ending::Aborted) => {
                self.shorten(alloc, from, place);
                Ok(Event::Aborted(b, packet))
            }
            Err(refusal) => Err(refused(refusal)),
        }
    }

    // The packet at the place is taken out of its channel, and nothing else happens.
    fn shorten(&mut self, alloc: Global, from: u32, place: usize)
        requires from { from < length self.old.world.waiting }
        requires place { (packets : List ℕ) → slice_get self.old.world.waiting from ≡ Some packets →
            place < length packets }
        ensures { IsShortened from place self.old self.new }
    {
        take_at(alloc, &mut self.waiting, from, place);
    }

    // What the choices come to at the handler of the port.
    fn executed(
        &self,
        alloc: Global,
        net: &Network,
        arguments: &Arguments,
        b: u32,
        port: u32,
        packet: u32,
        choices: &[u32],
    ) -> Result<Ending, ExecuteRefusal>
        requires world { IsWorld net.now self.now.world }
        requires arguments { arguments.now ≡ argument_sizes net.now }
        requires boxed { b < boxes_of net.now }
        requires port { port < ports_of net.now (box_at net.now b) }
        requires packet { packet < packets_of net.now }
        ensures { IsExecuted net.now self.now.world b port packet choices.now result }
    {
        net.sound();
        execute(
            alloc,
            net.headers(),
            arguments.of_box(b),
            net.handler(b, port),
            self.contents(b),
            packet,
            choices,
        )
    }

    // The packet at the place is gone, the box has other contents, and it put packets out.
    fn done(
        &mut self,
        alloc: Global,
        net: &Network,
        from: u32,
        place: usize,
        b: u32,
        contents: Contents,
        outputs: &[Emission],
    ) -> Result<Event, StepRefusal>
        requires from { from < ends_of net.now }
        requires place { (packets : List ℕ) → slice_get self.old.world.waiting from ≡ Some packets →
            place < length packets }
        requires channels { length self.old.world.waiting ≡ ends_of net.now }
        requires boxed { b < boxes_of net.now }
        requires boxes { length self.old.world.contents ≡ boxes_of net.now }
        requires ports { All (λ sent. sent.port < ports_of net.now (box_at net.now b)) outputs.now }
        ensures { IsExchanged net.now from place b contents (map emission_of outputs.now) self.old result self.new }
    {
        match exchange(alloc, net, &mut self.waiting, from, place, b, outputs) {
            Ok(()) => {
                self.contents.replace(b as usize, contents);
                Ok(Event::Moved)
            }
            Err(NoMemory) => Err(StepRefusal::NoMemory),
        }
    }
}

fn refused(refusal: ExecuteRefusal) -> StepRefusal
    ensures { result ≡ refusal_of refusal }
{
    match refusal {
        ExecuteRefusal::BadChoice(k) => StepRefusal::BadChoice(k),
        ExecuteRefusal::NoMemory => StepRefusal::NoMemory,
    }
}
