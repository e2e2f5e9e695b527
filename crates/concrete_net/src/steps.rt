//! Steps of a simulated network.
ghost use Rattle.std.specs.Prelude.{◌≡◌, ◌⊎◌, MatchResult};
ghost use Rattle.net_runs.specs.declared.world.Step.{Step};
ghost use Rattle.net_runs.specs.World.{IsWorld};
ghost use Rattle.concrete_net.specs.declared.refusal.StepRefusal.{StepRefusal};
ghost use Rattle.net_runs.specs.declared.world.Event.{Event};
ghost use Rattle.concrete_net.specs.Seen.{Seen};
ghost use Rattle.concrete_net.specs.Sizes.{argument_sizes};
ghost use Rattle.concrete_net.specs.Refused.{IsCause};
ghost use Rattle.concrete_net.specs.Answered.{StepsTo, IsAnswer};

use crate::arguments::Arguments;
use crate::channels::put_out;
use crate::refusal::StepRefusal;
use crate::state::State;
use crate::tables::contents_of;
use amdl_tree::NoMemory;
use net_plan::Network;
use net_runs::laws::{step_is_determined, step_keeps_world};
use net_runs::{Event, Step};
use std::alloc::Global;

impl State {
    /// Makes one step: the event, or why it isn't made, and then the state is what it was.
    ///
    /// Refusals are tried in the order of their type. A send takes time linear in the patterns of its host, a revert in
    /// the first contents of its box. A delivery takes time linear in the one channel that it takes from, and at a port
    /// that of `handler_runs::execute` and of a search for each packet that is put out.
    pub fn step(
        &mut self,
        alloc: Global,
        net: &Network,
        arguments: &Arguments,
        step: &Step,
    ) -> Result<Event, StepRefusal>
        requires world { IsWorld net.now self.old.world }
        requires arguments { arguments.now ≡ argument_sizes net.now }
        ensures answer { IsAnswer net.now self.old step.now result self.new }
        ensures leads { (event : Event) (new : Seen) → StepsTo net.now self.old step.now event new →
            MatchResult result (λ found. (found ≡ event) × (self.new ≡ new))
            (λ refusal. refusal ≡ StepRefusal.NoMemory) }
        ensures refused { (cause : StepRefusal) → IsCause net.now self.old step.now cause →
            MatchResult result (λ _. ⊥)
            (λ refusal. (refusal ≡ cause) ⊎ (refusal ≡ StepRefusal.NoMemory)) }
        ensures world { IsWorld net.now self.new.world }
    {
        net.sound();
        step_is_determined();
        step_keeps_world();
        self.answered(alloc, net, arguments, step)
    }

    fn answered(
        &mut self,
        alloc: Global,
        net: &Network,
        arguments: &Arguments,
        step: &Step,
    ) -> Result<Event, StepRefusal>
        requires world { IsWorld net.now self.old.world }
        requires arguments { arguments.now ≡ argument_sizes net.now }
        ensures { IsAnswer net.now self.old step.now result self.new }
    {
        match step {
            Step::Send(host, packet) => self.send(alloc, net, *host, *packet),
            Step::Deliver(end, packet, choices) => self.deliver(
                alloc,
                net,
                arguments,
                *end,
                *packet,
                choices.as_slice(),
            ),
            Step::Revert(b) => self.revert(alloc, net, *b),
        }
    }

    // A host sends a packet.
    fn send(
        &mut self,
        alloc: Global,
        net: &Network,
        host: u32,
        packet: u32,
    ) -> Result<Event, StepRefusal>
        requires { IsWorld net.now self.old.world }
        ensures { IsAnswer net.now self.old (Step.Send host packet) result self.new }
    {
        if host >= net.hosts() || packet >= net.headers().count() {
            return Err(StepRefusal::NoSuch);
        }
        if !net.sends(host, packet) {
            return Err(StepRefusal::NotSent);
        }
        match put_out(alloc, net, &mut self.waiting, net.end_of_host(host), packet) {
            Ok(()) => Ok(Event::Moved),
            Err(NoMemory) => Err(StepRefusal::NoMemory),
        }
    }

    // A box gets its first contents.
    fn revert(&mut self, alloc: Global, net: &Network, b: u32) -> Result<Event, StepRefusal>
        requires { IsWorld net.now self.old.world }
        ensures { IsAnswer net.now self.old (Step.Revert b) result self.new }
    {
        if b >= net.boxes() {
            return Err(StepRefusal::NoSuch);
        }
        match contents_of(alloc, net, b) {
            Ok(first) => {
                self.contents.replace(b as usize, first);
                Ok(Event::Moved)
            }
            Err(NoMemory) => Err(StepRefusal::NoMemory),
        }
    }
}
