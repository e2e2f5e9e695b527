//! Deliveries of packets.
ghost use Rattle.std.specs.Prelude.{◌≡◌, ◌≢◌, ℕ, ◌<◌, List, Some, [], slice_get, length, MatchResult};
ghost use Rattle.net_plan.specs.declared.fact.Place.{Place};
ghost use Rattle.net_plan.specs.Plan.{packets_of};
ghost use Rattle.net_plan.specs.Ends.{ends_of, IsEndAt, IsLinked};
ghost use Rattle.net_runs.specs.declared.world.Step.{Step};
ghost use Rattle.net_runs.specs.declared.world.Event.{Event};
ghost use Rattle.net_runs.specs.World.{IsWorld};
ghost use Rattle.concrete_net.specs.Sizes.{argument_sizes};
ghost use Rattle.concrete_net.specs.Answered.{IsAnswer};
ghost use Rattle.concrete_net.specs.declared.refusal.StepRefusal.{StepRefusal};
ghost use Rattle.concrete_net.specs.Taking.{StandsNext, IsShortened};

use crate::arguments::Arguments;
use crate::refusal::StepRefusal;
use crate::state::State;
use crate::taking::{next_place, take_at};
use net_plan::{Network, Place};
use net_runs::Event;
use std::alloc::Global;

impl State {
    /// A packet is delivered at an end.
    pub(crate) fn deliver(
        &mut self,
        alloc: Global,
        net: &Network,
        arguments: &Arguments,
        end: u32,
        packet: u32,
        choices: &[u32],
    ) -> Result<Event, StepRefusal>
        requires world { IsWorld net.now self.old.world }
        requires arguments { arguments.now ≡ argument_sizes net.now }
        ensures { IsAnswer net.now self.old (Step.Deliver end packet choices.now) result self.new }
    {
        if end >= net.ends() || packet >= net.headers().count() {
            return Err(StepRefusal::NoSuch);
        }
        match net.partner(end) {
            Some(from) => self.deliver_out_of(alloc, net, arguments, from, end, packet, choices),
            None => Err(StepRefusal::NoCopy),
        }
    }

    // The packet is delivered out of the channel that leads to the end.
    fn deliver_out_of(
        &mut self,
        alloc: Global,
        net: &Network,
        arguments: &Arguments,
        from: u32,
        end: u32,
        packet: u32,
        choices: &[u32],
    ) -> Result<Event, StepRefusal>
        requires world { IsWorld net.now self.old.world }
        requires arguments { arguments.now ≡ argument_sizes net.now }
        requires from { from < ends_of net.now }
        requires linked { IsLinked net.now end from }
        requires end { end < ends_of net.now }
        requires packet { packet < packets_of net.now }
        ensures { IsAnswer net.now self.old (Step.Deliver end packet choices.now) result self.new }
    {
        net.sound();
        match next_place(self.mode(), self.waiting(from), packet) {
            Ok(place) => self.deliver_from(
                alloc, net, arguments, from, place, end, packet, choices,
            ),
            Err(refusal) => Err(refusal),
        }
    }

    // The packet that stands at the place is delivered.
    fn deliver_from(
        &mut self,
        alloc: Global,
        net: &Network,
        arguments: &Arguments,
        from: u32,
        place: usize,
        end: u32,
        packet: u32,
        choices: &[u32],
    ) -> Result<Event, StepRefusal>
        requires world { IsWorld net.now self.old.world }
        requires arguments { arguments.now ≡ argument_sizes net.now }
        requires from { from < ends_of net.now }
        requires stands { StandsNext net.now self.old.mode self.old.world end packet from place }
        requires end { end < ends_of net.now }
        requires packet { packet < packets_of net.now }
        ensures { IsAnswer net.now self.old (Step.Deliver end packet choices.now) result self.new }
    {
        match net.place(end) {
            Place::Host(host) => self.deliver_to_host(alloc, from, place, host, packet, choices),
            Place::Port(b, port) => self.deliver_to_port(
                alloc, net, arguments, from, place, b, port, packet, choices,
            ),
        }
    }

    // The packet at the place is delivered to the host, which makes no choices.
    fn deliver_to_host(
        &mut self,
        alloc: Global,
        from: u32,
        place: usize,
        host: u32,
        packet: u32,
        choices: &[u32],
    ) -> Result<Event, StepRefusal>
        requires from { from < length self.old.world.waiting }
        requires place { (packets : List ℕ) → slice_get self.old.world.waiting from ≡ Some packets →
            place < length packets }
        ensures { MatchResult result
            (λ event. (choices.now ≡ []) × (event ≡ Event.Delivered host packet)
            × IsShortened from place self.old self.new)
            (λ refusal. (choices.now ≢ []) × (refusal ≡ StepRefusal.BadChoice 0) × (self.new ≡ self.old)) }
    {
        if !choices.is_empty() {
            return Err(StepRefusal::BadChoice(0));
        }
        take_at(alloc, &mut self.waiting, from, place);
        Ok(Event::Delivered(host, packet))
    }
}
