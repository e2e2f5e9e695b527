//! Readings of ends, choices and steps.
ghost use Rattle.std.specs.Prelude.{◌≡◌, ◌≤◌, ◌<◌, length, OnOk, MatchResult, Ok, Err};
ghost use Rattle.schedule_text.specs.Readings.{Reads, end_at, numbers_at, choices_at, send_at, deliver_at, revert_at};
ghost use Rattle.schedule_text.specs.Readings.{step_at, steps_at};

use crate::fault::Fault;
use crate::primitive::{Tokens, begin_with_a_step};
use crate::steps::ScheduleStep;
use amdl_tree::{End, List, NoMemory, Sign};
use std::alloc::Global;

/// Want of memory as a fault.
fn kept(pushed: Result<(), NoMemory>) -> Result<(), Fault>
    ensures { MatchResult pushed (λ done. result ≡ Ok done) (λ refusal. result ≡ Err Fault.NoMemory) }
{
    match pushed {
        Ok(()) => Ok(()),
        Err(_) => Err(Fault::NoMemory),
    }
}

impl<'a> Tokens<'a> {
    /// `NAME` or `NAME.NAME`
    #[tactic(auto, unfolding(amdl_parser::specs::Grammar::end_at, amdl_parser::specs::Reading::maybe_at))]
    fn end(&mut self) -> Result<End, Fault>
        ensures read { Reads end_at self.old.left.now self.new.left.now result }
        ensures shorter { OnOk result (length self.new.left.now < length self.old.left.now) }
    {
        let name = self.word()?;
        if !self.next_is_sign(Sign::Point) {
            return Ok(End::Host(name));
        }
        self.sign(Sign::Point)?;
        let port = self.word()?;
        Ok(End::Port(name, port))
    }

    /// `NUMBER,..`
    #[tactic(auto, using(amdl_parser::proofs::Loops::listing_start, amdl_parser::proofs::Loops::listing_step), unfolding(crate::specs::Readings::numbers_at))]
    fn numbers(&mut self, alloc: Global) -> Result<List<u32>, Fault>
        ensures read { Reads numbers_at self.old.left.now self.new.left.now result }
        ensures shorter { OnOk result (length self.new.left.now < length self.old.left.now) }
    {
        let mut numbers = List::new(alloc);
        kept(numbers.push(self.number()?))?;
        while self.next_is_sign(Sign::Comma) {
            self.sign(Sign::Comma)?;
            kept(numbers.push(self.number()?))?;
        }
        Ok(numbers)
    }

    /// Choices in brackets, or nothing.
    #[tactic(auto, unfolding(crate::specs::Readings::choices_at, amdl_parser::specs::Reading::maybe_at))]
    fn choices(&mut self, alloc: Global) -> Result<List<u32>, Fault>
        ensures read { Reads choices_at self.old.left.now self.new.left.now result }
        ensures shorter { OnOk result (length self.new.left.now ≤ length self.old.left.now) }
    {
        if !self.next_is_sign(Sign::OpenBracket) {
            return Ok(List::new(alloc));
        }
        self.sign(Sign::OpenBracket)?;
        let choices = self.numbers(alloc)?;
        self.sign(Sign::CloseBracket)?;
        Ok(choices)
    }

    /// `send NAME NUMBER ;`
    #[tactic(auto, unfolding(crate::specs::Readings::send_at))]
    fn send(&mut self) -> Result<ScheduleStep, Fault>
        ensures read { Reads send_at self.old.left.now self.new.left.now result }
        ensures shorter { OnOk result (length self.new.left.now < length self.old.left.now) }
    {
        self.said(b"send")?;
        let host = self.word()?;
        let packet = self.number()?;
        self.sign(Sign::Semicolon)?;
        Ok(ScheduleStep::Send(host, packet))
    }

    /// `deliver end NUMBER ;`, perhaps with choices.
    #[tactic(auto, unfolding(crate::specs::Readings::deliver_at))]
    fn deliver(&mut self, alloc: Global) -> Result<ScheduleStep, Fault>
        ensures read { Reads deliver_at self.old.left.now self.new.left.now result }
        ensures shorter { OnOk result (length self.new.left.now < length self.old.left.now) }
    {
        self.said(b"deliver")?;
        let end = self.end()?;
        let packet = self.number()?;
        let choices = self.choices(alloc)?;
        self.sign(Sign::Semicolon)?;
        Ok(ScheduleStep::Deliver(end, packet, choices))
    }

    /// `revert NAME ;`
    #[tactic(auto, unfolding(crate::specs::Readings::revert_at))]
    fn revert(&mut self) -> Result<ScheduleStep, Fault>
        ensures read { Reads revert_at self.old.left.now self.new.left.now result }
        ensures shorter { OnOk result (length self.new.left.now < length self.old.left.now) }
    {
        self.said(b"revert")?;
        let box_name = self.word()?;
        self.sign(Sign::Semicolon)?;
        Ok(ScheduleStep::Revert(box_name))
    }

    /// A step.
    #[tactic(auto, using(amdl_parser::proofs::Loops::count_of), unfolding(crate::specs::Readings::step_at))]
    fn step(&mut self, alloc: Global) -> Result<ScheduleStep, Fault>
        ensures read { Reads step_at self.old.left.now self.new.left.now result }
        ensures shorter { OnOk result (length self.new.left.now < length self.old.left.now) }
    {
        if self.next_is_word(b"send") {
            return self.send();
        }
        if self.next_is_word(b"deliver") {
            return self.deliver(alloc);
        }
        if self.next_is_word(b"revert") {
            return self.revert();
        }
        Err(Fault::Syntax(self.left.len()))
    }

    /// Steps, as far as they go.
    #[tactic(auto, using(amdl_parser::proofs::Loops::gather_start, amdl_parser::proofs::Loops::gather_step), unfolding(crate::specs::Readings::steps_at))]
    pub fn steps(&mut self, alloc: Global) -> Result<List<ScheduleStep>, Fault>
        ensures read { Reads steps_at self.old.left.now self.new.left.now result }
        ensures shorter { OnOk result (length self.new.left.now ≤ length self.old.left.now) }
    {
        let mut steps = List::new(alloc);
        while begin_with_a_step(self.left) {
            kept(steps.push(self.step(alloc)?))?;
        }
        Ok(steps)
    }
}
