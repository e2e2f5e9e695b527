//! Readings of small parts: atoms, equations, patterns and ends, and lists of them.
ghost use Rattle.std.specs.Prelude.{◌≡◌, ◌≤◌, ◌<◌, length, OnOk, MatchResult, Ok, Err};
ghost use Rattle.amdl_parser.specs.Reading.{Reads};
ghost use Rattle.amdl_parser.specs.Grammar.{names_at, atom_at, equal_at, change_at, pattern_at, end_at, first_at};

use crate::fault::Fault;
use crate::primitive::Tokens;
use amdl_tree::{Atom, End, Equal, List, Name, NoMemory, Reserved, Sign};
use std::alloc::Global;

/// Want of memory as a fault.
pub fn kept(pushed: Result<(), NoMemory>) -> Result<(), Fault>
    ensures { MatchResult pushed (λ done. result ≡ Ok done) (λ refusal. result ≡ Err Fault.NoMemory) }
{
    match pushed {
        Ok(()) => Ok(()),
        Err(_) => Err(Fault::NoMemory),
    }
}

impl<'a> Tokens<'a> {
    /// `F = V`
    #[tactic(auto, unfolding(crate::specs::Grammar::equal_at))]
    pub fn equal(&mut self) -> Result<Equal, Fault>
        ensures read { Reads equal_at self.old.left.now self.new.left.now result }
        ensures shorter { OnOk result (length self.new.left.now < length self.old.left.now) }
    {
        let field = self.word()?;
        self.sign(Sign::Equals)?;
        let value = self.word()?;
        Ok(Equal { field, value })
    }

    /// `NAME` or `NAME.NAME`
    #[tactic(auto, unfolding(crate::specs::Grammar::end_at, crate::specs::Reading::maybe_at))]
    pub fn end(&mut self) -> Result<End, Fault>
        ensures read { Reads end_at self.old.left.now self.new.left.now result }
        ensures shorter { OnOk result (length self.new.left.now < length self.old.left.now) }
    {
        let name = self.word()?;
        if !self.next_is_sign(Sign::Point) {
            return Ok(End::Host(name));
        }
        self.sign(Sign::Point)?;
        let port = self.word()?;
        Ok(End::Port(name, port))
    }

    /// `F := E`
    #[tactic(auto, unfolding(crate::specs::Grammar::change_at))]
    pub fn change(&mut self) -> Result<Equal, Fault>
        ensures read { Reads change_at self.old.left.now self.new.left.now result }
        ensures shorter { OnOk result (length self.new.left.now < length self.old.left.now) }
    {
        let field = self.word()?;
        self.sign(Sign::Becomes)?;
        let value = self.word()?;
        Ok(Equal { field, value })
    }

    /// `R(E, E)`
    #[tactic(auto, unfolding(crate::specs::Grammar::atom_at))]
    pub fn atom(&mut self, alloc: Global) -> Result<Atom, Fault>
        ensures read { Reads atom_at self.old.left.now self.new.left.now result }
        ensures shorter { OnOk result (length self.new.left.now < length self.old.left.now) }
    {
        let relation = self.word()?;
        self.sign(Sign::OpenParen)?;
        let args = self.names(alloc)?;
        self.sign(Sign::CloseParen)?;
        Ok(Atom { relation, args })
    }

    /// A pattern: equations, or `true` for none.
    #[tactic(auto, unfolding(crate::specs::Grammar::pattern_at))]
    pub fn pattern(&mut self, alloc: Global) -> Result<List<Equal>, Fault>
        ensures read { Reads pattern_at self.old.left.now self.new.left.now result }
        ensures shorter { OnOk result (length self.new.left.now < length self.old.left.now) }
    {
        if self.next_is_key(Reserved::True) {
            self.key(Reserved::True)?;
            return Ok(List::new(alloc));
        }
        self.equals(alloc)
    }

    /// What a box starts with, behind `with`, or nothing.
    #[tactic(auto, unfolding(crate::specs::Grammar::first_at, crate::specs::Reading::maybe_at))]
    pub fn first(&mut self, alloc: Global) -> Result<List<Atom>, Fault>
        ensures read { Reads first_at self.old.left.now self.new.left.now result }
        ensures shorter { OnOk result (length self.new.left.now ≤ length self.old.left.now) }
    {
        if !self.next_is_key(Reserved::With) {
            return Ok(List::new(alloc));
        }
        self.key(Reserved::With)?;
        self.atoms(alloc)
    }
}
