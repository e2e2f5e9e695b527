//! Readings of lists whose parts have a comma between.
ghost use Rattle.std.specs.Prelude.{◌<◌, length, OnOk};
ghost use Rattle.amdl_parser.specs.Reading.{Reads};
ghost use Rattle.amdl_parser.specs.Grammar.{names_at, equals_at, some_changes_at, atoms_at};

use crate::fault::Fault;
use crate::primitive::Tokens;
use crate::small::kept;
use amdl_tree::{Atom, Equal, List, Name, Sign};
use std::alloc::Global;

impl<'a> Tokens<'a> {
    /// `NAME,..`
    #[tactic(auto, using(crate::proofs::Loops::listing_start, crate::proofs::Loops::listing_step), unfolding(crate::specs::Grammar::names_at))]
    pub fn names(&mut self, alloc: Global) -> Result<List<Name>, Fault>
        ensures read { Reads names_at self.old.left.now self.new.left.now result }
        ensures shorter { OnOk result (length self.new.left.now < length self.old.left.now) }
    {
        let mut names = List::new(alloc);
        kept(names.push(self.word()?))?;
        while self.next_is_sign(Sign::Comma) {
            self.sign(Sign::Comma)?;
            kept(names.push(self.word()?))?;
        }
        Ok(names)
    }

    /// Equations with commas between.
    #[tactic(auto, using(crate::proofs::Loops::listing_start, crate::proofs::Loops::listing_step), unfolding(crate::specs::Grammar::equals_at))]
    pub fn equals(&mut self, alloc: Global) -> Result<List<Equal>, Fault>
        ensures read { Reads equals_at self.old.left.now self.new.left.now result }
        ensures shorter { OnOk result (length self.new.left.now < length self.old.left.now) }
    {
        let mut equals = List::new(alloc);
        kept(equals.push(self.equal()?))?;
        while self.next_is_sign(Sign::Comma) {
            self.sign(Sign::Comma)?;
            kept(equals.push(self.equal()?))?;
        }
        Ok(equals)
    }

    /// Changes with commas between.
    #[tactic(auto, using(crate::proofs::Loops::listing_start, crate::proofs::Loops::listing_step), unfolding(crate::specs::Grammar::some_changes_at))]
    pub fn changes(&mut self, alloc: Global) -> Result<List<Equal>, Fault>
        ensures read { Reads some_changes_at self.old.left.now self.new.left.now result }
        ensures shorter { OnOk result (length self.new.left.now < length self.old.left.now) }
    {
        let mut changes = List::new(alloc);
        kept(changes.push(self.change()?))?;
        while self.next_is_sign(Sign::Comma) {
            self.sign(Sign::Comma)?;
            kept(changes.push(self.change()?))?;
        }
        Ok(changes)
    }

    /// Atoms with commas between.
    #[tactic(auto, using(crate::proofs::Loops::listing_start, crate::proofs::Loops::listing_step), unfolding(crate::specs::Grammar::atoms_at))]
    pub fn atoms(&mut self, alloc: Global) -> Result<List<Atom>, Fault>
        ensures read { Reads atoms_at self.old.left.now self.new.left.now result }
        ensures shorter { OnOk result (length self.new.left.now < length self.old.left.now) }
    {
        let mut atoms = List::new(alloc);
        kept(atoms.push(self.atom(alloc)?))?;
        while self.next_is_sign(Sign::Comma) {
            self.sign(Sign::Comma)?;
            kept(atoms.push(self.atom(alloc)?))?;
        }
        Ok(atoms)
    }
}
