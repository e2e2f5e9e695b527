//! Readings of literals and guards, at so many more levels.
ghost use Rattle.std.specs.Prelude.{◌≡◌, ◌<◌, length, OnOk};
ghost use Rattle.amdl_parser.specs.Reading.{Reads};
ghost use Rattle.amdl_parser.specs.Grammar.{has_at, compared_at, lit_at, not_at, denied_at, group_at, grouped_at};
ghost use Rattle.amdl_parser.specs.Grammar.{conj_at, any_at, guard_at};

use crate::fault::Fault;
use crate::primitive::Tokens;
use crate::small::kept;
use amdl_tree::{Boxed, Guard, List, Lit, Reserved, Sign};
use std::alloc::Global;

impl<'a> Tokens<'a> {
    /// `has R(E, E)`
    #[tactic(auto, unfolding(crate::specs::Grammar::has_at))]
    fn has_lit(&mut self, alloc: Global) -> Result<Lit, Fault>
        ensures read { Reads has_at self.old.left.now self.new.left.now result }
        ensures shorter { OnOk result (length self.new.left.now < length self.old.left.now) }
    {
        self.key(Reserved::Has)?;
        Ok(Lit::Has(self.atom(alloc)?))
    }

    /// `E = E` or `E != E`
    #[tactic(auto, unfolding(crate::specs::Grammar::compared_at, crate::specs::Grammar::comparison_at))]
    fn compared_lit(&mut self) -> Result<Lit, Fault>
        ensures read { Reads compared_at self.old.left.now self.new.left.now result }
        ensures shorter { OnOk result (length self.new.left.now < length self.old.left.now) }
    {
        let one = self.word()?;
        if self.next_is_sign(Sign::Equals) {
            self.sign(Sign::Equals)?;
            return Ok(Lit::Same(one, self.word()?));
        }
        if self.next_is_sign(Sign::Differs) {
            self.sign(Sign::Differs)?;
            return Ok(Lit::Differ(one, self.word()?));
        }
        Err(Fault::Syntax(self.left.len()))
    }

    /// A literal.
    #[tactic(auto, using(crate::proofs::Levels::lit_is))]
    #[cycle(guards)]
    fn lit(&mut self, alloc: Global, levels: u32) -> Result<Lit, Fault>
        ensures read { Reads (lit_at levels) self.old.left.now self.new.left.now result }
        ensures shorter { OnOk result (length self.new.left.now < length self.old.left.now) }
    {
        if self.next_is_key(Reserved::True) {
            self.key(Reserved::True)?;
            return Ok(Lit::True);
        }
        if self.next_is_key(Reserved::Has) {
            return self.has_lit(alloc);
        }
        if self.next_is_key(Reserved::Not) {
            return self.not_lit(alloc, levels);
        }
        if self.next_is_sign(Sign::OpenParen) {
            return self.group_lit(alloc, levels);
        }
        self.compared_lit()
    }

    /// `not lit`, where there is a level left.
    #[tactic(auto)]
    #[cycle(guards)]
    fn not_lit(&mut self, alloc: Global, levels: u32) -> Result<Lit, Fault>
        ensures read { Reads (not_at levels) self.old.left.now self.new.left.now result }
        ensures shorter { OnOk result (length self.new.left.now < length self.old.left.now) }
    {
        if levels == 0 {
            return Err(Fault::Deep(self.left.len()));
        }
        self.denied(alloc, levels - 1)
    }

    /// `not lit`, with the levels that are left inside.
    #[tactic(auto, unfolding(crate::specs::Grammar::denied_at))]
    #[cycle(guards)]
    fn denied(&mut self, alloc: Global, levels: u32) -> Result<Lit, Fault>
        ensures read { Reads (denied_at levels) self.old.left.now self.new.left.now result }
        ensures shorter { OnOk result (length self.new.left.now < length self.old.left.now) }
    {
        self.key(Reserved::Not)?;
        let lit = self.lit(alloc, levels)?;
        match Boxed::new(alloc, lit) {
            Ok(boxed) => Ok(Lit::Not(boxed)),
            Err(_) => Err(Fault::NoMemory),
        }
    }

    /// `( guard )`, where there is a level left.
    #[tactic(auto)]
    #[cycle(guards)]
    fn group_lit(&mut self, alloc: Global, levels: u32) -> Result<Lit, Fault>
        ensures read { Reads (group_at levels) self.old.left.now self.new.left.now result }
        ensures shorter { OnOk result (length self.new.left.now < length self.old.left.now) }
    {
        if levels == 0 {
            return Err(Fault::Deep(self.left.len()));
        }
        self.grouped(alloc, levels - 1)
    }

    /// `( guard )`, with the levels that are left inside.
    #[tactic(auto, unfolding(crate::specs::Grammar::grouped_at))]
    #[cycle(guards)]
    fn grouped(&mut self, alloc: Global, levels: u32) -> Result<Lit, Fault>
        ensures read { Reads (grouped_at levels) self.old.left.now self.new.left.now result }
        ensures shorter { OnOk result (length self.new.left.now < length self.old.left.now) }
    {
        self.sign(Sign::OpenParen)?;
        let guard = self.guard(alloc, levels)?;
        self.sign(Sign::CloseParen)?;
        Ok(Lit::Group(guard))
    }

    /// Literals with `and` between.
    #[tactic(auto, using(crate::proofs::Loops::listing_start, crate::proofs::Loops::listing_step), unfolding(crate::specs::Grammar::conj_at))]
    #[cycle(guards)]
    fn conj(&mut self, alloc: Global, levels: u32) -> Result<List<Lit>, Fault>
        ensures read { Reads (conj_at levels) self.old.left.now self.new.left.now result }
        ensures shorter { OnOk result (length self.new.left.now < length self.old.left.now) }
    {
        let mut lits = List::new(alloc);
        kept(lits.push(self.lit(alloc, levels)?))?;
        while self.next_is_key(Reserved::And) {
            self.key(Reserved::And)?;
            kept(lits.push(self.lit(alloc, levels)?))?;
        }
        Ok(lits)
    }

    /// A guard: lists of literals with `or` between.
    #[tactic(auto, unfolding(crate::specs::Grammar::guard_at))]
    #[cycle(guards)]
    pub fn guard(&mut self, alloc: Global, levels: u32) -> Result<Guard, Fault>
        ensures read { Reads (guard_at levels) self.old.left.now self.new.left.now result }
        ensures shorter { OnOk result (length self.new.left.now < length self.old.left.now) }
    {
        Ok(Guard {
            any: self.any(alloc, levels)?,
        })
    }

    /// The lists of a guard.
    #[tactic(auto, using(crate::proofs::Loops::listing_start, crate::proofs::Loops::listing_step), unfolding(crate::specs::Grammar::any_at))]
    #[cycle(guards)]
    fn any(&mut self, alloc: Global, levels: u32) -> Result<List<List<Lit>>, Fault>
        ensures read { Reads (any_at levels) self.old.left.now self.new.left.now result }
        ensures shorter { OnOk result (length self.new.left.now < length self.old.left.now) }
    {
        let mut any = List::new(alloc);
        kept(any.push(self.conj(alloc, levels)?))?;
        while self.next_is_key(Reserved::Or) {
            self.key(Reserved::Or)?;
            kept(any.push(self.conj(alloc, levels)?))?;
        }
        Ok(any)
    }
}
