//! Readings of items but classes.
ghost use Rattle.std.specs.Prelude.{◌≡◌, ◌<◌, length, OnOk};
ghost use Rattle.amdl_tree.specs.declared.token.Token.{Token};
ghost use Rattle.amdl_parser.specs.Reading.{Reads};
ghost use Rattle.amdl_parser.specs.Grammar.{claim_at, kind_at, field_at, host_at, box_at, link_at, relation_at};

use crate::fault::Fault;
use crate::primitive::Tokens;
use amdl_tree::{Equal, Item, List, Name, Relation, Reserved, Sign};
use std::alloc::Global;

impl<'a> Tokens<'a> {
    /// `type NAME = { NAME,.. } ;`
    #[tactic(auto, unfolding(crate::specs::Grammar::kind_at))]
    pub fn kind_item(&mut self, alloc: Global) -> Result<Item, Fault>
        ensures read { Reads kind_at self.old.left.now self.new.left.now result }
        ensures shorter { OnOk result (length self.new.left.now < length self.old.left.now) }
    {
        self.key(Reserved::Kind)?;
        let name = self.word()?;
        self.sign(Sign::Equals)?;
        self.sign(Sign::OpenBrace)?;
        let values = self.names(alloc)?;
        self.sign(Sign::CloseBrace)?;
        self.sign(Sign::Semicolon)?;
        Ok(Item::Kind { name, values })
    }

    /// `field NAME : NAME ;`
    #[tactic(auto, unfolding(crate::specs::Grammar::field_at))]
    pub fn field_item(&mut self) -> Result<Item, Fault>
        ensures read { Reads field_at self.old.left.now self.new.left.now result }
        ensures shorter { OnOk result (length self.new.left.now < length self.old.left.now) }
    {
        self.key(Reserved::Field)?;
        let name = self.word()?;
        self.sign(Sign::Colon)?;
        let kind = self.word()?;
        self.sign(Sign::Semicolon)?;
        Ok(Item::Field { name, kind })
    }

    /// `host NAME ;`
    #[tactic(auto, unfolding(crate::specs::Grammar::host_at))]
    pub fn host_item(&mut self) -> Result<Item, Fault>
        ensures read { Reads host_at self.old.left.now self.new.left.now result }
        ensures shorter { OnOk result (length self.new.left.now < length self.old.left.now) }
    {
        self.key(Reserved::Host)?;
        let name = self.word()?;
        self.sign(Sign::Semicolon)?;
        Ok(Item::Host { name })
    }

    /// `box NAME : NAME [with atom,..] ;`
    #[tactic(auto, unfolding(crate::specs::Grammar::box_at))]
    pub fn box_item(&mut self, alloc: Global) -> Result<Item, Fault>
        ensures read { Reads box_at self.old.left.now self.new.left.now result }
        ensures shorter { OnOk result (length self.new.left.now < length self.old.left.now) }
    {
        self.key(Reserved::Box)?;
        let name = self.word()?;
        self.sign(Sign::Colon)?;
        let class = self.word()?;
        let first = self.first(alloc)?;
        self.sign(Sign::Semicolon)?;
        Ok(Item::Instance { name, class, first })
    }

    /// `link end -- end ;`
    #[tactic(auto, unfolding(crate::specs::Grammar::link_at))]
    pub fn link_item(&mut self) -> Result<Item, Fault>
        ensures read { Reads link_at self.old.left.now self.new.left.now result }
        ensures shorter { OnOk result (length self.new.left.now < length self.old.left.now) }
    {
        self.key(Reserved::Link)?;
        let one = self.end()?;
        self.sign(Sign::Dashes)?;
        let two = self.end()?;
        self.sign(Sign::Semicolon)?;
        Ok(Item::Link { one, two })
    }

    /// A host with a pattern, behind the word of the item.
    #[tactic(auto, unfolding(crate::specs::Grammar::claim_at))]
    pub fn claim(&mut self, alloc: Global, word: Reserved) -> Result<(Name, List<Equal>), Fault>
        ensures read { Reads (claim_at (Token.Key word)) self.old.left.now self.new.left.now result }
        ensures shorter { OnOk result (length self.new.left.now < length self.old.left.now) }
    {
        self.key(word)?;
        let host = self.word()?;
        self.sign(Sign::Colon)?;
        let pattern = self.pattern(alloc)?;
        self.sign(Sign::Semicolon)?;
        Ok((host, pattern))
    }

    /// `relation NAME ( NAME,.. ) ;`
    #[tactic(auto, unfolding(crate::specs::Grammar::relation_at))]
    pub fn relation(&mut self, alloc: Global) -> Result<Relation, Fault>
        ensures read { Reads relation_at self.old.left.now self.new.left.now result }
        ensures shorter { OnOk result (length self.new.left.now < length self.old.left.now) }
    {
        self.key(Reserved::Relation)?;
        let name = self.word()?;
        self.sign(Sign::OpenParen)?;
        let kinds = self.names(alloc)?;
        self.sign(Sign::CloseParen)?;
        self.sign(Sign::Semicolon)?;
        Ok(Relation { name, kinds })
    }
}
