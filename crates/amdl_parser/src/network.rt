//! Readings of classes, items and whole trees.
ghost use Rattle.std.specs.Prelude.{◌≡◌, ◌<◌, ◌≤◌, length, OnOk};
ghost use Rattle.amdl_tree.specs.GoesOn.{starts_relation, starts_handler, starts_item};
ghost use Rattle.amdl_parser.specs.Reading.{Reads, tokens_of, heads};
ghost use Rattle.amdl_parser.specs.Grammar.{relations_at, handler_at, handlers_at, body_at, class_at, item_at};
ghost use Rattle.amdl_parser.specs.Grammar.{items_at, tree_at};

use crate::fault::Fault;
use crate::primitive::Tokens;
use crate::small::kept;
use amdl_tree::{Class, Handler, Item, Lexed, List, Relation, Reserved, Sign, Token, Tree};
use std::alloc::Global;

fn starts_an_item(token: Token) -> bool
    ensures { result ≡ starts_item token }
{
    match token {
        Token::Key(word) => matches!(
            word,
            Reserved::Kind
                | Reserved::Field
                | Reserved::Middlebox
                | Reserved::Host
                | Reserved::Box
                | Reserved::Link
                | Reserved::Sends
                | Reserved::Forbid
        ),
        _ => false,
    }
}

fn starts_a_relation(token: Token) -> bool
    ensures { result ≡ starts_relation token }
{
    match token {
        Token::Key(word) => matches!(word, Reserved::Relation),
        _ => false,
    }
}

fn starts_a_handler(token: Token) -> bool
    ensures { result ≡ starts_handler token }
{
    match token {
        Token::Key(word) => matches!(word, Reserved::On),
        _ => false,
    }
}

#[tactic(auto, unfolding(crate::specs::Reading::heads))]
fn begin_with_an_item(tokens: &[Lexed]) -> bool
    ensures { result ≡ heads starts_item (tokens_of tokens.now) }
{
    match tokens {
        [next, ..] => starts_an_item(next.token),
        [] => false,
    }
}

#[tactic(auto, unfolding(crate::specs::Reading::heads))]
fn begin_with_a_relation(tokens: &[Lexed]) -> bool
    ensures { result ≡ heads starts_relation (tokens_of tokens.now) }
{
    match tokens {
        [next, ..] => starts_a_relation(next.token),
        [] => false,
    }
}

#[tactic(auto, unfolding(crate::specs::Reading::heads))]
fn begin_with_a_handler(tokens: &[Lexed]) -> bool
    ensures { result ≡ heads starts_handler (tokens_of tokens.now) }
{
    match tokens {
        [next, ..] => starts_a_handler(next.token),
        [] => false,
    }
}

impl<'a> Tokens<'a> {
    /// Relations, as far as they go.
    #[tactic(auto, using(crate::proofs::Loops::gather_start, crate::proofs::Loops::gather_step), unfolding(crate::specs::Grammar::relations_at))]
    fn relations(&mut self, alloc: Global) -> Result<List<Relation>, Fault>
        ensures read { Reads relations_at self.old.left.now self.new.left.now result }
        ensures shorter { OnOk result (length self.new.left.now ≤ length self.old.left.now) }
    {
        let mut relations = List::new(alloc);
        while begin_with_a_relation(self.left) {
            kept(relations.push(self.relation(alloc)?))?;
        }
        Ok(relations)
    }

    /// `on NAME : block`
    #[tactic(auto, unfolding(crate::specs::Grammar::handler_at))]
    fn handler(&mut self, alloc: Global, levels: u32) -> Result<Handler, Fault>
        ensures read { Reads (handler_at levels) self.old.left.now self.new.left.now result }
        ensures shorter { OnOk result (length self.new.left.now < length self.old.left.now) }
    {
        self.key(Reserved::On)?;
        let port = self.word()?;
        self.sign(Sign::Colon)?;
        let body = self.block(alloc, levels)?;
        Ok(Handler { port, body })
    }

    /// Handlers, as far as they go.
    #[tactic(auto, using(crate::proofs::Loops::gather_start, crate::proofs::Loops::gather_step), unfolding(crate::specs::Grammar::handlers_at))]
    fn handlers(&mut self, alloc: Global, levels: u32) -> Result<List<Handler>, Fault>
        ensures read { Reads (handlers_at levels) self.old.left.now self.new.left.now result }
        ensures shorter { OnOk result (length self.new.left.now ≤ length self.old.left.now) }
    {
        let mut handlers = List::new(alloc);
        while begin_with_a_handler(self.left) {
            kept(handlers.push(self.handler(alloc, levels)?))?;
        }
        Ok(handlers)
    }

    /// The relations and handlers of a class, up to its last brace.
    #[tactic(auto, unfolding(crate::specs::Grammar::body_at))]
    fn body(&mut self, alloc: Global, levels: u32) -> Result<(List<Relation>, List<Handler>), Fault>
        ensures read { Reads (body_at levels) self.old.left.now self.new.left.now result }
        ensures shorter { OnOk result (length self.new.left.now < length self.old.left.now) }
    {
        let relations = self.relations(alloc)?;
        let handlers = self.handlers(alloc, levels)?;
        self.sign(Sign::CloseBrace)?;
        Ok((relations, handlers))
    }

    /// A class.
    #[tactic(auto, unfolding(crate::specs::Grammar::class_at))]
    fn class(&mut self, alloc: Global, levels: u32) -> Result<Class, Fault>
        ensures read { Reads (class_at levels) self.old.left.now self.new.left.now result }
        ensures shorter { OnOk result (length self.new.left.now < length self.old.left.now) }
    {
        self.key(Reserved::Middlebox)?;
        let name = self.word()?;
        self.sign(Sign::OpenBrace)?;
        self.key(Reserved::Port)?;
        let ports = self.names(alloc)?;
        self.sign(Sign::Semicolon)?;
        let (relations, handlers) = self.body(alloc, levels)?;
        Ok(Class {
            name,
            ports,
            relations,
            handlers,
        })
    }

    /// An item.
    #[tactic(auto, using(crate::proofs::Loops::count_of), unfolding(crate::specs::Grammar::item_at))]
    fn item(&mut self, alloc: Global, levels: u32) -> Result<Item, Fault>
        ensures read { Reads (item_at levels) self.old.left.now self.new.left.now result }
        ensures shorter { OnOk result (length self.new.left.now < length self.old.left.now) }
    {
        if self.next_is_key(Reserved::Kind) {
            return self.kind_item(alloc);
        }
        if self.next_is_key(Reserved::Field) {
            return self.field_item();
        }
        if self.next_is_key(Reserved::Middlebox) {
            return Ok(Item::Class(self.class(alloc, levels)?));
        }
        if self.next_is_key(Reserved::Host) {
            return self.host_item();
        }
        if self.next_is_key(Reserved::Box) {
            return self.box_item(alloc);
        }
        if self.next_is_key(Reserved::Link) {
            return self.link_item();
        }
        if self.next_is_key(Reserved::Sends) {
            let (host, pattern) = self.claim(alloc, Reserved::Sends)?;
            return Ok(Item::Sends { host, pattern });
        }
        if self.next_is_key(Reserved::Forbid) {
            let (host, pattern) = self.claim(alloc, Reserved::Forbid)?;
            return Ok(Item::Forbid { host, pattern });
        }
        Err(Fault::Syntax(self.left.len()))
    }

    /// Items, as far as they go.
    #[tactic(auto, using(crate::proofs::Loops::gather_start, crate::proofs::Loops::gather_step), unfolding(crate::specs::Grammar::items_at))]
    fn items(&mut self, alloc: Global, levels: u32) -> Result<List<Item>, Fault>
        ensures read { Reads (items_at levels) self.old.left.now self.new.left.now result }
        ensures shorter { OnOk result (length self.new.left.now ≤ length self.old.left.now) }
    {
        let mut items = List::new(alloc);
        while begin_with_an_item(self.left) {
            kept(items.push(self.item(alloc, levels)?))?;
        }
        Ok(items)
    }

    /// `network NAME ; item*`
    #[tactic(auto, unfolding(crate::specs::Grammar::tree_at))]
    pub fn tree(&mut self, alloc: Global, levels: u32) -> Result<Tree, Fault>
        ensures read { Reads (tree_at levels) self.old.left.now self.new.left.now result }
        ensures shorter { OnOk result (length self.new.left.now < length self.old.left.now) }
    {
        self.key(Reserved::Network)?;
        let name = self.word()?;
        self.sign(Sign::Semicolon)?;
        let items = self.items(alloc, levels)?;
        Ok(Tree { name, items })
    }
}
