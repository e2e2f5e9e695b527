//! Readings of statements and blocks, at so many more levels.
ghost use Rattle.std.specs.Prelude.{◌≡◌, ◌<◌, ◌≤◌, length, OnOk};
ghost use Rattle.amdl_tree.specs.GoesOn.{starts_statement};
ghost use Rattle.amdl_parser.specs.Reading.{Reads, tokens_of, heads};
ghost use Rattle.amdl_parser.specs.Grammar.{update_at, changes_at, output_at, abort_at, stmt_at, choose_at, chosen_at};
ghost use Rattle.amdl_parser.specs.Grammar.{pick_at, picked_at, block_at, statements_at, branch_at, branches_at};

use crate::fault::Fault;
use crate::primitive::Tokens;
use crate::small::kept;
use amdl_tree::{Alternative, Atom, Equal, Lexed, List, Reserved, Sign, Stmt, Token};
use std::alloc::Global;

fn starts_a_statement(token: Token) -> bool
    ensures { result ≡ starts_statement token }
{
    match token {
        Token::Key(word) => matches!(
            word,
            Reserved::Insert
                | Reserved::Remove
                | Reserved::Output
                | Reserved::Abort
                | Reserved::If
                | Reserved::Pick
        ),
        _ => false,
    }
}

#[tactic(auto, unfolding(crate::specs::Reading::heads))]
fn begin_with_a_statement(tokens: &[Lexed]) -> bool
    ensures { result ≡ heads starts_statement (tokens_of tokens.now) }
{
    match tokens {
        [next, ..] => starts_a_statement(next.token),
        [] => false,
    }
}

impl<'a> Tokens<'a> {
    /// A change of a relation, behind this word.
    #[tactic(auto, unfolding(crate::specs::Grammar::update_at))]
    fn update(&mut self, alloc: Global, word: Reserved) -> Result<Atom, Fault>
        ensures read { Reads (update_at word) self.old.left.now self.new.left.now result }
        ensures shorter { OnOk result (length self.new.left.now < length self.old.left.now) }
    {
        self.key(word)?;
        let atom = self.atom(alloc)?;
        self.sign(Sign::Semicolon)?;
        Ok(atom)
    }

    /// Changes in brackets, or nothing.
    #[tactic(auto, unfolding(crate::specs::Grammar::changes_at, crate::specs::Reading::maybe_at))]
    fn some_changes(&mut self, alloc: Global) -> Result<List<Equal>, Fault>
        ensures read { Reads changes_at self.old.left.now self.new.left.now result }
        ensures shorter { OnOk result (length self.new.left.now ≤ length self.old.left.now) }
    {
        if !self.next_is_sign(Sign::OpenBracket) {
            return Ok(List::new(alloc));
        }
        self.sign(Sign::OpenBracket)?;
        let changes = self.changes(alloc)?;
        self.sign(Sign::CloseBracket)?;
        Ok(changes)
    }

    /// `output NAME ;`, perhaps with changes.
    #[tactic(auto, unfolding(crate::specs::Grammar::output_at))]
    fn output(&mut self, alloc: Global) -> Result<Stmt, Fault>
        ensures read { Reads output_at self.old.left.now self.new.left.now result }
        ensures shorter { OnOk result (length self.new.left.now < length self.old.left.now) }
    {
        self.key(Reserved::Output)?;
        let port = self.word()?;
        let changes = self.some_changes(alloc)?;
        self.sign(Sign::Semicolon)?;
        Ok(Stmt::Output { port, changes })
    }

    /// `abort ;`
    #[tactic(auto, unfolding(crate::specs::Grammar::abort_at))]
    fn abort(&mut self) -> Result<Stmt, Fault>
        ensures read { Reads abort_at self.old.left.now self.new.left.now result }
        ensures shorter { OnOk result (length self.new.left.now < length self.old.left.now) }
    {
        self.key(Reserved::Abort)?;
        self.sign(Sign::Semicolon)?;
        Ok(Stmt::Abort)
    }

    /// A statement.
    #[tactic(auto, using(crate::proofs::Levels::stmt_is, crate::proofs::Loops::count_of))]
    #[cycle(statements)]
    fn stmt(&mut self, alloc: Global, levels: u32) -> Result<Stmt, Fault>
        ensures read { Reads (stmt_at levels) self.old.left.now self.new.left.now result }
        ensures shorter { OnOk result (length self.new.left.now < length self.old.left.now) }
    {
        if self.next_is_key(Reserved::Insert) {
            return Ok(Stmt::Insert(self.update(alloc, Reserved::Insert)?));
        }
        if self.next_is_key(Reserved::Remove) {
            return Ok(Stmt::Remove(self.update(alloc, Reserved::Remove)?));
        }
        if self.next_is_key(Reserved::Output) {
            return self.output(alloc);
        }
        if self.next_is_key(Reserved::Abort) {
            return self.abort();
        }
        if self.next_is_key(Reserved::If) {
            return self.choose(alloc, levels);
        }
        if self.next_is_key(Reserved::Pick) {
            return self.pick(alloc, levels);
        }
        Err(Fault::Syntax(self.left.len()))
    }

    /// An `if`, where there is a level left.
    #[tactic(auto)]
    #[cycle(statements)]
    fn choose(&mut self, alloc: Global, levels: u32) -> Result<Stmt, Fault>
        ensures read { Reads (choose_at levels) self.old.left.now self.new.left.now result }
        ensures shorter { OnOk result (length self.new.left.now < length self.old.left.now) }
    {
        if levels == 0 {
            return Err(Fault::Deep(self.left.len()));
        }
        self.chosen(alloc, levels - 1)
    }

    /// An `if`, with the levels that are left inside.
    #[tactic(auto, unfolding(crate::specs::Grammar::chosen_at))]
    #[cycle(statements)]
    fn chosen(&mut self, alloc: Global, levels: u32) -> Result<Stmt, Fault>
        ensures read { Reads (chosen_at levels) self.old.left.now self.new.left.now result }
        ensures shorter { OnOk result (length self.new.left.now < length self.old.left.now) }
    {
        self.key(Reserved::If)?;
        let alternatives = self.branches(alloc, levels)?;
        self.key(Reserved::Fi)?;
        Ok(Stmt::Choose(alternatives))
    }

    /// A `pick`, where there is a level left.
    #[tactic(auto)]
    #[cycle(statements)]
    fn pick(&mut self, alloc: Global, levels: u32) -> Result<Stmt, Fault>
        ensures read { Reads (pick_at levels) self.old.left.now self.new.left.now result }
        ensures shorter { OnOk result (length self.new.left.now < length self.old.left.now) }
    {
        if levels == 0 {
            return Err(Fault::Deep(self.left.len()));
        }
        self.picked(alloc, levels - 1)
    }

    /// A `pick`, with the levels that are left inside.
    #[tactic(auto, unfolding(crate::specs::Grammar::picked_at))]
    #[cycle(statements)]
    fn picked(&mut self, alloc: Global, levels: u32) -> Result<Stmt, Fault>
        ensures read { Reads (picked_at levels) self.old.left.now self.new.left.now result }
        ensures shorter { OnOk result (length self.new.left.now < length self.old.left.now) }
    {
        self.key(Reserved::Pick)?;
        let name = self.word()?;
        self.sign(Sign::Colon)?;
        let kind = self.word()?;
        self.key(Reserved::In)?;
        let body = self.block(alloc, levels)?;
        Ok(Stmt::Pick { name, kind, body })
    }

    /// `{ stmt* }`
    #[tactic(auto, unfolding(crate::specs::Grammar::block_at))]
    #[cycle(statements)]
    pub fn block(&mut self, alloc: Global, levels: u32) -> Result<List<Stmt>, Fault>
        ensures read { Reads (block_at levels) self.old.left.now self.new.left.now result }
        ensures shorter { OnOk result (length self.new.left.now < length self.old.left.now) }
    {
        self.sign(Sign::OpenBrace)?;
        let body = self.statements(alloc, levels)?;
        self.sign(Sign::CloseBrace)?;
        Ok(body)
    }

    /// `guard -> block`
    #[tactic(auto, unfolding(crate::specs::Grammar::branch_at))]
    #[cycle(statements)]
    fn branch(&mut self, alloc: Global, levels: u32) -> Result<Alternative, Fault>
        ensures read { Reads (branch_at levels) self.old.left.now self.new.left.now result }
        ensures shorter { OnOk result (length self.new.left.now < length self.old.left.now) }
    {
        let guard = self.guard(alloc, levels)?;
        self.sign(Sign::Arrow)?;
        let body = self.block(alloc, levels)?;
        Ok(Alternative { guard, body })
    }

    /// Alternatives with `|` between.
    #[tactic(auto, using(crate::proofs::Loops::listing_start, crate::proofs::Loops::listing_step), unfolding(crate::specs::Grammar::branches_at))]
    #[cycle(statements)]
    fn branches(&mut self, alloc: Global, levels: u32) -> Result<List<Alternative>, Fault>
        ensures read { Reads (branches_at levels) self.old.left.now self.new.left.now result }
        ensures shorter { OnOk result (length self.new.left.now < length self.old.left.now) }
    {
        let mut branches = List::new(alloc);
        kept(branches.push(self.branch(alloc, levels)?))?;
        while self.next_is_sign(Sign::Bar) {
            self.sign(Sign::Bar)?;
            kept(branches.push(self.branch(alloc, levels)?))?;
        }
        Ok(branches)
    }

    /// Statements, as far as they go.
    #[tactic(auto, using(crate::proofs::Loops::gather_start, crate::proofs::Loops::gather_step), unfolding(crate::specs::Grammar::statements_at))]
    #[cycle(statements)]
    fn statements(&mut self, alloc: Global, levels: u32) -> Result<List<Stmt>, Fault>
        ensures read { Reads (statements_at levels) self.old.left.now self.new.left.now result }
        ensures shorter { OnOk result (length self.new.left.now ≤ length self.old.left.now) }
    {
        let mut statements = List::new(alloc);
        while begin_with_a_statement(self.left) {
            kept(statements.push(self.stmt(alloc, levels)?))?;
        }
        Ok(statements)
    }
}
