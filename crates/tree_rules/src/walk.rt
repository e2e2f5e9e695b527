ghost use Rattle.std.specs.Prelude.{◌≡◌, ◌++◌, [], ◌∷◌, Bool, IfOk};
ghost use Rattle.std.specs.List.{list_any};
ghost use Rattle.tree_rules.specs.Uses.{Use, OfAtom, OfPair, OfOutput, OfPick, all_uses, uses_of_lit, uses_of_guard};
ghost use Rattle.tree_rules.specs.Uses.{uses_of_statement, uses_of_alternative, uses_of_body, uses_of_handlers};

use crate::opened::Opened;
use amdl_tree::{Alternative, Atom, Equal, Guard, Handler, List, Lit, Name, NoMemory, Stmt};
use std::alloc::Global;

/// A test of what handlers use, within the picks that are open around it.
pub trait UseTest {
    ghost test: { Self → Use → Bool };

    fn atom(&self, alloc: Global, opened: &[Opened], atom: &Atom) -> Result<bool, NoMemory>
        ensures { IfOk result (λ passed. passed ≡ test self.now (OfAtom opened.now atom.now)) };

    fn pair(&self, alloc: Global, opened: &[Opened], one: Name, two: Name) -> Result<bool, NoMemory>
        ensures { IfOk result (λ passed. passed ≡ test self.now (OfPair opened.now one two)) };

    fn output(
        &self,
        alloc: Global,
        opened: &[Opened],
        port: Name,
        changes: &[Equal],
    ) -> Result<bool, NoMemory>
        ensures { IfOk result (λ passed. passed ≡ test self.now (OfOutput opened.now port changes.now)) };

    fn pick(
        &self,
        alloc: Global,
        opened: &[Opened],
        name: Name,
        kind: Name,
    ) -> Result<bool, NoMemory>
        ensures { IfOk result (λ passed. passed ≡ test self.now (OfPick opened.now name kind)) };
}

/// Whether something that the handlers use passes the test. Linear in the handlers, but for the test and for a copy of
/// the picks around each pick.
#[tactic(auto, using(crate::proofs::WalkLemmas::part_passes, crate::proofs::WalkLemmas::part_fails, crate::proofs::WalkLemmas::none_passes))]
pub fn any_use<T: UseTest>(alloc: Global, test: &T, handlers: &[Handler]) -> Result<bool, NoMemory>
    ensures { IfOk result (λ found. found ≡ list_any (T.test test.now) (uses_of_handlers handlers.now)) }
{
    for handler in handlers {
        if block_uses(alloc, test, &[], handler.body.as_slice())? {
            return Ok(true);
        }
    }
    Ok(false)
}

#[tactic(auto, using(crate::proofs::WalkLemmas::part_passes, crate::proofs::WalkLemmas::part_fails, crate::proofs::WalkLemmas::none_passes))]
#[cycle(statements)]
fn block_uses<T: UseTest>(
    alloc: Global,
    test: &T,
    opened: &[Opened],
    body: &[Stmt],
) -> Result<bool, NoMemory>
    ensures { IfOk result
        (λ found. found ≡ list_any (T.test test.now) (all_uses uses_of_statement body.now opened.now)) }
{
    for stmt in body {
        if statement_uses(alloc, test, opened, stmt)? {
            return Ok(true);
        }
    }
    Ok(false)
}

#[tactic(auto, using(crate::proofs::WalkLemmas::insert_uses, crate::proofs::WalkLemmas::remove_uses, crate::proofs::WalkLemmas::abort_uses, crate::proofs::WalkLemmas::output_uses, crate::proofs::WalkLemmas::choose_uses, crate::proofs::WalkLemmas::pick_uses))]
#[cycle(statements)]
fn statement_uses<T: UseTest>(
    alloc: Global,
    test: &T,
    opened: &[Opened],
    stmt: &Stmt,
) -> Result<bool, NoMemory>
    ensures { IfOk result (λ found. found ≡ list_any (T.test test.now) (uses_of_statement stmt.now opened.now)) }
{
    match stmt {
        Stmt::Insert(atom) => test.atom(alloc, opened, atom),
        Stmt::Remove(atom) => test.atom(alloc, opened, atom),
        Stmt::Abort => Ok(false),
        Stmt::Output { port, changes } => test.output(alloc, opened, *port, changes.as_slice()),
        Stmt::Choose(alternatives) => choice_uses(alloc, test, opened, alternatives.as_slice()),
        Stmt::Pick { name, kind, body } => {
            pick_uses(alloc, test, opened, *name, *kind, body.as_slice())
        }
    }
}

#[tactic(auto, using(crate::proofs::WalkLemmas::part_passes, crate::proofs::WalkLemmas::part_fails, crate::proofs::WalkLemmas::none_passes))]
#[cycle(statements)]
fn choice_uses<T: UseTest>(
    alloc: Global,
    test: &T,
    opened: &[Opened],
    alternatives: &[Alternative],
) -> Result<bool, NoMemory>
    ensures { IfOk result (λ found. found ≡
        list_any (T.test test.now) (all_uses uses_of_alternative alternatives.now opened.now)) }
{
    for alternative in alternatives {
        if branch_uses(alloc, test, opened, alternative)? {
            return Ok(true);
        }
    }
    Ok(false)
}

#[tactic(auto, using(crate::proofs::WalkLemmas::guard_passes, crate::proofs::WalkLemmas::guard_fails))]
#[cycle(statements)]
fn branch_uses<T: UseTest>(
    alloc: Global,
    test: &T,
    opened: &[Opened],
    alternative: &Alternative,
) -> Result<bool, NoMemory>
    ensures { IfOk result
        (λ found. found ≡ list_any (T.test test.now) (uses_of_alternative alternative.now opened.now)) }
{
    if guard_uses(alloc, test, opened, &alternative.guard)? {
        return Ok(true);
    }
    block_uses(alloc, test, opened, alternative.body.as_slice())
}

// A pick costs a copy of the picks around it.
#[tactic(auto, using(crate::proofs::WalkLemmas::name_passes, crate::proofs::WalkLemmas::name_fails))]
#[cycle(statements)]
fn pick_uses<T: UseTest>(
    alloc: Global,
    test: &T,
    opened: &[Opened],
    name: Name,
    kind: Name,
    body: &[Stmt],
) -> Result<bool, NoMemory>
    ensures { IfOk result (λ found. found ≡ list_any (T.test test.now)
        (OfPick opened.now name kind
        ∷ all_uses uses_of_statement body.now (opened.now ++ record { name = name; kind = kind } ∷ []))) }
{
    if test.pick(alloc, opened, name, kind)? {
        return Ok(true);
    }
    let within = with_pick(alloc, opened, name, kind)?;
    block_uses(alloc, test, within.as_slice(), body)
}

fn with_pick(
    alloc: Global,
    opened: &[Opened],
    name: Name,
    kind: Name,
) -> Result<List<Opened>, NoMemory>
    ensures { IfOk result (λ within. within ≡ opened.now ++ record { name = name; kind = kind } ∷ []) }
{
    let mut within = List::new(alloc);
    for pick in opened {
        within.push(*pick)?;
    }
    within.push(Opened { name, kind })?;
    Ok(within)
}

#[tactic(auto, using(crate::proofs::WalkLemmas::list_passes, crate::proofs::WalkLemmas::part_fails, crate::proofs::WalkLemmas::no_list_passes))]
#[cycle(guards)]
fn guard_uses<T: UseTest>(
    alloc: Global,
    test: &T,
    opened: &[Opened],
    guard: &Guard,
) -> Result<bool, NoMemory>
    ensures { IfOk result (λ found. found ≡ list_any (T.test test.now) (uses_of_guard guard.now opened.now)) }
{
    for lits in guard.any.as_slice() {
        if conjunction_uses(alloc, test, opened, lits.as_slice())? {
            return Ok(true);
        }
    }
    Ok(false)
}

#[tactic(auto, using(crate::proofs::WalkLemmas::part_passes, crate::proofs::WalkLemmas::part_fails, crate::proofs::WalkLemmas::none_passes))]
#[cycle(guards)]
fn conjunction_uses<T: UseTest>(
    alloc: Global,
    test: &T,
    opened: &[Opened],
    lits: &[Lit],
) -> Result<bool, NoMemory>
    ensures { IfOk result (λ found. found ≡ list_any (T.test test.now) (all_uses uses_of_lit lits.now opened.now)) }
{
    for lit in lits {
        if literal_uses(alloc, test, opened, lit)? {
            return Ok(true);
        }
    }
    Ok(false)
}

#[tactic(auto, using(crate::proofs::WalkLemmas::true_uses, crate::proofs::WalkLemmas::has_uses, crate::proofs::WalkLemmas::same_uses, crate::proofs::WalkLemmas::differ_uses, crate::proofs::WalkLemmas::not_uses, crate::proofs::WalkLemmas::group_uses))]
#[cycle(guards)]
fn literal_uses<T: UseTest>(
    alloc: Global,
    test: &T,
    opened: &[Opened],
    lit: &Lit,
) -> Result<bool, NoMemory>
    ensures { IfOk result (λ found. found ≡ list_any (T.test test.now) (uses_of_lit lit.now opened.now)) }
{
    match lit {
        Lit::True => Ok(false),
        Lit::Has(atom) => test.atom(alloc, opened, atom),
        Lit::Same(one, two) => test.pair(alloc, opened, *one, *two),
        Lit::Differ(one, two) => test.pair(alloc, opened, *one, *two),
        Lit::Not(inner) => literal_uses(alloc, test, opened, inner.value()),
        Lit::Group(guard) => guard_uses(alloc, test, opened, guard),
    }
}
