ghost use Rattle.std.specs.Prelude.{◌≡◌, IfOk};
ghost use Rattle.tree_plan.specs.Names.{all_some};
ghost use Rattle.tree_plan.specs.Handlers.{term_of, query_of, change_of};
ghost use Rattle.tree_plan.specs.Tables.{known_by};

use crate::known::Tables;
use crate::names::number_of;
use amdl_tree::{Atom, Equal, List, Name, NoMemory};
use box_handlers::{Change, Query, Term};
use std::alloc::Global;

/// What an expression stands for: the enclosing pick of this name, else the field, else the value. None comes exactly
/// where there is none of them. Linear in the picks and the fields, and logarithmic in the values.
pub(crate) fn term_of(tables: &Tables, picks: &[Name], name: Name) -> Result<Option<Term>, NoMemory>
    ensures { IfOk result (λ found. found ≡ term_of (known_by tables.now) picks.now name) }
{
    if let Some(pick) = number_of(picks, name)? {
        return Ok(Some(Term::Picked(pick)));
    }
    if let Some(field) = number_of(tables.fields, name)? {
        return Ok(Some(Term::Field(field)));
    }
    match tables.kinds.value_number(name) {
        Some(value) => Ok(Some(Term::Value(value))),
        None => Ok(None),
    }
}

#[tactic(auto, using(crate::proofs::StepLemmas::all_begun, crate::proofs::StepLemmas::all_more, crate::proofs::StepLemmas::all_lost, crate::proofs::StepLemmas::all_came))]
fn terms_of(
    alloc: Global,
    tables: &Tables,
    picks: &[Name],
    names: &[Name],
) -> Result<Option<List<Term>>, NoMemory>
    ensures { IfOk result (λ found. found ≡ all_some (term_of (known_by tables.now) picks.now) names.now) }
{
    let mut terms = List::new(alloc);
    for name in names {
        match term_of(tables, picks, *name)? {
            Some(term) => terms.push(term)?,
            None => return Ok(None),
        }
    }
    Ok(Some(terms))
}

/// A relation with a term for each argument. None comes exactly where a name stands for nothing.
///
/// Logarithmic in the relations, and for each argument linear in the picks and the fields and logarithmic in the values.
pub(crate) fn query_of(
    alloc: Global,
    tables: &Tables,
    picks: &[Name],
    atom: &Atom,
) -> Result<Option<Query>, NoMemory>
    ensures { IfOk result (λ found. found ≡ query_of (known_by tables.now) picks.now atom.now) }
{
    let Some(relation) = tables.relations.number(atom.relation) else {
        return Ok(None);
    };
    match terms_of(alloc, tables, picks, atom.args.as_slice())? {
        Some(args) => Ok(Some(Query { relation, args })),
        None => Ok(None),
    }
}

fn change_of(tables: &Tables, picks: &[Name], change: Equal) -> Result<Option<Change>, NoMemory>
    ensures { IfOk result (λ found. found ≡ change_of (known_by tables.now) picks.now change) }
{
    let Some(field) = number_of(tables.fields, change.field)? else {
        return Ok(None);
    };
    match term_of(tables, picks, change.value)? {
        Some(to) => Ok(Some(Change { field, to })),
        None => Ok(None),
    }
}

/// The changes of an output in their order. None comes exactly where a name stands for nothing.
#[tactic(auto, using(crate::proofs::StepLemmas::all_begun, crate::proofs::StepLemmas::all_more, crate::proofs::StepLemmas::all_lost, crate::proofs::StepLemmas::all_came))]
pub(crate) fn changes_of(
    alloc: Global,
    tables: &Tables,
    picks: &[Name],
    equals: &[Equal],
) -> Result<Option<List<Change>>, NoMemory>
    ensures { IfOk result (λ found. found ≡ all_some (change_of (known_by tables.now) picks.now) equals.now) }
{
    let mut changes = List::new(alloc);
    for equal in equals {
        match change_of(tables, picks, *equal)? {
            Some(change) => changes.push(change)?,
            None => return Ok(None),
        }
    }
    Ok(Some(changes))
}
