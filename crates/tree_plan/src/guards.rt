ghost use Rattle.std.specs.Prelude.{◌≡◌, IfOk};
ghost use Rattle.std.specs.Option.{option_map};
ghost use Rattle.box_handlers.specs.declared.act.Probe.TheVariants as probe;
ghost use Rattle.tree_plan.specs.Names.{joined, all_some};
ghost use Rattle.tree_plan.specs.Handlers.{term_of, query_of, probe_of, test_of};
ghost use Rattle.tree_plan.specs.Tables.{known_by};

use crate::known::Tables;
use crate::terms::{query_of, term_of};
use amdl_tree::{Atom, Boxed, Guard, List, Lit, Name, NoMemory};
use box_handlers::{Probe, Test};
use std::alloc::Global;

/// What a guard asks. None comes exactly where a name stands for nothing.
///
/// For each name in it linear in the picks and the fields, and logarithmic in the relations and the values.
#[tactic(auto, using(crate::proofs::StepLemmas::all_begun, crate::proofs::StepLemmas::all_more, crate::proofs::StepLemmas::all_lost, crate::proofs::StepLemmas::all_came, crate::proofs::FormLemmas::test_none, crate::proofs::FormLemmas::test_some))]
#[cycle(guards)]
pub(crate) fn test_of(
    alloc: Global,
    tables: &Tables,
    picks: &[Name],
    guard: &Guard,
) -> Result<Option<Test>, NoMemory>
    ensures { IfOk result (λ found. found ≡ test_of (known_by tables.now) picks.now guard.now) }
{
    let mut any = List::new(alloc);
    for lits in guard.any.as_slice() {
        match probes_of(alloc, tables, picks, lits.as_slice())? {
            Some(probes) => any.push(probes)?,
            None => return Ok(None),
        }
    }
    Ok(Some(Test { any }))
}

#[tactic(auto, using(crate::proofs::StepLemmas::all_begun, crate::proofs::StepLemmas::all_more, crate::proofs::StepLemmas::all_lost, crate::proofs::StepLemmas::all_came))]
#[cycle(guards)]
fn probes_of(
    alloc: Global,
    tables: &Tables,
    picks: &[Name],
    lits: &[Lit],
) -> Result<Option<List<Probe>>, NoMemory>
    ensures { IfOk result (λ found. found ≡ all_some (probe_of (known_by tables.now) picks.now) lits.now) }
{
    let mut probes = List::new(alloc);
    for lit in lits {
        match probe_of(alloc, tables, picks, lit)? {
            Some(probe) => probes.push(probe)?,
            None => return Ok(None),
        }
    }
    Ok(Some(probes))
}

#[tactic(auto, using(crate::proofs::FormLemmas::probe_true, crate::proofs::FormLemmas::probe_has, crate::proofs::FormLemmas::probe_same, crate::proofs::FormLemmas::probe_differ, crate::proofs::FormLemmas::probe_not, crate::proofs::FormLemmas::probe_group))]
#[cycle(guards)]
fn probe_of(
    alloc: Global,
    tables: &Tables,
    picks: &[Name],
    lit: &Lit,
) -> Result<Option<Probe>, NoMemory>
    ensures { IfOk result (λ found. found ≡ probe_of (known_by tables.now) picks.now lit.now) }
{
    match lit {
        Lit::True => Ok(Some(Probe::True)),
        Lit::Has(atom) => has_of(alloc, tables, picks, atom),
        Lit::Same(one, two) => same_of(tables, picks, *one, *two),
        Lit::Differ(one, two) => differ_of(tables, picks, *one, *two),
        Lit::Not(inner) => not_of(alloc, tables, picks, inner.value()),
        Lit::Group(guard) => group_of(alloc, tables, picks, guard),
    }
}

fn has_of(
    alloc: Global,
    tables: &Tables,
    picks: &[Name],
    atom: &Atom,
) -> Result<Option<Probe>, NoMemory>
    ensures { IfOk result (λ found. found ≡ option_map probe.Has (query_of (known_by tables.now) picks.now atom.now)) }
{
    match query_of(alloc, tables, picks, atom)? {
        Some(query) => Ok(Some(Probe::Has(query))),
        None => Ok(None),
    }
}

fn same_of(tables: &Tables, picks: &[Name], one: Name, two: Name) -> Result<Option<Probe>, NoMemory>
    ensures { IfOk result (λ found. found ≡
        joined probe.Same (term_of (known_by tables.now) picks.now one)
        (term_of (known_by tables.now) picks.now two)) }
{
    let Some(first) = term_of(tables, picks, one)? else {
        return Ok(None);
    };
    match term_of(tables, picks, two)? {
        Some(second) => Ok(Some(Probe::Same(first, second))),
        None => Ok(None),
    }
}

fn differ_of(
    tables: &Tables,
    picks: &[Name],
    one: Name,
    two: Name,
) -> Result<Option<Probe>, NoMemory>
    ensures { IfOk result (λ found. found ≡
        joined probe.Differ (term_of (known_by tables.now) picks.now one)
        (term_of (known_by tables.now) picks.now two)) }
{
    let Some(first) = term_of(tables, picks, one)? else {
        return Ok(None);
    };
    match term_of(tables, picks, two)? {
        Some(second) => Ok(Some(Probe::Differ(first, second))),
        None => Ok(None),
    }
}

#[cycle(guards)]
fn not_of(
    alloc: Global,
    tables: &Tables,
    picks: &[Name],
    lit: &Lit,
) -> Result<Option<Probe>, NoMemory>
    ensures { IfOk result (λ found. found ≡ option_map probe.Not (probe_of (known_by tables.now) picks.now lit.now)) }
{
    match probe_of(alloc, tables, picks, lit)? {
        Some(inner) => Ok(Some(Probe::Not(Boxed::new(alloc, inner)?))),
        None => Ok(None),
    }
}

#[cycle(guards)]
fn group_of(
    alloc: Global,
    tables: &Tables,
    picks: &[Name],
    guard: &Guard,
) -> Result<Option<Probe>, NoMemory>
    ensures { IfOk result (λ found. found ≡
        option_map probe.Group (test_of (known_by tables.now) picks.now guard.now)) }
{
    match test_of(alloc, tables, picks, guard)? {
        Some(test) => Ok(Some(Probe::Group(test))),
        None => Ok(None),
    }
}
