ghost use Rattle.std.specs.Prelude.{◌≡◌, [], ◌∷◌, ◌++◌, IfOk};
ghost use Rattle.std.specs.Option.{option_map};
ghost use Rattle.box_handlers.specs.declared.act.Act.TheVariants as act;
ghost use Rattle.tree_plan.specs.Names.{joined, all_some, number_of, values_named};
ghost use Rattle.tree_plan.specs.Handlers.{query_of, change_of, all_within, act_of, acts_of, branch_of, body_for};
ghost use Rattle.tree_plan.specs.Handlers.{handlers_of};
ghost use Rattle.tree_plan.specs.Tables.{known_by};

use crate::guards::test_of;
use crate::known::Tables;
use crate::names::values_named;
use crate::terms::{changes_of, query_of};
use amdl_tree::{Alternative, Atom, Equal, Handler, List, Name, NoMemory, Stmt};
use box_handlers::{Act, Branch};
use std::alloc::Global;

/// A handler for each port, in the order of the ports, with numbers in place of names; a port that no handler names has
/// the empty one. None comes exactly where a name stands for nothing.
///
/// For each port linear in the handlers, and for each name in them linear in the picks around it, the fields and the
/// types, and logarithmic in the relations, the ports and the values. A number that doesn't fit 32 bits is refused as
/// want of memory.
#[tactic(auto, using(crate::proofs::StepLemmas::all_begun, crate::proofs::StepLemmas::all_more, crate::proofs::StepLemmas::all_lost, crate::proofs::StepLemmas::all_came))]
pub fn handlers_of(
    alloc: Global,
    tables: &Tables,
    handlers: &[Handler],
) -> Result<Option<List<List<Act>>>, NoMemory>
    ensures { IfOk result (λ found. found ≡ handlers_of (known_by tables.now) handlers.now) }
{
    let ports = tables.ports.names();
    let mut numbered = List::new(alloc);
    for port in ports {
        let body = body_for(handlers, *port);
        match acts_of(alloc, tables, &[], body)? {
            Some(acts) => numbered.push(acts)?,
            None => return Ok(None),
        }
    }
    Ok(Some(numbered))
}

/// The handlers in the order of the text, with numbers in place of names. None comes exactly where a name in a block
/// stands for nothing; the port that a handler is for isn't looked up.
///
/// The time is that of `handlers_of`, but that ports and handlers aren't matched.
#[tactic(auto, using(crate::proofs::StepLemmas::all_begun, crate::proofs::StepLemmas::all_more, crate::proofs::StepLemmas::all_lost, crate::proofs::StepLemmas::all_came))]
pub fn bodies_of(
    alloc: Global,
    tables: &Tables,
    handlers: &[Handler],
) -> Result<Option<List<List<Act>>>, NoMemory>
    ensures { IfOk result (λ found. found ≡ all_some (λ handler. acts_of (known_by tables.now) handler.body) handlers.now) }
{
    let mut bodies = List::new(alloc);
    for handler in handlers {
        match acts_of(alloc, tables, &[], handler.body.as_slice())? {
            Some(acts) => bodies.push(acts)?,
            None => return Ok(None),
        }
    }
    Ok(Some(bodies))
}

// The block of the first handler that names the port, and the empty one where none does.
#[tactic(auto, using(crate::proofs::FormLemmas::body_here, crate::proofs::FormLemmas::body_later, crate::proofs::FormLemmas::body_nowhere))]
fn body_for<'a>(handlers: &'a [Handler], port: Name) -> &'a [Stmt]
    ensures { result.now ≡ body_for handlers.now port }
{
    for handler in handlers {
        if handler.port == port {
            return handler.body.as_slice();
        }
    }
    &[]
}

#[tactic(auto, using(crate::proofs::StepLemmas::all_begun, crate::proofs::StepLemmas::all_more, crate::proofs::StepLemmas::all_lost, crate::proofs::StepLemmas::all_came))]
#[cycle(statements)]
fn acts_of(
    alloc: Global,
    tables: &Tables,
    picks: &[Name],
    body: &[Stmt],
) -> Result<Option<List<Act>>, NoMemory>
    ensures { IfOk result (λ found. found ≡ all_within (act_of (known_by tables.now)) picks.now body.now) }
{
    let mut acts = List::new(alloc);
    for stmt in body {
        match act_of(alloc, tables, picks, stmt)? {
            Some(act) => acts.push(act)?,
            None => return Ok(None),
        }
    }
    Ok(Some(acts))
}

#[tactic(auto, using(crate::proofs::FormLemmas::act_insert, crate::proofs::FormLemmas::act_remove, crate::proofs::FormLemmas::act_abort, crate::proofs::FormLemmas::act_output, crate::proofs::FormLemmas::act_choose, crate::proofs::FormLemmas::act_pick))]
#[cycle(statements)]
fn act_of(
    alloc: Global,
    tables: &Tables,
    picks: &[Name],
    stmt: &Stmt,
) -> Result<Option<Act>, NoMemory>
    ensures { IfOk result (λ found. found ≡ act_of (known_by tables.now) stmt.now picks.now) }
{
    match stmt {
        Stmt::Insert(atom) => insert_of(alloc, tables, picks, atom),
        Stmt::Remove(atom) => remove_of(alloc, tables, picks, atom),
        Stmt::Abort => Ok(Some(Act::Abort)),
        Stmt::Output { port, changes } => output_of(
            alloc,
            tables,
            picks,
            *port,
            changes.as_slice(),
        ),
        Stmt::Choose(alternatives) => choose_of(alloc, tables, picks, alternatives.as_slice()),
        Stmt::Pick { name, kind, body } => pick_of(
            alloc,
            tables,
            picks,
            *name,
            *kind,
            body.as_slice(),
        ),
    }
}

fn insert_of(
    alloc: Global,
    tables: &Tables,
    picks: &[Name],
    atom: &Atom,
) -> Result<Option<Act>, NoMemory>
    ensures { IfOk result (λ found. found ≡ option_map act.Insert (query_of (known_by tables.now) picks.now atom.now)) }
{
    match query_of(alloc, tables, picks, atom)? {
        Some(query) => Ok(Some(Act::Insert(query))),
        None => Ok(None),
    }
}

fn remove_of(
    alloc: Global,
    tables: &Tables,
    picks: &[Name],
    atom: &Atom,
) -> Result<Option<Act>, NoMemory>
    ensures { IfOk result (λ found. found ≡ option_map act.Remove (query_of (known_by tables.now) picks.now atom.now)) }
{
    match query_of(alloc, tables, picks, atom)? {
        Some(query) => Ok(Some(Act::Remove(query))),
        None => Ok(None),
    }
}

fn output_of(
    alloc: Global,
    tables: &Tables,
    picks: &[Name],
    port: Name,
    changes: &[Equal],
) -> Result<Option<Act>, NoMemory>
    ensures { IfOk result (λ found. found ≡
        joined act.Output (number_of tables.now.ports.now port)
        (all_some (change_of (known_by tables.now) picks.now) changes.now)) }
{
    let Some(number) = tables.ports.number(port) else {
        return Ok(None);
    };
    match changes_of(alloc, tables, picks, changes)? {
        Some(changed) => Ok(Some(Act::Output(number, changed))),
        None => Ok(None),
    }
}

#[cycle(statements)]
fn choose_of(
    alloc: Global,
    tables: &Tables,
    picks: &[Name],
    alternatives: &[Alternative],
) -> Result<Option<Act>, NoMemory>
    ensures { IfOk result (λ found. found ≡
        option_map act.Choose (all_within (branch_of (known_by tables.now)) picks.now alternatives.now)) }
{
    match branches_of(alloc, tables, picks, alternatives)? {
        Some(branches) => Ok(Some(Act::Choose(branches))),
        None => Ok(None),
    }
}

#[tactic(auto, using(crate::proofs::StepLemmas::all_begun, crate::proofs::StepLemmas::all_more, crate::proofs::StepLemmas::all_lost, crate::proofs::StepLemmas::all_came))]
#[cycle(statements)]
fn branches_of(
    alloc: Global,
    tables: &Tables,
    picks: &[Name],
    alternatives: &[Alternative],
) -> Result<Option<List<Branch>>, NoMemory>
    ensures { IfOk result (λ found. found ≡ all_within (branch_of (known_by tables.now)) picks.now alternatives.now) }
{
    let mut branches = List::new(alloc);
    for alternative in alternatives {
        match branch_of(alloc, tables, picks, alternative)? {
            Some(branch) => branches.push(branch)?,
            None => return Ok(None),
        }
    }
    Ok(Some(branches))
}

#[tactic(auto, using(crate::proofs::FormLemmas::branch_some, crate::proofs::FormLemmas::branch_unasked, crate::proofs::FormLemmas::branch_unacted))]
#[cycle(statements)]
fn branch_of(
    alloc: Global,
    tables: &Tables,
    picks: &[Name],
    alternative: &Alternative,
) -> Result<Option<Branch>, NoMemory>
    ensures { IfOk result (λ found. found ≡ branch_of (known_by tables.now) alternative.now picks.now) }
{
    let Some(guard) = test_of(alloc, tables, picks, &alternative.guard)? else {
        return Ok(None);
    };
    match acts_of(alloc, tables, picks, alternative.body.as_slice())? {
        Some(body) => Ok(Some(Branch { guard, body })),
        None => Ok(None),
    }
}

// A pick costs a copy of the picks around it, as much as to look one name up among them.
#[cycle(statements)]
fn pick_of(
    alloc: Global,
    tables: &Tables,
    picks: &[Name],
    name: Name,
    kind: Name,
    body: &[Stmt],
) -> Result<Option<Act>, NoMemory>
    ensures { IfOk result (λ found. found ≡
        joined act.Pick (values_named (known_by tables.now).kinds kind)
        (all_within (act_of (known_by tables.now)) (picks.now ++ name ∷ []) body.now)) }
{
    let Some(values) = values_named(tables.kinds.plans(), kind)? else {
        return Ok(None);
    };
    let within = with_pick(alloc, picks, name)?;
    match acts_of(alloc, tables, within.as_slice(), body)? {
        Some(acts) => Ok(Some(Act::Pick(values, acts))),
        None => Ok(None),
    }
}

fn with_pick(alloc: Global, picks: &[Name], name: Name) -> Result<List<Name>, NoMemory>
    ensures { IfOk result (λ within. within ≡ picks.now ++ name ∷ []) }
{
    let mut within = List::new(alloc);
    for pick in picks {
        within.push(*pick)?;
    }
    within.push(name)?;
    Ok(within)
}
