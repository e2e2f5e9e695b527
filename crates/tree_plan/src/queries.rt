ghost use Rattle.std.specs.Prelude.{◌≡◌, ◌++◌, [], ◌∷◌, map, length, nat_lt, IfOk, OnOk};
ghost use Rattle.std.specs.List.{flat_map, list_any, range_with_len};
ghost use Rattle.std.specs.Cmp.Lexicographic.{pointwise};
ghost use Rattle.box_handlers.specs.Body.{all_of, body_of, branches_of, formula_of, formula_of_probe};
ghost use Rattle.box_handlers.specs.Queries.{filled, filled_term, asked_by, asked_by_branches, asked_by_formula};
ghost use Rattle.box_handlers.specs.Queries.{same_term, same_query, queries_of};
ghost use Rattle.box_handlers.specs.declared.act.Term.TheVariants as term;
ghost use Rattle.tree_plan.specs.Gathered.{put_once, has_room, with_query, with_queries, asked_by_handlers};

use amdl_tree::{List, NoMemory};
use box_handlers::{Act, Branch, Probe, Query, Term, Test, same_query_is_equal};
use std::alloc::Global;

/// The queries that the handlers of a class ask, each where it comes first, once the picks are expanded.
///
/// Each pick's block is gone through once for each of its values, so that the time is linear in the expanded handlers
/// but for one thing: each query that is asked is compared with all queries so far, however many these are. A value of
/// a pick costs a copy of the values of the picks around it.
#[tactic(auto, using(crate::proofs::QueryLemmas::all_asked))]
pub fn queries_of(alloc: Global, handlers: &[List<Act>]) -> Result<List<Query>, NoMemory>
    ensures { IfOk result (λ queries. queries ≡ queries_of handlers.now) }
{
    same_query_is_equal();
    asked_of(alloc, None, handlers)
}

/// Whether the handlers of a class ask more queries than this.
///
/// As `queries_of`, but that a query that is asked is compared with at most this many and one.
#[tactic(auto, using(crate::proofs::QueryLemmas::more_asked))]
pub fn more_queries(alloc: Global, handlers: &[List<Act>], limit: u32) -> Result<bool, NoMemory>
    ensures { IfOk result (λ found. found ≡ nat_lt limit (length (queries_of handlers.now))) }
{
    same_query_is_equal();
    let most = limit as usize + 1;
    let asked = asked_of(alloc, Some(most), handlers)?;
    Ok((limit as usize) < asked.as_slice().len())
}

// The queries that handlers ask, but no more than there may be.
#[tactic(auto, using(crate::proofs::QueryLemmas::handlers_more, crate::proofs::QueryLemmas::handlers_done))]
fn asked_of(
    alloc: Global,
    most: Option<usize>,
    handlers: &[List<Act>],
) -> Result<List<Query>, NoMemory>
    ensures { IfOk result (λ queries. queries ≡ with_queries most [] (asked_by_handlers handlers.now)) }
{
    let mut queries = List::new(alloc);
    for acts in handlers {
        acts_ask(alloc, most, &[], acts.as_slice(), &mut queries)?;
    }
    Ok(queries)
}

#[tactic(auto, using(crate::proofs::QueryLemmas::acts_more, crate::proofs::QueryLemmas::acts_done))]
#[cycle(acts)]
fn acts_ask(
    alloc: Global,
    most: Option<usize>,
    picked: &[u32],
    acts: &[Act],
    queries: &mut List<Query>,
) -> Result<(), NoMemory>
    ensures { OnOk result (queries.new ≡ with_queries most queries.old (asked_by (body_of acts.now) picked.now)) }
{
    for act in acts {
        act_asks(alloc, most, picked, act, queries)?;
    }
    Ok(())
}

#[tactic(auto, using(crate::proofs::QueryLemmas::insert_asks, crate::proofs::QueryLemmas::remove_asks, crate::proofs::QueryLemmas::output_asks, crate::proofs::QueryLemmas::abort_asks, crate::proofs::QueryLemmas::choose_asks, crate::proofs::QueryLemmas::pick_asks))]
#[cycle(acts)]
fn act_asks(
    alloc: Global,
    most: Option<usize>,
    picked: &[u32],
    act: &Act,
    queries: &mut List<Query>,
) -> Result<(), NoMemory>
    ensures { OnOk result (queries.new ≡ with_queries most queries.old (asked_by (body_of (act.now ∷ [])) picked.now)) }
{
    match act {
        Act::Insert(_) => Ok(()),
        Act::Remove(_) => Ok(()),
        Act::Output(_, _) => Ok(()),
        Act::Abort => Ok(()),
        Act::Choose(branches) => branches_ask(alloc, most, picked, branches.as_slice(), queries),
        Act::Pick(values, body) => pick_asks(
            alloc,
            most,
            picked,
            *values,
            body.as_slice(),
            queries,
        ),
    }
}

#[tactic(auto, using(crate::proofs::QueryLemmas::branches_more, crate::proofs::QueryLemmas::branches_done))]
#[cycle(acts)]
fn branches_ask(
    alloc: Global,
    most: Option<usize>,
    picked: &[u32],
    branches: &[Branch],
    queries: &mut List<Query>,
) -> Result<(), NoMemory>
    ensures { OnOk result (queries.new ≡
        with_queries most queries.old (asked_by_branches (branches_of branches.now) picked.now)) }
{
    for branch in branches {
        branch_asks(alloc, most, picked, branch, queries)?;
    }
    Ok(())
}

#[tactic(auto, using(crate::proofs::QueryLemmas::gathered_twice))]
#[cycle(acts)]
fn branch_asks(
    alloc: Global,
    most: Option<usize>,
    picked: &[u32],
    branch: &Branch,
    queries: &mut List<Query>,
) -> Result<(), NoMemory>
    ensures { OnOk result (queries.new ≡ with_queries most queries.old
        (asked_by_formula picked.now (formula_of branch.now.guard) ++ asked_by (body_of branch.now.body) picked.now)) }
{
    test_asks(alloc, most, picked, &branch.guard, queries)?;
    acts_ask(alloc, most, picked, branch.body.as_slice(), queries)
}

#[tactic(auto, using(crate::proofs::QueryLemmas::pick_more, crate::proofs::QueryLemmas::pick_done))]
#[cycle(acts)]
fn pick_asks(
    alloc: Global,
    most: Option<usize>,
    picked: &[u32],
    values: u32,
    body: &[Act],
    queries: &mut List<Query>,
) -> Result<(), NoMemory>
    ensures { OnOk result (queries.new ≡ with_queries most queries.old
        (flat_map (λ value. asked_by (body_of body.now) (picked.now ++ value ∷ [])) (range_with_len 0 values))) }
{
    for value in 0..values {
        let within = with_value(alloc, picked, value)?;
        acts_ask(alloc, most, within.as_slice(), body, queries)?;
    }
    Ok(())
}

fn with_value(alloc: Global, picked: &[u32], value: u32) -> Result<List<u32>, NoMemory>
    ensures { IfOk result (λ within. within ≡ picked.now ++ value ∷ []) }
{
    let mut within = List::new(alloc);
    for other in picked {
        within.push(*other)?;
    }
    within.push(value)?;
    Ok(within)
}

#[tactic(auto, using(crate::proofs::QueryLemmas::test_more, crate::proofs::QueryLemmas::test_done))]
#[cycle(tests)]
fn test_asks(
    alloc: Global,
    most: Option<usize>,
    picked: &[u32],
    test: &Test,
    queries: &mut List<Query>,
) -> Result<(), NoMemory>
    ensures { OnOk result (queries.new ≡ with_queries most queries.old (asked_by_formula picked.now (formula_of test.now))) }
{
    for probes in test.any.as_slice() {
        probes_ask(alloc, most, picked, probes.as_slice(), queries)?;
    }
    Ok(())
}

#[tactic(auto, using(crate::proofs::QueryLemmas::probes_more, crate::proofs::QueryLemmas::probes_done))]
#[cycle(tests)]
fn probes_ask(
    alloc: Global,
    most: Option<usize>,
    picked: &[u32],
    probes: &[Probe],
    queries: &mut List<Query>,
) -> Result<(), NoMemory>
    ensures { OnOk result (queries.new ≡
        with_queries most queries.old (asked_by_formula picked.now (all_of (map formula_of_probe probes.now)))) }
{
    for probe in probes {
        probe_asks(alloc, most, picked, probe, queries)?;
    }
    Ok(())
}

#[tactic(auto, using(crate::proofs::QueryLemmas::true_asks, crate::proofs::QueryLemmas::has_asks, crate::proofs::QueryLemmas::same_asks, crate::proofs::QueryLemmas::differ_asks, crate::proofs::QueryLemmas::not_asks, crate::proofs::QueryLemmas::group_asks))]
#[cycle(tests)]
fn probe_asks(
    alloc: Global,
    most: Option<usize>,
    picked: &[u32],
    probe: &Probe,
    queries: &mut List<Query>,
) -> Result<(), NoMemory>
    ensures { OnOk result (queries.new ≡
        with_queries most queries.old (asked_by_formula picked.now (formula_of_probe probe.now))) }
{
    match probe {
        Probe::True => Ok(()),
        Probe::Has(query) => query_asks(alloc, most, picked, query, queries),
        Probe::Same(_, _) => Ok(()),
        Probe::Differ(_, _) => Ok(()),
        Probe::Not(inner) => probe_asks(alloc, most, picked, inner.value(), queries),
        Probe::Group(test) => test_asks(alloc, most, picked, test, queries),
    }
}

// The query with the values of the open picks in place of the picks, behind those so far where there may be more.
fn query_asks(
    alloc: Global,
    most: Option<usize>,
    picked: &[u32],
    query: &Query,
    queries: &mut List<Query>,
) -> Result<(), NoMemory>
    ensures { OnOk result (queries.new ≡ with_query most queries.old (filled picked.now query.now)) }
{
    if !has_room(most, queries.as_slice()) {
        return Ok(());
    }
    let asked = filled_query(alloc, picked, query)?;
    put_query(queries, asked)
}

fn has_room(most: Option<usize>, queries: &[Query]) -> bool
    ensures { result ≡ has_room most queries.now }
{
    match most {
        Some(most) => queries.len() < most,
        None => true,
    }
}

fn put_query(queries: &mut List<Query>, query: Query) -> Result<(), NoMemory>
    ensures { OnOk result (queries.new ≡ put_once queries.old query) }
{
    if is_among(queries.as_slice(), &query) {
        return Ok(());
    }
    queries.push(query)
}

fn is_among(queries: &[Query], query: &Query) -> bool
    ensures { result ≡ list_any (λ other. same_query other query.now) queries.now }
{
    queries.iter().any(|other| is_same(other, query))
}

fn is_same(one: &Query, two: &Query) -> bool
    ensures { result ≡ same_query one.now two.now }
{
    one.relation == two.relation && same_terms(one.args.as_slice(), two.args.as_slice())
}

#[tactic(auto, using(crate::proofs::QueryLemmas::lengths_differ, crate::proofs::QueryLemmas::terms_more, crate::proofs::QueryLemmas::terms_apart, crate::proofs::QueryLemmas::terms_done))]
fn same_terms(ones: &[Term], twos: &[Term]) -> bool
    ensures { result ≡ pointwise same_term ones.now twos.now }
{
    if ones.len() != twos.len() {
        return false;
    }
    for (place, one) in ones.iter().enumerate() {
        if !same_term(*one, twos[place]) {
            return false;
        }
    }
    true
}

fn same_term(one: Term, two: Term) -> bool
    ensures { result ≡ same_term one two }
{
    match one {
        Term::Field(number) => is_field(number, two),
        Term::Value(number) => is_value(number, two),
        Term::Picked(number) => is_picked(number, two),
    }
}

fn is_field(number: u32, other: Term) -> bool
    ensures { result ≡ same_term (term.Field number) other }
{
    match other {
        Term::Field(second) => number == second,
        Term::Value(_) => false,
        Term::Picked(_) => false,
    }
}

fn is_value(number: u32, other: Term) -> bool
    ensures { result ≡ same_term (term.Value number) other }
{
    match other {
        Term::Field(_) => false,
        Term::Value(second) => number == second,
        Term::Picked(_) => false,
    }
}

fn is_picked(number: u32, other: Term) -> bool
    ensures { result ≡ same_term (term.Picked number) other }
{
    match other {
        Term::Field(_) => false,
        Term::Value(_) => false,
        Term::Picked(second) => number == second,
    }
}

fn filled_query(alloc: Global, picked: &[u32], query: &Query) -> Result<Query, NoMemory>
    ensures { IfOk result (λ asked. asked ≡ filled picked.now query.now) }
{
    let mut args = List::new(alloc);
    for term in query.args.as_slice() {
        args.push(filled_term(picked, *term))?;
    }
    Ok(Query {
        relation: query.relation,
        args,
    })
}

#[tactic(auto, using(crate::proofs::QueryLemmas::filled_open, crate::proofs::QueryLemmas::filled_past))]
fn filled_term(picked: &[u32], term: Term) -> Term
    ensures { result ≡ filled_term picked.now term }
{
    match term {
        Term::Picked(pick) => filled_pick(picked, pick),
        Term::Field(_) => term,
        Term::Value(_) => term,
    }
}

#[tactic(auto, using(crate::proofs::QueryLemmas::filled_open, crate::proofs::QueryLemmas::filled_past))]
fn filled_pick(picked: &[u32], pick: u32) -> Term
    ensures { result ≡ filled_term picked.now (term.Picked pick) }
{
    match picked.get(pick as usize) {
        Some(value) => Term::Value(*value),
        None => Term::Picked(pick),
    }
}
