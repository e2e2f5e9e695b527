ghost use Rattle.std.specs.Prelude.{◌≡◌, IfOk};
ghost use Rattle.tree_plan.specs.Names.{all_some};
ghost use Rattle.tree_plan.specs.Net.{with_equation, pattern_of, patterns_of, host_of};
ghost use Rattle.tree_plan.specs.Tables.{kinds_back};
ghost use Rattle.tree_network.specs.Reads.{fields_back, patterns_back};

use crate::fields::equation_of;
use crate::items::{FieldItem, PatternItem};
use amdl_tree::{Equal, List, Name, NoMemory};
use header_set::{MOST_FIELDS, Pattern};
use net_plan::{HostPlan, KindPlan};
use std::alloc::Global;

/// The hosts, each with what it sends and what it must not get. None comes exactly where a name in a pattern stands for
/// nothing.
///
/// For each host linear in the patterns of all hosts, and for each equation in the fields, the types and the values of
/// the one type.
#[tactic(auto, using(tree_plan::proofs::StepLemmas::all_begun, tree_plan::proofs::StepLemmas::all_more, tree_plan::proofs::StepLemmas::all_lost, tree_plan::proofs::StepLemmas::all_came))]
pub(crate) fn hosts_of(
    alloc: Global,
    kinds: &[KindPlan],
    fields: &[FieldItem],
    sends: &[PatternItem<'_>],
    forbids: &[PatternItem<'_>],
    names: &[Name],
) -> Result<Option<List<HostPlan>>, NoMemory>
    ensures { IfOk result (λ found. found ≡ all_some
        (host_of (kinds_back kinds.now) (fields_back fields.now) (patterns_back sends.now) (patterns_back forbids.now))
        names.now) }
{
    let mut hosts = List::new(alloc);
    for name in names {
        match host_of(alloc, kinds, fields, sends, forbids, *name)? {
            Some(host) => hosts.push(host)?,
            None => return Ok(None),
        }
    }
    Ok(Some(hosts))
}

fn host_of(
    alloc: Global,
    kinds: &[KindPlan],
    fields: &[FieldItem],
    sends: &[PatternItem<'_>],
    forbids: &[PatternItem<'_>],
    name: Name,
) -> Result<Option<HostPlan>, NoMemory>
    ensures { IfOk result (λ found. found ≡
        host_of (kinds_back kinds.now) (fields_back fields.now) (patterns_back sends.now) (patterns_back forbids.now) name) }
{
    let Some(sent) = patterns_of(alloc, kinds, fields, sends, name)? else {
        return Ok(None);
    };
    match patterns_of(alloc, kinds, fields, forbids, name)? {
        Some(forbidden) => Ok(Some(HostPlan {
            name,
            sends: sent,
            forbids: forbidden,
        })),
        None => Ok(None),
    }
}

#[tactic(auto, using(crate::proofs::PassLemmas::kept_begun, crate::proofs::PassLemmas::kept_more, crate::proofs::PassLemmas::kept_skipped, crate::proofs::PassLemmas::kept_lost, crate::proofs::PassLemmas::kept_came))]
fn patterns_of(
    alloc: Global,
    kinds: &[KindPlan],
    fields: &[FieldItem],
    items: &[PatternItem<'_>],
    host: Name,
) -> Result<Option<List<Pattern>>, NoMemory>
    ensures { IfOk result (λ found. found ≡
        patterns_of (kinds_back kinds.now) (fields_back fields.now) (patterns_back items.now) host) }
{
    let mut patterns = List::new(alloc);
    for item in items {
        if item.host == host {
            match pattern_of(kinds, fields, item.pattern)? {
                Some(pattern) => patterns.push(pattern)?,
                None => return Ok(None),
            }
        }
    }
    Ok(Some(patterns))
}

#[tactic(auto, using(crate::proofs::PassLemmas::folded_more, crate::proofs::PassLemmas::folded_lost, crate::proofs::PassLemmas::folded_came))]
fn pattern_of(
    kinds: &[KindPlan],
    fields: &[FieldItem],
    equals: &[Equal],
) -> Result<Option<Pattern>, NoMemory>
    ensures { IfOk result (λ found. found ≡ pattern_of (kinds_back kinds.now) (fields_back fields.now) equals.now) }
{
    let mut pattern = Pattern::any();
    for equal in equals {
        match equation_of(kinds, fields, *equal)? {
            Some(equation) => put_equation(&mut pattern, equation),
            None => return Ok(None),
        }
    }
    Ok(Some(pattern))
}

// A field that a pattern has no place for leaves the pattern as it is.
#[tactic(auto, using(crate::proofs::FieldLemmas::unplaced))]
fn put_equation(pattern: &mut Pattern, equation: (usize, u32))
    ensures { pattern.new ≡ with_equation pattern.old equation }
{
    pattern.valid();
    let (field, value) = equation;
    if field < MOST_FIELDS {
        pattern.set(field, value);
    }
}
