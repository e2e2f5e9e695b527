//! Whether guards are true.
ghost use Rattle.std.specs.Prelude.{◌≡◌, not, map, IfOk};
ghost use Rattle.box_contents.specs.Contents.{holds_entry};
ghost use Rattle.box_handlers.specs.Body.{all_of, branches_of, formula_of, formula_of_probe};
ghost use Rattle.handler_runs.specs.Code.{scene_by};
ghost use Rattle.handler_runs.specs.Reading.{entry_by, holds_by, any_holds};

use crate::setting::Setting;
use crate::terms::{entry_of, value_of};
use amdl_tree::NoMemory;
use box_contents::Contents;
use box_handlers::{Branch, Probe, Query, Test};
use std::alloc::Global;

/// Whether the guard of one of the branches is true. Linear in the guards, each query with a search of the contents.
#[tactic(auto, using(crate::proofs::GuardLemmas::branch_true, crate::proofs::GuardLemmas::branch_false, crate::proofs::GuardLemmas::none_true))]
pub(crate) fn any_holds(
    alloc: Global,
    setting: &Setting<'_>,
    picked: &[u32],
    contents: &Contents,
    branches: &[Branch],
) -> Result<bool, NoMemory>
    ensures { IfOk result (λ found. found ≡
        any_holds (scene_by setting.now picked.now) contents.now (branches_of branches.now)) }
{
    for branch in branches {
        if test_holds(alloc, setting, picked, contents, &branch.guard)? {
            return Ok(true);
        }
    }
    Ok(false)
}

/// Whether a guard is true.
#[tactic(auto, using(crate::proofs::GuardLemmas::list_true, crate::proofs::GuardLemmas::list_false, crate::proofs::GuardLemmas::no_list_true))]
#[cycle(tests)]
pub(crate) fn test_holds(
    alloc: Global,
    setting: &Setting<'_>,
    picked: &[u32],
    contents: &Contents,
    test: &Test,
) -> Result<bool, NoMemory>
    ensures { IfOk result
        (λ found. found ≡ holds_by (scene_by setting.now picked.now) contents.now (formula_of test.now)) }
{
    for probes in test.any.as_slice() {
        if all_hold(alloc, setting, picked, contents, probes.as_slice())? {
            return Ok(true);
        }
    }
    Ok(false)
}

#[tactic(auto, using(crate::proofs::GuardLemmas::probe_true, crate::proofs::GuardLemmas::probe_false, crate::proofs::GuardLemmas::all_true))]
#[cycle(tests)]
fn all_hold(
    alloc: Global,
    setting: &Setting<'_>,
    picked: &[u32],
    contents: &Contents,
    probes: &[Probe],
) -> Result<bool, NoMemory>
    ensures { IfOk result (λ found. found ≡
        holds_by (scene_by setting.now picked.now) contents.now (all_of (map formula_of_probe probes.now))) }
{
    for probe in probes {
        if !probe_holds(alloc, setting, picked, contents, probe)? {
            return Ok(false);
        }
    }
    Ok(true)
}

#[tactic(auto, using(crate::proofs::GuardLemmas::true_holds, crate::proofs::GuardLemmas::has_holds, crate::proofs::GuardLemmas::same_holds, crate::proofs::GuardLemmas::differ_holds, crate::proofs::GuardLemmas::not_holds, crate::proofs::GuardLemmas::group_holds))]
#[cycle(tests)]
fn probe_holds(
    alloc: Global,
    setting: &Setting<'_>,
    picked: &[u32],
    contents: &Contents,
    probe: &Probe,
) -> Result<bool, NoMemory>
    ensures { IfOk result
        (λ found. found ≡ holds_by (scene_by setting.now picked.now) contents.now (formula_of_probe probe.now)) }
{
    match probe {
        Probe::True => Ok(true),
        Probe::Has(query) => query_holds(alloc, setting, picked, contents, query),
        Probe::Same(one, two) => Ok(
            value_of(setting, picked, *one) == value_of(setting, picked, *two),
        ),
        Probe::Differ(one, two) => Ok(
            value_of(setting, picked, *one) != value_of(setting, picked, *two),
        ),
        Probe::Not(inner) => denied(alloc, setting, picked, contents, inner.value()),
        Probe::Group(test) => test_holds(alloc, setting, picked, contents, test),
    }
}

#[cycle(tests)]
fn denied(
    alloc: Global,
    setting: &Setting<'_>,
    picked: &[u32],
    contents: &Contents,
    probe: &Probe,
) -> Result<bool, NoMemory>
    ensures { IfOk result (λ found. found ≡
        not (holds_by (scene_by setting.now picked.now) contents.now (formula_of_probe probe.now))) }
{
    let holds = probe_holds(alloc, setting, picked, contents, probe)?;
    Ok(!holds)
}

fn query_holds(
    alloc: Global,
    setting: &Setting<'_>,
    picked: &[u32],
    contents: &Contents,
    query: &Query,
) -> Result<bool, NoMemory>
    ensures { IfOk result
        (λ found. found ≡ holds_entry contents.now (entry_by (scene_by setting.now picked.now) query.now)) }
{
    let entry = entry_of(alloc, setting, picked, query)?;
    Ok(contents.holds(entry))
}
