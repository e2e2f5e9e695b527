//! Whether guards are true. `test_holds` is one piece of machine code with what it calls for most probes, and is kept
//! out of the walk: so a probe costs no call, and the loops have registers of their own.
ghost use Rattle.std.specs.Prelude.{◌≡◌, not, map};
ghost use Rattle.box_handlers.specs.Body.{all_of, formula_of, formula_of_probe};
ghost use Rattle.handler_runs.specs.Reading.{holds_by};
ghost use Rattle.abstract_step.specs.Masks.{marked};
ghost use Rattle.abstract_step.specs.Walk.{IsPlace, FormulaFitsAt, scene_at};

use crate::masks::has;
use crate::place::{Place, entry_of, value_of};
use box_handlers::{Probe, Test};

/// Whether a guard is true where the contents answer with the mask. Linear in its probes, each query in the tuples of
/// the place.
#[tactic(auto, using(handler_runs::proofs::GuardLemmas::list_true, handler_runs::proofs::GuardLemmas::list_false, handler_runs::proofs::GuardLemmas::no_list_true))]
#[cycle(tests)]
#[inline(never)]
pub(crate) fn test_holds(place: &Place<'_>, picked: &[u32], mask: u16, test: &Test) -> bool
    requires place { IsPlace place.now }
    requires fits { FormulaFitsAt place.now picked.now (formula_of test.now) }
    ensures { result ≡ holds_by (scene_at place.now picked.now) (marked place.now.tuples.now mask) (formula_of test.now) }
{
    for probes in test.any.as_slice() {
        if all_hold(place, picked, mask, probes.as_slice()) {
            return true;
        }
    }
    false
}

#[tactic(auto, using(handler_runs::proofs::GuardLemmas::probe_true, handler_runs::proofs::GuardLemmas::probe_false, handler_runs::proofs::GuardLemmas::all_true))]
#[cycle(tests)]
#[inline]
fn all_hold(place: &Place<'_>, picked: &[u32], mask: u16, probes: &[Probe]) -> bool
    requires place { IsPlace place.now }
    requires fits { FormulaFitsAt place.now picked.now (all_of (map formula_of_probe probes.now)) }
    ensures { result ≡ holds_by (scene_at place.now picked.now) (marked place.now.tuples.now mask)
        (all_of (map formula_of_probe probes.now)) }
{
    for probe in probes {
        if !probe_holds(place, picked, mask, probe) {
            return false;
        }
    }
    true
}

#[tactic(auto, using(handler_runs::proofs::GuardLemmas::true_holds, handler_runs::proofs::GuardLemmas::has_holds, handler_runs::proofs::GuardLemmas::same_holds, handler_runs::proofs::GuardLemmas::differ_holds, handler_runs::proofs::GuardLemmas::not_holds, handler_runs::proofs::GuardLemmas::group_holds))]
#[cycle(tests)]
#[inline(always)]
fn probe_holds(place: &Place<'_>, picked: &[u32], mask: u16, probe: &Probe) -> bool
    requires place { IsPlace place.now }
    requires fits { FormulaFitsAt place.now picked.now (formula_of_probe probe.now) }
    ensures { result ≡ holds_by (scene_at place.now picked.now) (marked place.now.tuples.now mask)
        (formula_of_probe probe.now) }
{
    match probe {
        Probe::True => true,
        Probe::Has(query) => mask != 0 && has(place.tuples, mask, entry_of(place, picked, query)),
        Probe::Same(one, two) => value_of(place, picked, *one) == value_of(place, picked, *two),
        Probe::Differ(one, two) => value_of(place, picked, *one) != value_of(place, picked, *two),
        Probe::Not(inner) => denied(place, picked, mask, inner.value()),
        Probe::Group(test) => test_holds(place, picked, mask, test),
    }
}

#[cycle(tests)]
fn denied(place: &Place<'_>, picked: &[u32], mask: u16, probe: &Probe) -> bool
    requires place { IsPlace place.now }
    requires fits { FormulaFitsAt place.now picked.now (formula_of_probe probe.now) }
    ensures { result ≡ not (holds_by (scene_at place.now picked.now) (marked place.now.tuples.now mask)
        (formula_of_probe probe.now)) }
{
    !probe_holds(place, picked, mask, probe)
}
