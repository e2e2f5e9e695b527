ghost use Rattle.std.specs.Prelude.{◌≡◌, map};
ghost use Rattle.box_handlers.specs.Body.{all_of, formula_of, formula_of_probe};
ghost use Rattle.box_handlers.specs.Size.{literals_in};
ghost use Rattle.handler_sizes.specs.Capped.{capped};

use box_handlers::{Probe, Test};

/// The literals of a guard, at most the largest number of 64 bits. Linear in the guard.
#[tactic(auto, using(crate::proofs::GuardLemmas::test_more, crate::proofs::GuardLemmas::test_done))]
#[cycle(tests)]
pub(crate) fn test_literals(test: &Test) -> u64
    ensures { result ≡ capped (literals_in (formula_of test.now)) }
{
    let mut total = 0u64;
    for probes in test.any.as_slice() {
        total = total.saturating_add(probes_literals(probes.as_slice()));
    }
    total
}

#[tactic(auto, using(crate::proofs::GuardLemmas::probes_more, crate::proofs::GuardLemmas::probes_done))]
#[cycle(tests)]
fn probes_literals(probes: &[Probe]) -> u64
    ensures { result ≡ capped (literals_in (all_of (map formula_of_probe probes.now))) }
{
    let mut total = 0u64;
    for probe in probes {
        total = total.saturating_add(probe_literals(probe));
    }
    total
}

#[tactic(auto, using(crate::proofs::GuardLemmas::true_size, crate::proofs::GuardLemmas::has_size, crate::proofs::GuardLemmas::same_size, crate::proofs::GuardLemmas::differ_size, crate::proofs::GuardLemmas::not_size, crate::proofs::GuardLemmas::group_size))]
#[cycle(tests)]
fn probe_literals(probe: &Probe) -> u64
    ensures { result ≡ capped (literals_in (formula_of_probe probe.now)) }
{
    match probe {
        Probe::True => 1,
        Probe::Has(_) => 1,
        Probe::Same(_, _) => 1,
        Probe::Differ(_, _) => 1,
        Probe::Not(inner) => probe_literals(inner.value()).saturating_add(1),
        Probe::Group(inner) => test_literals(inner).saturating_add(1),
    }
}
