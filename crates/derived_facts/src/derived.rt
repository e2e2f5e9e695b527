ghost use Rattle.std.specs.Prelude.{◌≡◌, ◌<◌, length, IfOk};
ghost use Rattle.net_plan.specs.Cells.{cells_of};
ghost use Rattle.derived_facts.specs.Derived.{AreDerivable, AreDerived};

use amdl_tree::NoMemory;
use cell_sets::{CellSet, Facts};
use fact_sets::findings_of;
use fix_engine::least_set;
use net_plan::Network;
use net_plan::laws::cells_are_facts;
use packet_domain::PacketDomain;
use packet_state::laws::follows_in_range;
use plan_text::Findings;
use std::alloc::Global;
use std::marker::Brand;
use std::sync::ledger::{Blank, Ledger};
use step_count::Steps;

/// What a report tells of a network: the findings of its derivable facts. It takes the time and the memory of
/// `derivable_facts`, and one walk over these.
pub fn derived_findings(alloc: Global, network: &Network) -> Result<Findings, NoMemory>
    ensures { IfOk result (AreDerived network.now) }
{
    let facts: Facts = derivable_facts(alloc, network)?;
    findings_of(alloc, network, &facts)
}

/// The set of the facts that end a derivation. It takes its memory first: that of the domain and of the work space.
pub fn derivable_facts<S: CellSet>(alloc: Global, network: &Network) -> Result<S, NoMemory>
    ensures cells { IfOk result (λ set. length (S.marks set) ≡ cells_of network.now) }
    ensures derivable { IfOk result (λ set. AreDerivable network.now (S.marks set)) }
{
    found::<S, Brand>(alloc, network, Blank::new(1))
}

// The same, where the firings are counted in a ledger of the caller's.
fn found<S: CellSet, L: Ledger>(
    alloc: Global,
    network: &Network,
    blank: Blank,
) -> Result<S, NoMemory>
    requires name { blank.name ≡ L.name }
    requires parts { blank.parts ≡ L.parts }
    requires some { 0 < blank.parts }
    ensures cells { IfOk result (λ set. length (S.marks set) ≡ cells_of network.now) }
    ensures derivable { IfOk result (λ set. AreDerivable network.now (S.marks set)) }
{
    cells_are_facts();
    follows_in_range();
    let mut steps: Steps<L> = Steps::new(blank);
    let mut domain = PacketDomain::new(alloc, network)?;
    least_set(alloc, &mut domain, &mut steps)
}
