// The cells that can be derived.
ghost use Rattle.std.specs.Prelude.{◌≡◌, ℕ, ◌↔◌, [], length, IfOk};
ghost use Rattle.std.specs.List.{Contains};
ghost use Rattle.cell_sets.specs.Marks.{HasCell, members_of};
ghost use Rattle.amdl_tree.specs.Derivation.{IsDerivable};
ghost use Rattle.fix_engine.specs.Closed.{IsClosed};
ghost use Rattle.fix_engine.specs.Progress.{found_in, nothing_found};

use crate::domain::AbstractDomain;
use crate::work::Work;
use amdl_tree::NoMemory;
use cell_sets::CellSet;
use std::alloc::Global;
use std::sync::ledger::Ledger;
use step_count::Steps;

/// Finds all cells that can be derived, and no others, in a work space in which nothing is found yet.
///
/// Nothing waits afterwards. It takes no memory. Which steps are counted is the domain's affair, and nothing is
/// said of it.
pub fn least<D: AbstractDomain, S: CellSet, L: Ledger>(
    domain: &mut D,
    work: &mut Work<S>,
    steps: &mut Steps<L>,
)
    requires { work.old ≡ nothing_found (D.count (D.subject domain.old)) }
    ensures same { D.subject domain.new ≡ D.subject domain.old }
    ensures cells { work.new.cells ≡ D.count (D.subject domain.old) }
    ensures nothing_waits { work.new.todo ≡ [] }
    ensures closed { IsClosed (D.follows (D.subject domain.old)) (found_in work.new) }
    ensures exact { (cell : ℕ) →
        Contains (found_in work.new) cell ↔ IsDerivable (D.follows (D.subject domain.old)) cell }
{
    domain.starts(work);
    while let Some(cell) = work.take() {
        domain.react(cell, work, steps);
    }
}

/// The set of all cells that can be derived.
///
/// It takes its memory before the work begins. The set is as `safe_runs` asks for it, where no bad cell is derived.
pub fn least_set<D: AbstractDomain, S: CellSet, L: Ledger>(
    alloc: Global,
    domain: &mut D,
    steps: &mut Steps<L>,
) -> Result<S, NoMemory>
    ensures same { D.subject domain.new ≡ D.subject domain.old }
    ensures cells { IfOk result (λ set. length (S.marks set) ≡ D.count (D.subject domain.old)) }
    ensures closed { IfOk result (λ set.
        IsClosed (D.follows (D.subject domain.old)) (members_of (S.marks set))) }
    ensures exact { IfOk result (λ set. (cell : ℕ) →
        HasCell (S.marks set) cell ↔ IsDerivable (D.follows (D.subject domain.old)) cell) }
{
    let mut work: Work<S> = Work::new(alloc, domain.cells())?;
    least(domain, &mut work, steps);
    Ok(work.into_set())
}
