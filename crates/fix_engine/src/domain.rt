// What a domain of cells does in a fixpoint.
ghost use Rattle.std.specs.Prelude.{◌≡◌, ℕ, ◌≤◌, ◌<◌, ◌⊎◌, List, [], length};
ghost use Rattle.std.specs.List.{Contains};
ghost use Rattle.amdl_tree.specs.Derivation.{IsDerivable};
ghost use Rattle.fix_engine.specs.Closed.{AreBelow};
ghost use Rattle.fix_engine.specs.Progress.{Progress, found_in, nothing_found, Takes, Grows};
ghost use Rattle.fix_engine.specs.Rules.{GivenOrFollows, HasReacted};

use crate::work::Work;
use cell_sets::CellSet;
use std::sync::ledger::Ledger;
use step_count::Steps;

/// Cells, and rules by which one follows from at most three others.
///
/// `subject` is what a domain is about. The number of cells and the rules depend on it alone. Beside it a domain may
/// remember what it has handled: `tracks` says that this memory fits the progress of the work. A domain that remembers
/// nothing says that it always fits.
pub trait AbstractDomain {
    type Subject;

    ghost subject: { Self → Self.Subject };

    ghost count: { Self.Subject → ℕ };

    ghost follows: { Self.Subject → List ℕ → ℕ → Type 0 };

    ghost tracks: { Self → Progress → Type 0 };

    /// The number of cells.
    fn cells(&self) -> u32
        ensures { result ≡ count (subject self.now) };

    /// Offers exactly the cells that follow from no premise. It takes no memory.
    ///
    /// From then on the domain tracks the work, whatever it remembered before, where nothing was found yet.
    fn starts<S: CellSet>(&mut self, work: &mut Work<S>)
        requires { work.old.cells ≡ count (subject self.old) }
        ensures same { subject self.new ≡ subject self.old }
        ensures grows { Grows work.old work.new }
        ensures all { (cell : ℕ) → follows (subject self.old) [] cell → Contains (found_in work.new) cell }
        ensures only { (cell : ℕ) → Contains (found_in work.new) cell →
            Contains (found_in work.old) cell ⊎ follows (subject self.old) [] cell }
        ensures tracks { work.old ≡ nothing_found (count (subject self.old)) → tracks self.new work.new };

    /// Offers each cell that follows from cells that are done, the given one among them. It takes no memory.
    ///
    /// The given cell is the one that was taken last, and the domain tracks the work as it was before that. Each
    /// cell that is offered ends a derivation from cells that were found before the call.
    fn react<S: CellSet, L: Ledger>(&mut self, cell: u32, work: &mut Work<S>, steps: &mut Steps<L>)
        requires cells { work.old.cells ≡ count (subject self.old) }
        requires tracks { (before : Progress) × Takes before cell work.old × tracks self.old before }
        ensures same { subject self.new ≡ subject self.old }
        ensures grows { Grows work.old work.new }
        ensures all { HasReacted (follows (subject self.old)) cell work.old.done (found_in work.new) }
        ensures only { (found : ℕ) → Contains (found_in work.new) found →
            IsDerivable (GivenOrFollows (follows (subject self.old)) (found_in work.old)) found }
        ensures tracks { tracks self.new work.new };

    // A rule has at most three premises, and these and what follows are cells of the domain.
    ghost bounded: { (about : Self.Subject) (premises : List ℕ) (cell : ℕ) → follows about premises cell →
        (length premises ≤ 3) × AreBelow (count about) premises × (cell < count about) };
}
