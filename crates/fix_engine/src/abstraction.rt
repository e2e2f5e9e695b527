// Worlds, of which a closed set of cells covers all that can be reached.
ghost use Rattle.std.specs.Prelude.{◌≡◌, ℕ, List, length};
ghost use Rattle.std.specs.List.{Contains};
ghost use Rattle.cell_sets.specs.Marks.{HasCell, members_of};
ghost use Rattle.fix_engine.specs.Closed.{AreBelow, IsClosed};
ghost use Rattle.fix_engine.specs.Runs.{Reaches};

use crate::domain::AbstractDomain;
use cell_sets::CellSet;

/// Cells that say something of worlds, between which steps lead.
///
/// All its predicates depend on the subject of the domain alone. A set of cells stands as a list in them.
pub trait Abstraction: AbstractDomain {
    type World;

    type Step;

    // the world is one to begin with
    ghost is_first: { Self.Subject → Self.World → Type 0 };

    // the step leads from the one world to the other
    ghost leads: { Self.Subject → Self.World → Self.Step → Self.World → Type 0 };

    // the step from the one world to the other is bad
    ghost is_bad: { Self.Subject → Self.World → Self.Step → Self.World → Type 0 };

    // the cells say all that there is to say of the world
    ghost covers: { Self.Subject → List ℕ → Self.World → Type 0 };

    // the cell says that something bad may come
    ghost is_bad_cell: { Self.Subject → ℕ → Type 0 };

    // A closed set covers the first worlds.
    ghost covers_first: { (about : Self.Subject) (cells : List ℕ) (world : Self.World) →
        AreBelow (Self.count about) cells → IsClosed (Self.follows about) cells → is_first about world →
        covers about cells world };

    // From a world that a closed set covers, each step leads to a world that it covers too.
    ghost covers_next: { (about : Self.Subject) (cells : List ℕ) (old new : Self.World) (step : Self.Step) →
        AreBelow (Self.count about) cells → IsClosed (Self.follows about) cells → covers about cells old →
        leads about old step new → covers about cells new };

    // A bad step from a world that a closed set covers has a bad cell in the set.
    ghost shows_bad: { (about : Self.Subject) (cells : List ℕ) (old new : Self.World) (step : Self.Step) →
        AreBelow (Self.count about) cells → IsClosed (Self.follows about) cells → covers about cells old →
        leads about old step new → is_bad about old step new →
        (cell : ℕ) × Contains cells cell × is_bad_cell about cell };
}

/// Says what a closed set of cells without a bad one means: it covers each world that steps reach from a first one,
/// and no step from such a world is bad. It does nothing.
pub fn safe_runs<A: Abstraction, S: CellSet>(abstraction: &A, set: &S)
    requires cells { length (S.marks set.now) ≡ A.count (A.subject abstraction.now) }
    requires closed { IsClosed (A.follows (A.subject abstraction.now)) (members_of (S.marks set.now)) }
    requires clean { (cell : ℕ) → HasCell (S.marks set.now) cell → ¬ (A.is_bad_cell (A.subject abstraction.now) cell) }
    ensures covered { (first last : A.World) (steps : List A.Step) → A.is_first (A.subject abstraction.now) first →
        Reaches (A.leads (A.subject abstraction.now)) first steps last →
        A.covers (A.subject abstraction.now) (members_of (S.marks set.now)) last }
    ensures safe { (first last : A.World) (steps : List A.Step) → A.is_first (A.subject abstraction.now) first →
        Reaches (A.leads (A.subject abstraction.now)) first steps last →
        (step : A.Step) (next : A.World) → A.leads (A.subject abstraction.now) last step next →
        ¬ (A.is_bad (A.subject abstraction.now) last step next) }
{}
