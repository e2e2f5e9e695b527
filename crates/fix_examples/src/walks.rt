// Walks in a graph, which its paths cover.
ghost use Rattle.std.specs.Prelude.{◌≡◌, ℕ, ◌↔◌, true, length, IfOk, IsTrue};
ghost use Rattle.cell_sets.specs.Marks.{HasCell};
ghost use Rattle.fix_examples.specs.Laws.{walk_begins, walk_goes_on, walk_shows};
ghost use Rattle.fix_examples.specs.Paths.{cells_of};
ghost use Rattle.fix_examples.specs.Walks.{IsFirst, Leads, IsBack, Covers, IsLoop, HasNoRoundTrip};

use crate::graph::{Edge, Graph};
use amdl_tree::NoMemory;
use cell_sets::CellSet;
use fix_engine::{Abstraction, least_set, safe_runs};
use std::alloc::Global;
use std::sync::ledger::Ledger;
use step_count::Steps;

/// Where a walk began, and where it is.
#[derive(Clone, Copy, Debug, PartialEq, Eq)]
pub struct Walk {
    pub start: u8,
    pub place: u8,
}

/// A first walk is one edge long, a step goes over an edge more, and it is bad where it leads back to the start.
impl Abstraction for Graph {
    type World = Walk;

    type Step = Edge;

    ghost is_first = { IsFirst };

    ghost leads = { Leads };

    ghost is_bad = { λ _ _ _ new. IsBack new };

    ghost covers = { Covers };

    ghost is_bad_cell = { IsLoop };

    ghost covers_first = { walk_begins };

    ghost covers_next = { walk_goes_on };

    ghost shows_bad = { walk_shows };
}

/// True only where no walk of two edges or more comes back to where it began.
pub fn is_acyclic<S: CellSet, L: Ledger>(
    alloc: Global,
    graph: &mut Graph,
    steps: &mut Steps<L>,
) -> Result<bool, NoMemory>
    ensures { IfOk result (λ acyclic. IsTrue acyclic → HasNoRoundTrip graph.old) }
{
    let set: S = least_set(alloc, graph, steps)?;
    let acyclic = has_no_loop(graph, &set);
    if acyclic {
        safe_runs(graph, &set);
    }
    Ok(acyclic)
}

// Whether the set has no path from a node to itself.
fn has_no_loop<S: CellSet>(graph: &Graph, set: &S) -> bool
    requires { length (S.marks set.now) ≡ cells_of graph.now }
    ensures { IsTrue result → (cell : ℕ) → HasCell (S.marks set.now) cell → ¬ (IsLoop graph.now cell) }
{
    let nodes = graph.nodes as u32;
    for node in 0..nodes {
        if set.has(node * nodes + node) {
            return false;
        }
    }
    true
}
