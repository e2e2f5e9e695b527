// The paths of a graph, without a memory.
ghost use Rattle.std.specs.Prelude.{⊤};
ghost use Rattle.fix_examples.specs.Paths.{cells_of, Follows};
ghost use Rattle.fix_examples.specs.declared.graph.Graph.{Graph};
ghost use Rattle.fix_examples.specs.Laws.{follows_bounded};

use crate::graph::Graph;
use crate::paths::{cells_of, offer_edges, react_to};
use cell_sets::CellSet;
use fix_engine::{AbstractDomain, Work};
use std::sync::ledger::Ledger;
use step_count::Steps;

/// Every edge is a path, and two paths of which one begins where the other ends are one together.
impl AbstractDomain for Graph {
    type Subject = Graph;

    ghost subject = { λ graph. graph };

    ghost count = { cells_of };

    ghost follows = { Follows };

    ghost tracks = { λ _ _. ⊤ };

    fn cells(&self) -> u32 {
        cells_of(self)
    }

    fn starts<S: CellSet>(&mut self, work: &mut Work<S>) {
        offer_edges(self, work);
    }

    fn react<S: CellSet, L: Ledger>(
        &mut self,
        cell: u32,
        work: &mut Work<S>,
        steps: &mut Steps<L>,
    ) {
        steps.tick();
        react_to(self, cell, true, work);
    }

    ghost bounded = { follows_bounded };
}
