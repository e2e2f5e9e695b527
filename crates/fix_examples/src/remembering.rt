// The paths of a graph, with a memory.
ghost use Rattle.std.specs.Prelude.{◌≡◌, ℕ, ◌/◌, ◌%◌, ◌<◌, true, false, length, slice_index_or, slice_set, IfOk};
ghost use Rattle.fix_examples.specs.Laws.{follows_bounded};
ghost use Rattle.fix_examples.specs.Paths.{cells_of, Follows, Memory, Remembers};

use crate::graph::Graph;
use crate::paths::{cells_of, offer_edges, react_to};
use amdl_tree::NoMemory;
use cell_sets::CellSet;
use fix_engine::{AbstractDomain, Work};
use std::alloc::Global;
use std::marker::Model;
use std::sync::ledger::Ledger;
use step_count::Steps;

/// A graph, and a mark for each node at which a handled path begins: a path that ends elsewhere isn't joined in vain.
#[derive(Debug, Drop)]
pub struct Remembering {
    graph: Graph,
    begins: Vec<bool>,
}

impl Model for Remembering {
    ghost use Rattle.std.specs.Prelude.{◌≡◌, length};
    ghost use Rattle.fix_examples.specs.Paths.{Memory};

    ghost Value = { Memory };

    ghost view = { λ it. record { graph = it.graph; begins = it.begins.items } };

    ghost invariant = { λ it. length it.begins.items ≡ it.graph.nodes };
}

impl Remembering {
    /// The graph, and nothing remembered.
    pub fn new(alloc: Global, graph: Graph) -> Result<Remembering, NoMemory>
        ensures { IfOk result (λ it. it.graph ≡ graph) }
    {
        match Vec::from_elem(alloc, false, graph.nodes as usize) {
            Ok(begins) => Ok(Remembering { graph, begins }),
            Err(_) => Err(NoMemory),
        }
    }
}

impl AbstractDomain for Remembering {
    type Subject = Graph;

    ghost subject = { λ it. it.graph };

    ghost count = { cells_of };

    ghost follows = { Follows };

    ghost tracks = { λ it progress. Remembers it.graph it.begins progress.done };

    fn cells(&self) -> u32 {
        cells_of(&self.graph)
    }

    fn starts<S: CellSet>(&mut self, work: &mut Work<S>) {
        forget(&mut self.begins);
        offer_edges(&self.graph, work);
    }

    fn react<S: CellSet, L: Ledger>(
        &mut self,
        cell: u32,
        work: &mut Work<S>,
        steps: &mut Steps<L>,
    ) {
        steps.tick();
        work.sound();
        let goes_on = remember(&self.graph, &mut self.begins, cell);
        react_to(&self.graph, cell, goes_on, work);
    }

    ghost bounded = { follows_bounded };
}

// Takes all marks away.
fn forget(begins: &mut [bool])
    ensures length { length begins.new ≡ length begins.old }
    ensures none { (node : ℕ) → slice_index_or begins.new node false ≡ false }
{
    for mark in begins.iter_mut() {
        *mark = false;
    }
}

// Marks the node at which the path begins, and answers whether a handled path begins where it ends.
fn remember(graph: &Graph, begins: &mut Vec<bool>, cell: u32) -> bool
    requires length { length begins.old.items ≡ graph.now.nodes }
    requires below { cell < cells_of graph.now }
    ensures marked { begins.new.items ≡ slice_set begins.old.items (cell / graph.now.nodes) true }
    ensures goes_on { result ≡ slice_index_or begins.new.items (cell % graph.now.nodes) false }
{
    let nodes = graph.nodes as u32;
    begins[(cell / nodes) as usize] = true;
    begins[(cell % nodes) as usize]
}
