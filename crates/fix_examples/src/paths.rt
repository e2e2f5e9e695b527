// What both domains offer: the paths of a graph.
ghost use Rattle.std.specs.Prelude.{◌≡◌, ℕ, ◌+◌, ◌*◌, ◌<◌, ◌%◌, ◌⊎◌, false};
ghost use Rattle.std.specs.List.{Contains};
ghost use Rattle.amdl_tree.specs.Derivation.{IsDerivable};
ghost use Rattle.fix_engine.specs.Progress.{found_in, Grows};
ghost use Rattle.fix_engine.specs.Rules.{GivenOrFollows, HasReacted};
ghost use Rattle.fix_examples.specs.Paths.{cells_of, cell_of, IsEdgePath, Follows, BeginsDone, IsFromFirst};
ghost use Rattle.fix_examples.specs.Paths.{IsFromSecond};

use crate::graph::Graph;
use cell_sets::CellSet;
use fix_engine::Work;

/// The number of cells, one for each two nodes.
pub fn cells_of(graph: &Graph) -> u32
    ensures { result ≡ cells_of graph.now }
{
    graph.nodes as u32 * graph.nodes as u32
}

// The cell of the paths between two nodes.
fn cell_of(graph: &Graph, from: u32, to: u32) -> u32
    requires from { from < graph.now.nodes }
    requires to { to < graph.now.nodes }
    ensures is { result ≡ cell_of graph.now from to }
    ensures below { result < cells_of graph.now }
{
    from * graph.nodes as u32 + to
}

/// Offers each edge as a path.
pub fn offer_edges<S: CellSet>(graph: &Graph, work: &mut Work<S>)
    requires { work.old.cells ≡ cells_of graph.now }
    ensures grows { Grows work.old work.new }
    ensures all { (cell : ℕ) → IsEdgePath graph.now cell → Contains (found_in work.new) cell }
    ensures only { (cell : ℕ) → Contains (found_in work.new) cell →
        Contains (found_in work.old) cell ⊎ IsEdgePath graph.now cell }
{
    for edge in graph.edges.as_slice() {
        if edge.from < graph.nodes && edge.to < graph.nodes {
            work.offer(cell_of(graph, edge.from as u32, edge.to as u32));
        }
    }
}

/// Offers the path joined with each handled path that begins where it ends.
pub fn offer_as_first<S: CellSet>(graph: &Graph, from: u32, middle: u32, work: &mut Work<S>)
    requires cells { work.old.cells ≡ cells_of graph.now }
    requires from { from < graph.now.nodes }
    requires middle { middle < graph.now.nodes }
    ensures grows { Grows work.old work.new }
    ensures all { (to : ℕ) → to < graph.now.nodes → Contains work.old.done (cell_of graph.now middle to) →
        Contains (found_in work.new) (cell_of graph.now from to) }
    ensures only { (cell : ℕ) → Contains (found_in work.new) cell →
        Contains (found_in work.old) cell ⊎ IsFromFirst graph.now from middle work.old.done cell }
{
    for to in 0..graph.nodes as u32 {
        if work.is_done(cell_of(graph, middle, to)) {
            work.offer(cell_of(graph, from, to));
        }
    }
}

/// Offers the path joined with each handled path that ends where it begins.
pub fn offer_as_second<S: CellSet>(graph: &Graph, middle: u32, to: u32, work: &mut Work<S>)
    requires cells { work.old.cells ≡ cells_of graph.now }
    requires middle { middle < graph.now.nodes }
    requires to { to < graph.now.nodes }
    ensures grows { Grows work.old work.new }
    ensures all { (from : ℕ) → from < graph.now.nodes → Contains work.old.done (cell_of graph.now from middle) →
        Contains (found_in work.new) (cell_of graph.now from to) }
    ensures only { (cell : ℕ) → Contains (found_in work.new) cell →
        Contains (found_in work.old) cell ⊎ IsFromSecond graph.now middle to work.old.done cell }
{
    for from in 0..graph.nodes as u32 {
        if work.is_done(cell_of(graph, from, middle)) {
            work.offer(cell_of(graph, from, to));
        }
    }
}

/// Offers each path that the given one makes with handled ones, as the first or as the second of both.
///
/// `goes_on` may be false only where no handled path begins where the given one ends.
pub fn react_to<S: CellSet>(graph: &Graph, cell: u32, goes_on: bool, work: &mut Work<S>)
    requires cells { work.old.cells ≡ cells_of graph.now }
    requires done { Contains work.old.done cell }
    requires ends { goes_on ≡ false → ¬ (BeginsDone graph.now work.old.done (cell % graph.now.nodes)) }
    ensures grows { Grows work.old work.new }
    ensures all { HasReacted (Follows graph.now) cell work.old.done (found_in work.new) }
    ensures only { (found : ℕ) → Contains (found_in work.new) found →
        IsDerivable (GivenOrFollows (Follows graph.now) (found_in work.old)) found }
{
    work.sound();
    let nodes = graph.nodes as u32;
    let (from, to) = (cell / nodes, cell % nodes);
    if goes_on {
        offer_as_first(graph, from, to, work);
    }
    offer_as_second(graph, from, to, work);
}
