//! The paths of small graphs, by hand: two domains over two sets of cells, and walks.
ghost use Rattle.std.specs.Prelude.{◌≡◌, ◌<◌};

use amdl_tree::{List, NoMemory};
use cell_sets::{BitSet, ByteSet, CellSet};
use fix_engine::{AbstractDomain, least_set};
use fix_examples::{Edge, Graph, Remembering, is_acyclic};
use std::alloc::Global;
use std::marker::Brand;
use std::sync::ledger::{Blank, Ledger};
use step_count::Steps;

/// A ring of three nodes, an edge between the two others, which is there twice, and one that leads to no node.
const RING_AND_EDGE: [(u8, u8); 6] = [(0, 1), (1, 2), (2, 0), (3, 4), (3, 4), (4, 9)];

/// From each node of the ring to each, and over the edge, where the path from node a to node b is cell 5 * a + b.
const PATHS: [u32; 10] = [0, 1, 2, 5, 6, 7, 10, 11, 12, 19];

fn graph_of(alloc: Global, nodes: u8, edges: &[(u8, u8)]) -> Result<Graph, NoMemory> {
    let mut list = List::new(alloc);
    for (from, to) in edges {
        list.push(Edge {
            from: *from,
            to: *to,
        })?;
    }
    Ok(Graph { nodes, edges: list })
}

// The cells that the fixpoint of the domain finds, in rising order.
fn found_by<D: AbstractDomain, S: CellSet, L: Ledger>(
    alloc: Global,
    domain: &mut D,
    steps: &mut Steps<L>,
) -> Result<List<u32>, NoMemory> {
    let set: S = least_set(alloc, domain, steps)?;
    let mut cells = List::new(alloc);
    for cell in 0..set.cells() {
        if set.has(cell) {
            cells.push(cell)?;
        }
    }
    Ok(cells)
}

// Without a memory.
fn paths<S: CellSet, L: Ledger>(alloc: Global, blank: Blank) -> Result<List<u32>, NoMemory>
    requires name { blank.name ≡ L.name }
    requires parts { blank.parts ≡ L.parts }
    requires some { 0 < blank.parts }
{
    let mut steps: Steps<L> = Steps::new(blank);
    let mut graph = graph_of(alloc, 5, &RING_AND_EDGE)?;
    found_by::<Graph, S, L>(alloc, &mut graph, &mut steps)
}

// With a memory, and once more with what it remembers from the first time.
fn remembered_paths<S: CellSet, L: Ledger>(
    alloc: Global,
    blank: Blank,
) -> Result<(List<u32>, List<u32>), NoMemory>
    requires name { blank.name ≡ L.name }
    requires parts { blank.parts ≡ L.parts }
    requires some { 0 < blank.parts }
{
    let mut steps: Steps<L> = Steps::new(blank);
    let graph = graph_of(alloc, 5, &RING_AND_EDGE)?;
    let mut domain = Remembering::new(alloc, graph)?;
    let first = found_by::<Remembering, S, L>(alloc, &mut domain, &mut steps)?;
    let again = found_by::<Remembering, S, L>(alloc, &mut domain, &mut steps)?;
    Ok((first, again))
}

fn acyclic<S: CellSet, L: Ledger>(
    alloc: Global,
    blank: Blank,
    edges: &[(u8, u8)],
) -> Result<bool, NoMemory>
    requires name { blank.name ≡ L.name }
    requires parts { blank.parts ≡ L.parts }
    requires some { 0 < blank.parts }
{
    let mut steps: Steps<L> = Steps::new(blank);
    let mut graph = graph_of(alloc, 4, edges)?;
    is_acyclic::<S, L>(alloc, &mut graph, &mut steps)
}

fn are_paths(found: &List<u32>) -> bool {
    found.as_slice() == &PATHS[..]
}

// Whether these are the paths, found without a memory.
fn finds<S: CellSet, L: Ledger>(alloc: Global, blank: Blank) -> bool
    requires name { blank.name ≡ L.name }
    requires parts { blank.parts ≡ L.parts }
    requires some { 0 < blank.parts }
{
    match paths::<S, L>(alloc, blank) {
        Ok(found) => are_paths(&found),
        Err(_) => false,
    }
}

// Whether these are the paths, found with a memory, both times.
fn finds_again<S: CellSet, L: Ledger>(alloc: Global, blank: Blank) -> bool
    requires name { blank.name ≡ L.name }
    requires parts { blank.parts ≡ L.parts }
    requires some { 0 < blank.parts }
{
    match remembered_paths::<S, L>(alloc, blank) {
        Ok((first, again)) => are_paths(&first) && are_paths(&again),
        Err(_) => false,
    }
}

#[test]
fn paths_without_memory(rt: HostRuntime) {
    assert!(rt; finds::<ByteSet, Brand>(rt.alloc(), Blank::new(1)), "bytes");
    assert!(rt; finds::<BitSet, Brand>(rt.alloc(), Blank::new(1)), "bits");
}

#[test]
fn paths_with_memory(rt: HostRuntime) {
    assert!(rt;
        finds_again::<ByteSet, Brand>(rt.alloc(), Blank::new(1)),
        "bytes"
    );
    assert!(rt;
        finds_again::<BitSet, Brand>(rt.alloc(), Blank::new(1)),
        "bits"
    );
}

#[test]
fn ring_is_no_line(rt: HostRuntime) {
    let line = acyclic::<ByteSet, Brand>(rt.alloc(), Blank::new(1), &[(0, 1), (1, 2), (2, 3)]);
    assert!(rt; line == Ok(true), "line, bytes");
    let ring = acyclic::<BitSet, Brand>(rt.alloc(), Blank::new(1), &[(0, 1), (1, 2), (2, 0)]);
    assert!(rt; ring == Ok(false), "ring, bits");
}
