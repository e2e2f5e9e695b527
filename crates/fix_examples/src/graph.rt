// Graphs.
use amdl_tree::List;

/// An edge from a node to a node.
#[derive(Clone, Copy, Debug, PartialEq, Eq)]
pub struct Edge {
    pub from: u8,
    pub to: u8,
}

/// A graph whose nodes are the numbers below `nodes`. An edge with an end that is no node counts for nothing.
#[derive(Debug, Drop)]
pub struct Graph {
    pub nodes: u8,
    pub edges: List<Edge>,
}
