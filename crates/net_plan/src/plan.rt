use amdl_tree::{List, Name};
use box_contents::Entry;
use box_handlers::{Act, Query};
use header_set::Pattern;

/// A network as numbers: types, fields, classes, hosts, boxes and links, each numbered by its place in its list.
///
/// The ends are those of the hosts in their order and then the ports of box 0, of box 1 and so on, each numbered by its
/// place among them.
#[derive(Debug, Drop)]
pub struct Plan {
    pub name: Name,
    pub kinds: List<KindPlan>,
    pub fields: List<FieldPlan>,
    pub classes: List<ClassPlan>,
    pub hosts: List<HostPlan>,
    pub boxes: List<BoxPlan>,
    pub links: List<LinkPlan>,
}

/// A type with its values, each numbered by its place.
#[derive(Debug, Drop)]
pub struct KindPlan {
    pub name: Name,
    pub values: List<Name>,
}

/// A field with the number of its type.
#[derive(Clone, Copy, PartialEq, Eq, Debug)]
pub struct FieldPlan {
    pub name: Name,
    pub kind: u32,
}

/// A class of boxes: its ports and relations, each numbered by its place, one handler for each port, and the queries
/// that the handlers ask.
#[derive(Debug, Drop)]
pub struct ClassPlan {
    pub ports: List<Name>,
    pub relations: List<RelationPlan>,
    pub handlers: List<List<Act>>,
    pub queries: List<Query>,
}

/// A relation with the numbers of its argument types.
#[derive(Debug, Drop)]
pub struct RelationPlan {
    pub name: Name,
    pub kinds: List<u32>,
}

/// A host: what it may send, and what must not be delivered to it.
#[derive(Debug, Drop)]
pub struct HostPlan {
    pub name: Name,
    pub sends: List<Pattern>,
    pub forbids: List<Pattern>,
}

/// A box with the number of its class, and its first contents in rising order.
#[derive(Debug, Drop)]
pub struct BoxPlan {
    pub name: Name,
    pub class: u32,
    pub first: List<Entry>,
}

/// A link between two ends.
#[derive(Clone, Copy, PartialEq, Eq, Debug)]
pub struct LinkPlan {
    pub one: u32,
    pub two: u32,
}
