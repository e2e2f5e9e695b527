use crate::items::BoxItem;
use amdl_tree::{Class, Name};

/// What the ends of links may name: the classes, and the hosts and boxes, each numbered by its place.
#[derive(Clone, Copy)]
pub(crate) struct Nodes<'a> {
    pub(crate) classes: &'a [&'a Class],
    pub(crate) hosts: &'a [Name],
    pub(crate) boxes: &'a [BoxItem<'a>],
}
