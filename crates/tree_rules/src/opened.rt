use amdl_tree::Name;

/// A pick that is open around a part of a handler, with its type.
#[derive(Clone, Copy, PartialEq, Eq, Debug)]
pub struct Opened {
    pub name: Name,
    pub kind: Name,
}
