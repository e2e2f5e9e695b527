use crate::list::List;
use crate::name::Name;
use crate::statement::Stmt;

/// A class of boxes.
#[derive(PartialEq, Eq, Debug, Drop)]
pub struct Class {
    pub name: Name,
    /// The ports in order, of which there is at least one.
    pub ports: List<Name>,
    pub relations: List<Relation>,
    pub handlers: List<Handler>,
}

/// A relation of a class, with the types of its arguments in order, of which there is at least one.
#[derive(PartialEq, Eq, Debug, Drop)]
pub struct Relation {
    pub name: Name,
    pub kinds: List<Name>,
}

/// What a box of the class does with a packet that comes in at a port.
#[derive(PartialEq, Eq, Debug, Drop)]
pub struct Handler {
    pub port: Name,
    pub body: List<Stmt>,
}
