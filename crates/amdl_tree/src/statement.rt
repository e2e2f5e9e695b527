use crate::guard::{Atom, Guard};
use crate::list::List;
use crate::name::Name;
use crate::tree::Equal;

/// One statement of a block.
#[cycle(statements)]
#[derive(PartialEq, Eq, Debug, Drop)]
pub enum Stmt {
    /// Puts a tuple into its relation.
    Insert(Atom),
    /// Takes a tuple out of its relation.
    Remove(Atom),
    /// Ends the handling in an abort.
    Abort,
    /// Puts the packet out at a port, with these fields changed. Without changes the brackets are left out.
    Output {
        port: Name,
        changes: List<Equal>,
    },
    /// An `if`, with its alternatives in order, of which there is at least one.
    Choose(List<Alternative>),
    /// A block for some value of a type, which the block knows by this name.
    Pick {
        name: Name,
        kind: Name,
        body: List<Stmt>,
    },
}

/// One alternative of an `if`: the block may be taken where the guard holds.
#[cycle(statements)]
#[derive(PartialEq, Eq, Debug, Drop)]
pub struct Alternative {
    pub guard: Guard,
    pub body: List<Stmt>,
}
