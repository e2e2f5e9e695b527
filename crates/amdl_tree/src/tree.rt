ghost use Rattle.std.specs.Prelude.{◌≡◌, ◌↔◌, IsTrue};

use crate::class::Class;
use crate::guard::Atom;
use crate::list::List;
use crate::name::Name;

/// A network text as a tree: the network's name and its items in order.
#[derive(PartialEq, Eq, Debug, Drop)]
pub struct Tree {
    pub name: Name,
    pub items: List<Item>,
}

/// One item of a network text.
#[derive(PartialEq, Eq, Debug, Drop)]
pub enum Item {
    /// A type with its values in order, of which there is at least one.
    Kind {
        name: Name,
        values: List<Name>,
    },
    /// A field of packets, with the name of its type.
    Field {
        name: Name,
        kind: Name,
    },
    /// A class of boxes.
    Class(Class),
    /// A host.
    Host {
        name: Name,
    },
    /// A box of a class, with the tuples that its relations hold at the start. Without any, `with` is left out.
    Instance {
        name: Name,
        class: Name,
        first: List<Atom>,
    },
    /// A link between two ends.
    Link {
        one: End,
        two: End,
    },
    /// What a host may send: each packet that has these values in these fields. No equation at all stands for `true`.
    Sends {
        host: Name,
        pattern: List<Equal>,
    },
    /// What must not be delivered to a host.
    Forbid {
        host: Name,
        pattern: List<Equal>,
    },
}

/// One end of a link.
#[derive(Clone, Copy, PartialEq, Eq, Debug)]
pub enum End {
    /// A host has one end, named as the host is.
    Host(Name),
    /// A port of a box: the box, then the port.
    Port(Name, Name),
}

/// One equation of a pattern, or one change of an `output`: a field with its value.
#[derive(Clone, Copy, PartialEq, Eq, Debug)]
pub struct Equal {
    pub field: Name,
    pub value: Name,
}

/// Whether two patterns are the same as they are written, in time linear in the shorter one.
pub fn same_pattern(one: &[Equal], other: &[Equal]) -> bool
    ensures { IsTrue result ↔ (one.now ≡ other.now) }
{
    one == other
}
