//! Laws over the definitions, each the contract of a function that does nothing.
ghost use Rattle.tree_plan.specs.Example.{NetOfOnce, NetOfWire};
ghost use Rattle.tree_plan.specs.Marked.{NetOfMarked};
ghost use Rattle.tree_plan.specs.Nested.{ClassOfNested};
ghost use Rattle.tree_plan.specs.Office.{NetOfOffice};
ghost use Rattle.tree_plan.specs.Laws.{StatementsAreNumbered};

use box_handlers::{bodies_are_read, formulas_are_read};

/// What each statement, alternative, literal and guard comes to.
pub fn statements_are_numbered()
    ensures { StatementsAreNumbered }
{}

/// The network of two hosts on a wire.
pub fn net_of_wire()
    ensures { NetOfWire }
{}

/// The network of a gate that opens once.
pub fn net_of_once()
    ensures { NetOfOnce }
{
    bodies_are_read();
    formulas_are_read();
}

/// The network of two boxes of two classes.
pub fn net_of_marked()
    ensures { NetOfMarked }
{
    bodies_are_read();
    formulas_are_read();
}

/// The network of an office, with a cache and an access list.
pub fn net_of_office()
    ensures { NetOfOffice }
{
    bodies_are_read();
    formulas_are_read();
}

/// The class of picks within picks.
pub fn class_of_nested()
    ensures { ClassOfNested }
{
    bodies_are_read();
    formulas_are_read();
}
