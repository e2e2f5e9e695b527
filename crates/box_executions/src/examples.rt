//! Executions worked out by hand, each the contract of a function that does nothing.
ghost use Rattle.box_executions.specs.Example.{GateOpensOnce, InsertionIsSeen, EachValueIsPicked, AbortEndsAll};
ghost use Rattle.box_executions.specs.Example.{ChangesSwap};

use box_handlers::{bodies_are_read, formulas_are_read};
use header_set::laws::fields_determine_packet;

/// A gate lets one packet through and is shut then.
pub fn gate_opens_once()
    ensures { GateOpensOnce }
{
    bodies_are_read();
    formulas_are_read();
    fields_determine_packet();
}

/// A test sees what was inserted before it, and outputs stand in the order of the statements.
pub fn insertion_is_seen()
    ensures { InsertionIsSeen }
{
    bodies_are_read();
    formulas_are_read();
    fields_determine_packet();
}

/// A pick takes each value, and no other number.
pub fn each_value_is_picked()
    ensures { EachValueIsPicked }
{
    bodies_are_read();
    formulas_are_read();
    fields_determine_packet();
}

/// An abort ends everything, and nothing behind it uses a choice.
pub fn abort_ends_all()
    ensures { AbortEndsAll }
{
    bodies_are_read();
    formulas_are_read();
    fields_determine_packet();
}

/// Two changes swap two fields, since both read the packet as it was received.
pub fn changes_swap()
    ensures { ChangesSwap }
{
    bodies_are_read();
    formulas_are_read();
    fields_determine_packet();
}
