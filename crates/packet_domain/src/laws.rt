//! Laws of the abstract step and of transitions, each the contract of a function that does nothing.
ghost use Rattle.packet_domain.specs.Laws.{StepIsExact, TransitionsAreSteps};

use box_contents::{held_with, held_without};
use net_plan::laws::partner_is_unique;

/// What follows from facts of the network is exactly what some result of a fired handler says: its abort or what it
/// puts out from a delivery alone, and what its writes leave from a delivery with other answers of the box that agree.
pub fn step_is_exact()
    ensures { StepIsExact }
{
    partner_is_unique();
    held_with();
    held_without();
}

/// The transitions of the domain are exactly the steps of runs, over unordered and over ordered channels, and the bad ones
/// are those with a bad event. So what is said of all transitions is said of each step of each run.
pub fn transitions_are_steps()
    ensures { TransitionsAreSteps }
{}
