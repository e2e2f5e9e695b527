//! Laws of steps and runs, each the contract of a function that does nothing. Those on covers and on safe runs are of
//! networks without boxes.
ghost use Rattle.net_runs.specs.Laws.{OrderedRunIsRun, StepIsDetermined, RunsCompose, FirstIsWorld, StepKeepsWorld};
ghost use Rattle.net_runs.specs.Laws.{RunKeepsWorld, SendIsEnabled, HostDeliveryIsEnabled, BoxDeliveryIsEnabled};
ghost use Rattle.net_runs.specs.Laws.{SomeBoxDeliveryIsEnabled, RevertIsEnabled, ClosedSetCovers, BadStepIsCovered};
ghost use Rattle.net_runs.specs.Laws.{BadFactIsRun, SafeNetworkRunsSafely};

use box_executions::{execution_is_determined, handler_executes, outcome_is_in_range};

/// An ordered run is a run, with the same events and states.
pub fn ordered_run_is_run()
    ensures { OrderedRunIsRun }
{}

/// From a state a step leads to at most one event and state.
pub fn step_is_determined()
    ensures { StepIsDetermined }
{
    execution_is_determined();
}

/// A run of two lists of steps is a run of the one and then of the other, both ways.
pub fn runs_compose()
    ensures { RunsCompose }
{}

/// The first state of a sound plan is well shaped.
pub fn first_is_world()
    ensures { FirstIsWorld }
{}

/// A step keeps the state well shaped.
pub fn step_keeps_world()
    ensures { StepKeepsWorld }
{
    outcome_is_in_range();
}

/// And so does a run.
pub fn run_keeps_world()
    ensures { RunKeepsWorld }
{
    outcome_is_in_range();
}

/// A host may send each of its packets, at any time.
pub fn send_is_enabled()
    ensures { SendIsEnabled }
{}

/// What waits towards a host can be delivered to it.
pub fn host_delivery_is_enabled()
    ensures { HostDeliveryIsEnabled }
{}

/// What waits towards a port can be delivered to it by each execution of its handler.
pub fn box_delivery_is_enabled()
    ensures { BoxDeliveryIsEnabled }
{
    outcome_is_in_range();
}

/// What waits towards a port can be delivered to it by some choices.
pub fn some_box_delivery_is_enabled()
    ensures { SomeBoxDeliveryIsEnabled }
{
    outcome_is_in_range();
    handler_executes();
}

/// A box may be reverted at any time.
pub fn revert_is_enabled()
    ensures { RevertIsEnabled }
{}

/// A closed set of facts covers the first state, and keeps covering from step to step.
pub fn closed_set_covers()
    ensures { ClosedSetCovers }
{}

/// A bad step from a state that a set covers has its bad fact in the set.
pub fn bad_step_is_covered()
    ensures { BadStepIsCovered }
{}

/// What a host sends and its partner forbids is a run of two steps, of which the second is bad.
pub fn bad_fact_is_run()
    ensures { BadFactIsRun }
{}

/// Where no derivable fact is bad, no run has a bad event.
pub fn safe_network_runs_safely()
    ensures { SafeNetworkRunsSafely }
{}
