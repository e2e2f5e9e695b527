//! Laws of answers, of what follows, and of runs that a closed set of facts covers, each the contract of a function
//! that does nothing.
ghost use Rattle.packet_state.specs.Laws.{AnswersAreBits, FollowsInRange, LeastIsUnique, LeastIsClosed, LeastIsWithin};
ghost use Rattle.packet_state.specs.Laws.{PairCountIsUnique, DerivableIsSent, ClosedSetCovers, BadStepIsCovered};
ghost use Rattle.packet_state.specs.Laws.{ClosedSetRunsSafely, SafeNetworkRunsSafely};

use box_contents::held_is_member;
use net_runs::laws::{first_is_world, step_keeps_world};

/// A bit of the answers is 1 exactly where the contents have the tuple of its query, and there are no other bits.
pub fn answers_are_bits()
    ensures { AnswersAreBits }
{
    held_is_member();
}

/// What follows is in range, whatever it follows from.
pub fn follows_in_range()
    ensures { FollowsInRange }
{}

/// A network has one list of derivable facts.
pub fn least_is_unique()
    ensures { LeastIsUnique }
{}

/// The derivable facts are a closed set.
pub fn least_is_closed()
    ensures { LeastIsClosed }
{}

/// And each closed set has them all.
pub fn least_is_within()
    ensures { LeastIsWithin }
{}

/// A set of facts has one number of pairs.
pub fn pair_count_is_unique()
    ensures { PairCountIsUnique }
{}

/// Where there is no box, exactly what the hosts send is derivable.
pub fn derivable_is_sent()
    ensures { DerivableIsSent }
{}

/// A closed set of facts covers the first state, and keeps covering from step to step.
pub fn closed_set_covers()
    ensures { ClosedSetCovers }
{}

/// A bad step from a state that a closed set covers has its bad fact in the set.
pub fn bad_step_is_covered()
    ensures { BadStepIsCovered }
{}

/// Where no fact of a closed set is bad, no run has a bad event, whatever its length, over channels of either mode.
pub fn closed_set_runs_safely()
    ensures { ClosedSetRunsSafely }
{
    first_is_world();
    step_keeps_world();
}

/// Where no derivable fact is bad, no run has a bad event.
pub fn safe_network_runs_safely()
    ensures { SafeNetworkRunsSafely }
{
    first_is_world();
    step_keeps_world();
}
