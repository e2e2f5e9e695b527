//! Runs of two hosts on a wire, of a box that is linked to itself and of one that forgets what it blocks, the ends and
//! cells of a network with boxes, and the facts that cover all runs of a firewall, worked out by hand. Each is the
//! contract of a function that does nothing.
#![tactic(auto)]

ghost use Rattle.net_examples.specs.Wire.{TwiceDelivered, NoThirdDelivery, BadRunByHand, NoOrderedBadRun};
ghost use Rattle.net_examples.specs.Wire.{NothingElseEnabled, SafeWireRunsSafely};
ghost use Rattle.net_examples.specs.Loop.{LoopStepsByHand, AbortedRunByHand, LoopIsUnsafe, AbortedFactIsDerivable};
ghost use Rattle.net_examples.specs.Forgetful.{ForgetfulIsSound, RevertedRunByHand, RevertedFactIsDerivable};
ghost use Rattle.net_examples.specs.Forgetful.{ForgetfulIsUnsafe, SafeWithoutReverts};
ghost use Rattle.net_examples.specs.Overtaken.{OvertakenByHand, SafeInOrder};
ghost use Rattle.net_examples.specs.Boxes.{BoxesAreSound, EndsByHand, PartnersByHand, NamesByHand, CellsByHand};
ghost use Rattle.net_examples.specs.Boxes.{BadByHand};
ghost use Rattle.net_examples.specs.Firewall.{FirewallIsSafe, FirewallFactsAreLeast};

use box_contents::{held_is_member, held_with};
use box_executions::{guard_meanings, statement_meanings};
use box_handlers::{bodies_are_read, formulas_are_read};
use net_plan::laws::derivable_is_sent;
use net_runs::laws::safe_network_runs_safely;
use packet_state::laws::closed_set_runs_safely;

/// Two sends of one packet and two deliveries are a run in either mode.
pub fn twice_delivered()
    ensures { TwiceDelivered }
{}

/// After them a third delivery isn't enabled.
pub fn no_third_delivery()
    ensures { NoThirdDelivery }
{}

/// Two packets that are sent may be delivered in the other order, over unordered channels, with one bad event.
pub fn bad_run_by_hand()
    ensures { BadRunByHand }
{}

/// Over ordered channels these steps are no run.
pub fn no_ordered_bad_run()
    ensures { NoOrderedBadRun }
{}

/// A delivery at the end of the sender isn't enabled, nor is a send that no pattern matches.
pub fn nothing_else_enabled()
    ensures { NothingElseEnabled }
{}

/// Where the second host forbids what the first never sends, no run has a bad event.
pub fn safe_wire_runs_safely()
    ensures { SafeWireRunsSafely }
{
    derivable_is_sent();
    safe_network_runs_safely();
}

/// Steps at a box that is linked to itself: a gate, a way round, an abort and a revert.
pub fn loop_steps_by_hand()
    ensures { LoopStepsByHand }
{
    guard_meanings();
    statement_meanings();
}

/// A packet goes round and is aborted, which is bad.
pub fn aborted_run_by_hand()
    ensures { AbortedRunByHand }
{
    guard_meanings();
    statement_meanings();
}

/// So it isn't the case that no run of that network is bad.
pub fn loop_is_unsafe()
    ensures { LoopIsUnsafe }
{
    guard_meanings();
    statement_meanings();
}

/// The fact of that abort is derivable, so that the network is unsafe by its facts too.
pub fn aborted_fact_is_derivable()
    ensures { AbortedFactIsDerivable }
{
    guard_meanings();
    statement_meanings();
}

/// The plan of a network whose box forgets its block list is sound.
pub fn forgetful_is_sound()
    ensures { ForgetfulIsSound }
{
    bodies_are_read();
    formulas_are_read();
}

/// A box forgets its block list by a revert, and lets a packet through that the host behind it forbids: this is a run
/// in either mode.
pub fn reverted_run_by_hand()
    ensures { RevertedRunByHand }
{
    bodies_are_read();
    formulas_are_read();
}

/// So it isn't the case that no run of that network is bad.
pub fn forgetful_is_unsafe()
    ensures { ForgetfulIsUnsafe }
{
    bodies_are_read();
    formulas_are_read();
}

/// The fact of that delivery is derivable.
pub fn reverted_fact_is_derivable()
    ensures { RevertedFactIsDerivable }
{
    bodies_are_read();
    formulas_are_read();
}

/// Without a revert no run of that network is bad, over either kind of channels.
pub fn safe_without_reverts()
    ensures { SafeWithoutReverts }
{
    bodies_are_read();
    formulas_are_read();
}

/// Over unordered channels a packet overtakes another and gets to a host that forbids it.
pub fn overtaken_by_hand()
    ensures { OvertakenByHand }
{
    bodies_are_read();
    formulas_are_read();
}

/// Over ordered channels no run of that network is bad.
pub fn safe_in_order()
    ensures { SafeInOrder }
{
    bodies_are_read();
    formulas_are_read();
}

/// The plan of a network with two boxes is sound.
pub fn boxes_are_sound()
    ensures { BoxesAreSound }
{
    bodies_are_read();
    formulas_are_read();
}

/// The ends of a network with two boxes.
pub fn ends_by_hand()
    ensures { EndsByHand }
{}

/// Their partners, of which two ends have none.
pub fn partners_by_hand()
    ensures { PartnersByHand }
{}

/// Ends by their names.
pub fn names_by_hand()
    ensures { NamesByHand }
{}

/// All facts in range, in file order, and their cells.
pub fn cells_by_hand()
    ensures { CellsByHand }
{}

/// Facts that are bad, and facts that are not.
pub fn bad_by_hand()
    ensures { BadByHand }
{}

/// A firewall, whose facts by hand are a closed set without a bad one, so that no run is bad.
pub fn firewall_is_safe()
    ensures { FirewallIsSafe }
{
    bodies_are_read();
    formulas_are_read();
    held_is_member();
    held_with();
    closed_set_runs_safely();
}

/// All of these facts are derivable, so that they are the least closed set.
pub fn firewall_facts_are_least()
    ensures { FirewallFactsAreLeast }
{
    bodies_are_read();
    formulas_are_read();
    held_is_member();
    held_with();
}
