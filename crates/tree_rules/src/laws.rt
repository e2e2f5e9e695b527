//! Laws over the definitions, each the contract of a function that does nothing.
ghost use Rattle.tree_rules.specs.ByHand.{RulesByHand};
ghost use Rattle.tree_rules.specs.Laws.{HasOneAnswer, RulesAreFound, UsesAreRead};

use box_handlers::{bodies_are_read, formulas_are_read};
use tree_plan::statements_are_numbered;

/// Each list of items is well formed, or is refused at exactly one place by exactly one rule.
pub fn one_answer()
    ensures { HasOneAnswer }
{}

/// How a search through the items in their order comes to the answer.
pub fn rules_are_found()
    ensures { RulesAreFound }
{}

/// What each statement, alternative, literal and guard uses.
pub fn uses_are_read()
    ensures { UsesAreRead }
{}

/// Each rule on items by hand.
pub fn rules_by_hand()
    ensures { RulesByHand }
{
    statements_are_numbered();
    bodies_are_read();
    formulas_are_read();
}
