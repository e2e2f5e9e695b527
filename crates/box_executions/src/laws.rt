//! Laws of executions, each the contract of a function that does nothing.
ghost use Rattle.box_executions.specs.Laws.{GuardMeanings, StatementMeanings, ExecutionUsesFront};
ghost use Rattle.box_executions.specs.Laws.{ExecutionIsDetermined, OutcomeIsInRange, HandlerExecutes, BranchBegins};
ghost use Rattle.box_executions.specs.Laws.{ValueBegins};

use box_contents::{held_is_member, with_keeps_rising, without_keeps_rising};
use box_handlers::{bodies_are_read, formulas_are_read};
use header_set::laws::{fields_are_below_sizes, fields_are_free, fields_determine_packet};

/// What each probe of a guard means, and the lists of a test.
pub fn guard_meanings()
    ensures { GuardMeanings }
{
    formulas_are_read();
}

/// What each statement in front of a rest means, and the end of a block.
pub fn statement_meanings()
    ensures { StatementMeanings }
{
    bodies_are_read();
}

/// An execution uses a front of the choices, and doesn't depend on those behind it.
pub fn execution_uses_front()
    ensures { ExecutionUsesFront }
{}

/// The choices that an execution uses settle its outcome.
pub fn execution_is_determined()
    ensures { ExecutionIsDetermined }
{
    fields_determine_packet();
}

/// An execution leaves contents that fit, and what it puts out is in range.
pub fn outcome_is_in_range()
    ensures { OutcomeIsInRange }
{
    fields_are_below_sizes();
    with_keeps_rising();
    without_keeps_rising();
}

/// Statements that fit have an execution, whatever packet comes and whatever contents it meets.
pub fn handler_executes()
    ensures { HandlerExecutes }
{
    fields_are_below_sizes();
    fields_are_free();
    held_is_member();
    with_keeps_rising();
    without_keeps_rising();
}

/// Each branch whose guard is true begins an execution.
pub fn branch_begins()
    ensures { BranchBegins }
{
    bodies_are_read();
    fields_are_below_sizes();
    fields_are_free();
    held_is_member();
    with_keeps_rising();
    without_keeps_rising();
}

/// Each value of a pick begins an execution.
pub fn value_begins()
    ensures { ValueBegins }
{
    bodies_are_read();
    fields_are_below_sizes();
    fields_are_free();
    held_is_member();
    with_keeps_rising();
    without_keeps_rising();
}
