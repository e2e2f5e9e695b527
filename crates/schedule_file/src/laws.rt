//! Laws over the definitions, each the contract of a function that does nothing.
ghost use Rattle.schedule_file.specs.Laws.{OneReading, OneTelling, StatusIsRight, RefusalTexts};

use net_runs::laws::step_is_determined;
use schedule::laws::bad_is_told;

/// No text is read in two ways as a schedule of a sound network: it spells one list of steps, or has one fault, and
/// never both.
pub fn one_reading()
    ensures { OneReading }
{
    amdl_lexer::one_answer();
    schedule::laws::one_reading();
}

/// Nor is there more than one status and text that is told of it.
pub fn one_telling()
    ensures { OneTelling }
{
    one_reading();
    schedule::laws::one_replay();
    step_is_determined();
}

/// The status of a run tells whether one of its events is bad.
pub fn status_is_right()
    ensures { StatusIsRight }
{
    bad_is_told();
}

/// A refusal of each form, as its text.
pub fn refusal_texts()
    ensures { RefusalTexts }
{}
