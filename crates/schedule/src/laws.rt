//! Laws over the definitions, each the contract of a function that does nothing.
ghost use Rattle.schedule.specs.Laws.{OneReading, OneReplay, BadIsTold, TextIsNotSafe, WireText};

use net_runs::laws::step_is_determined;
use schedule_text::laws::one_answer;

/// Tokens are read as one list of steps of a network or refused for one cause, and never both.
pub fn one_reading()
    ensures { OneReading }
{
    one_answer();
}

/// Steps are a run with one list of events or one of them is refused, and never both.
pub fn one_replay()
    ensures { OneReplay }
{
    step_is_determined();
}

/// An event is counted as bad, and a delivery is told as forbidden, exactly where it is bad.
pub fn bad_is_told()
    ensures { BadIsTold }
{}

/// What is told of steps never prints SAFE, however early it is cut off, and nor does it with what stands behind it.
pub fn text_is_not_safe()
    ensures { TextIsNotSafe }
{}

/// What is told of four steps of two hosts on a wire, as its text.
pub fn text_of_wire()
    ensures { WireText }
{}
