//! Laws over the definitions, each the contract of a function that does nothing.
ghost use Rattle.plan_text.specs.Laws.{ReportBegins, SafeIsTold, SafeIsPrinted, MessagesAreNotSafe, WireReport};
ghost use Rattle.plan_text.specs.Found.{FindingsAreReported};
ghost use Rattle.plan_text.specs.Laws.{BoxedWireReport, CountsAreNotSafe, BoxedWireCounts};

/// A report begins with `network`.
pub fn report_begins()
    ensures { ReportBegins }
{}

/// However early the report of a network with a good name is cut off, it prints SAFE only where no fact is bad.
pub fn safe_is_told()
    ensures { SafeIsTold }
{}

/// The report of a network with a good name and no bad fact prints SAFE.
pub fn safe_is_printed()
    ensures { SafeIsPrinted }
{}

/// The report that findings give is that of the facts which they summarise.
pub fn findings_are_reported()
    ensures { FindingsAreReported }
{}

/// Usage and refusals never print SAFE, however early they are cut off.
pub fn messages_are_not_safe()
    ensures { MessagesAreNotSafe }
{}

/// The counts of a network with a good name never print SAFE, however early they are cut off.
pub fn counts_are_not_safe()
    ensures { CountsAreNotSafe }
{}

/// The report of two hosts on a wire, as its text.
pub fn report_of_wire()
    ensures { WireReport }
{}

/// A report with a delivery from the port of a box and an abort, as its text.
pub fn report_of_boxed_wire()
    ensures { BoxedWireReport }
{}

/// The counts of two hosts on a wire with a box in it, as their text.
pub fn counts_of_boxed_wire()
    ensures { BoxedWireCounts }
{}
