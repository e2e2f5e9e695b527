// What the definitions of the clauses come to.
ghost use Rattle.outside.specs.Faults.{RisesOrStands, RiseLasts};
ghost use Rattle.outside.specs.Files.{SetsOneFile};

/// A count of at most 2^64 - 1 rose exactly where it is greater than before or stands at 2^64 - 1.
pub fn rose_where_greater_or_full()
    ensures { RisesOrStands }
{}

/// A rise isn't lost by later calls.
pub fn rise_lasts()
    ensures { RiseLasts }
{}

/// A map in which a file was set has that file, and every other name is as before.
pub fn set_file_alone_changes()
    ensures { SetsOneFile }
{}
