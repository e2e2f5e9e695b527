// Laws of sets of cells, each the contract of a function that does nothing.
ghost use Rattle.cell_sets.specs.Laws.{MembersAreListed};

/// The list of the members has each of them and no other, and is as long as they are many.
pub fn members_are_listed()
    ensures { MembersAreListed }
{}
