//! Laws over the definitions, each the contract of a function that does nothing.
ghost use Rattle.tree_soundness.specs.Counting.{CellsAreCounted, CellsAreTold, KeptIsCounted};
ghost use Rattle.tree_soundness.specs.Laws.{WellFormedIsSound};

use box_contents::with_keeps_rising;

/// A tree as it is read, whose items are well formed, has a network, and the network is sound.
pub fn well_formed_is_sound()
    ensures { WellFormedIsSound }
{
    with_keeps_rising();
}

/// How the counts by which cells are told go on from item to item, what they tell, and that what items that keep the
/// rules declare comes to something.
pub fn cells_are_counted()
    ensures counted { CellsAreCounted }
    ensures told { CellsAreTold }
    ensures kept { KeptIsCounted }
{}
