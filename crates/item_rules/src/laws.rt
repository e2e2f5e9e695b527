//! Laws over the definitions, each the contract of a function that does nothing.
ghost use Rattle.item_rules.specs.CellsLast.{CellsComeLast};

/// The rule on cells is the last: the first rule that an item breaks is the first one but for that, or else that.
pub fn cells_come_last()
    ensures { CellsComeLast }
{}
