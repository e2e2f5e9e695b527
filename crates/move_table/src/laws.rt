// The laws that the table stands on.
ghost use Rattle.move_table.specs.Laws.{AreLaws};

use box_contents::{held_with, held_without};

/// The laws of contents after a write.
pub fn laws()
    ensures { AreLaws }
{
    held_with();
    held_without();
}
