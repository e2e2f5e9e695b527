// Offers of facts.
ghost use Rattle.std.specs.Prelude.{◌≡◌};
ghost use Rattle.net_plan.specs.Cells.{IsInRange, cells_of};
ghost use Rattle.move_table.specs.Offered.{Offered, Is};

use cell_sets::CellSet;
use fix_engine::Work;
use net_plan::{Fact, Network};

/// Offers the cell of a fact. Constant time.
pub fn offer<S: CellSet>(net: &Network, fact: Fact, work: &mut Work<S>)
    requires cells { work.old.cells ≡ cells_of net.now }
    requires in_range { IsInRange net.now fact }
    ensures { Offered net.now (Is fact) work.old work.new }
{
    work.offer(net.cell_of(fact));
}
