ghost use Rattle.std.specs.Prelude.{◌≡◌, IfOk};
ghost use Rattle.name_tables.specs.Names.{repeats};

use crate::table::NameTable;
use amdl_tree::{Name, NoMemory};
use std::alloc::Global;

/// Whether a name stands twice. Linear in the names.
#[tactic(auto, using(crate::proofs::RepeatLemmas::begun, crate::proofs::RepeatLemmas::found, crate::proofs::RepeatLemmas::more, crate::proofs::RepeatLemmas::done))]
pub fn repeats(alloc: Global, names: &[Name]) -> Result<bool, NoMemory>
    ensures { IfOk result (λ found. found ≡ repeats names.now) }
{
    let mut table = NameTable::new(alloc);
    for name in names {
        if !table.put(*name)? {
            return Ok(true);
        }
    }
    Ok(false)
}
