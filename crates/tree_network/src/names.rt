ghost use Rattle.std.specs.Prelude.{◌≡◌, Some, IfOk};

use amdl_tree::{List, Name, NoMemory};
use std::alloc::Global;

/// The names once more, in time linear in them.
pub(crate) fn copied(alloc: Global, names: &[Name]) -> Result<List<Name>, NoMemory>
    ensures { IfOk result (λ copied. copied ≡ names.now) }
{
    let mut copied = List::new(alloc);
    for name in names {
        copied.push(*name)?;
    }
    Ok(copied)
}

/// A number of 32 bits. One that doesn't fit them is refused as want of memory.
pub(crate) fn numbered(number: usize) -> Result<Option<u32>, NoMemory>
    ensures { IfOk result (λ found. found ≡ Some number) }
{
    match u32::try_from(number) {
        Ok(short) => Ok(Some(short)),
        Err(_) => Err(NoMemory),
    }
}
