ghost use Rattle.std.specs.Prelude.{◌≡◌, ◌++◌, OnErr, OnOk};
ghost use Rattle.amdl_tree.specs.Layout.{layout_of_tree};
ghost use Rattle.amdl_tree.specs.WellBuilt.{IsShaped};
ghost use Rattle.network_file.specs.Laws.{ReadsBack};

use crate::laws::layout_reads_back;
use amdl_format::format;
use amdl_tree::{NoMemory, Tree};

/// Appends the canonical layout of a tree. Where it is within the limits of a network file, lexing and parsing it gives
/// the tree.
///
/// Want of memory is the one error, and then nothing is appended. Time is linear in the layout.
pub fn write(tree: &Tree, out: &mut Vec<u8>) -> Result<(), NoMemory>
    requires { IsShaped tree.now }
    ensures ok { OnOk result (out.new.items ≡ out.old.items ++ layout_of_tree tree.now) }
    ensures err { OnErr result (out.new.items ≡ out.old.items) }
    ensures reads_back { ReadsBack (layout_of_tree tree.now) tree.now }
{
    layout_reads_back();
    format(tree, out)
}
