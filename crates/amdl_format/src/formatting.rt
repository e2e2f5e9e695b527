ghost use Rattle.std.specs.Prelude.{◌≡◌, ◌++◌, codes, OnErr, OnOk};
ghost use Rattle.amdl_tree.specs.Layout.{layout_of_tree};
ghost use Rattle.amdl_tree.specs.NetworkFile.{IsFileOf};
ghost use Rattle.amdl_tree.specs.WellBuilt.{IsShaped};
ghost use Rattle.amdl_format.specs.Fronts.{KeepsFronts};

use crate::append::put_all;
use crate::items::put_item;
use amdl_tree::{NoMemory, Tree, layout_is_file};

/// Appends the canonical layout of a tree, which is a network file of it. Linear in the bytes of the layout.
///
/// What `out` held stays. Want of memory is the one refusal, and then nothing is appended. Blocks and groups that stand
/// within one another take stack, at most 32 of them.
pub fn format(tree: &Tree, out: &mut Vec<u8>) -> Result<(), NoMemory>
    requires { IsShaped tree.now }
    ensures ok { OnOk result (out.new.items ≡ out.old.items ++ layout_of_tree tree.now) }
    ensures err { OnErr result (out.new.items ≡ out.old.items) }
    ensures reads { IsFileOf (layout_of_tree tree.now) tree.now }
{
    layout_is_file();
    put_whole(tree, out)
}

// The whole layout, or nothing.
fn put_whole(tree: &Tree, out: &mut Vec<u8>) -> Result<(), NoMemory>
    requires { IsShaped tree.now }
    ensures ok { OnOk result (out.new.items ≡ out.old.items ++ layout_of_tree tree.now) }
    ensures err { OnErr result (out.new.items ≡ out.old.items) }
{
    let start = out.len();
    match put_tree(tree, out) {
        Ok(()) => Ok(()),
        Err(NoMemory) => {
            // What was appended is taken back.
            out.truncate(start);
            Err(NoMemory)
        }
    }
}

/// Appends the layout.
pub(crate) fn put_tree(tree: &Tree, out: &mut Vec<u8>) -> Result<(), NoMemory>
    requires { IsShaped tree.now }
    ensures ok { OnOk result (out.new.items ≡ out.old.items ++ layout_of_tree tree.now) }
    ensures kept { KeepsFronts out.old.items out.new.items }
{
    put_all(out, &[b"network ", tree.name.bytes(), b";\n"])?;
    for item in tree.items.as_slice() {
        put_item(item, out)?;
    }
    Ok(())
}
