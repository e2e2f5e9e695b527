ghost use Rattle.std.specs.Prelude.{◌≡◌, ◌++◌, OnOk, OnErr};
ghost use Rattle.std.specs.List.{flat_map};
ghost use Rattle.amdl_tree.specs.Appends.{AppendsPart, Keeps};

use crate::list::NoMemory;

/// Appends the pieces in turn. Linear in their bytes.
#[tactic(auto, using(crate::proofs::AppendLemmas::keeps_appended))]
pub fn put_all(out: &mut Vec<u8>, pieces: &[&[u8]]) -> Result<(), NoMemory>
    ensures ok { OnOk result (out.new.items ≡ out.old.items ++ flat_map (λ piece. piece.now) pieces.now) }
    ensures err { OnErr result (AppendsPart out.old.items out.new.items (flat_map (λ piece. piece.now) pieces.now)) }
    ensures kept { Keeps out.old.items out.new.items }
{
    for piece in pieces {
        match out.extend_from_slice(*piece) {
            Ok(()) => {}
            Err(_) => return Err(NoMemory),
        }
    }
    Ok(())
}
