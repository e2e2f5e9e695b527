ghost use Rattle.std.specs.Prelude.{◌≡◌, ◌++◌, codes, OnOk};
ghost use Rattle.std.specs.List.{flat_map};
ghost use Rattle.amdl_format.specs.Fronts.{KeepsFronts};
ghost use Rattle.amdl_format.specs.Lines.{blanks, line_at};

use amdl_tree::NoMemory;

/// Appends the pieces in turn. Linear in their bytes.
///
/// Says less than the call that it makes: no layout needs to know which part was put when memory ran out.
pub(crate) fn put_all(out: &mut Vec<u8>, pieces: &[&[u8]]) -> Result<(), NoMemory>
    ensures ok { OnOk result (out.new.items ≡ out.old.items ++ flat_map (λ piece. piece.now) pieces.now) }
    ensures kept { KeepsFronts out.old.items out.new.items }
{
    amdl_tree::put_all(out, pieces)
}

/// Appends two blanks for each level. Linear in the levels.
pub(crate) fn put_blanks(level: usize, out: &mut Vec<u8>) -> Result<(), NoMemory>
    ensures ok { OnOk result (out.new.items ≡ out.old.items ++ blanks level) }
    ensures kept { KeepsFronts out.old.items out.new.items }
{
    for _ in 0..level {
        put_all(out, &[b"  "])?;
    }
    Ok(())
}

/// Appends the pieces as one line, so many levels in.
pub(crate) fn put_line(level: usize, pieces: &[&[u8]], out: &mut Vec<u8>) -> Result<(), NoMemory>
    ensures ok { OnOk result
        (out.new.items ≡ out.old.items ++ line_at level (flat_map (λ piece. piece.now) pieces.now)) }
    ensures kept { KeepsFronts out.old.items out.new.items }
{
    put_blanks(level, out)?;
    put_all(out, pieces)?;
    put_all(out, &[b"\n"])
}
