ghost use Rattle.std.specs.Prelude.{◌≡◌, ◌++◌, codes, map, OnOk};
ghost use Rattle.amdl_tree.specs.Layout.{listed, layout_of_atom, layout_of_changes, layout_of_end, layout_of_equal};
ghost use Rattle.amdl_tree.specs.Layout.{layout_of_first, layout_of_pattern};
ghost use Rattle.amdl_format.specs.Fronts.{KeepsFronts};

use crate::append::put_all;
use amdl_tree::{Atom, End, Equal, Name, NoMemory};

/// Appends names with commas between. Linear in the names, as each of these is in its parts.
pub(crate) fn put_names(names: &[Name], out: &mut Vec<u8>) -> Result<(), NoMemory>
    ensures ok { OnOk result (out.new.items ≡ out.old.items ++ listed names.now) }
    ensures kept { KeepsFronts out.old.items out.new.items }
{
    let mut comma: &[u8] = b"";
    for name in names {
        put_all(out, &[comma, name.bytes()])?;
        comma = b", ";
    }
    Ok(())
}

/// Appends a relation with its arguments.
pub(crate) fn put_atom(atom: &Atom, out: &mut Vec<u8>) -> Result<(), NoMemory>
    ensures ok { OnOk result (out.new.items ≡ out.old.items ++ layout_of_atom atom.now) }
    ensures kept { KeepsFronts out.old.items out.new.items }
{
    put_tuple(atom.relation, atom.args.as_slice(), out)
}

/// Appends a name and names in parentheses behind it.
pub(crate) fn put_tuple(name: Name, names: &[Name], out: &mut Vec<u8>) -> Result<(), NoMemory>
    ensures ok { OnOk result (out.new.items ≡ out.old.items ++ (name ++ codes "(" ++ listed names.now ++ codes ")")) }
    ensures kept { KeepsFronts out.old.items out.new.items }
{
    put_all(out, &[name.bytes(), b"("])?;
    put_names(names, out)?;
    put_all(out, &[b")"])
}

/// Appends a pattern, which without equations is `true`.
pub(crate) fn put_pattern(pattern: &[Equal], out: &mut Vec<u8>) -> Result<(), NoMemory>
    ensures ok { OnOk result (out.new.items ≡ out.old.items ++ layout_of_pattern pattern.now) }
    ensures kept { KeepsFronts out.old.items out.new.items }
{
    if pattern.is_empty() {
        return put_all(out, &[b"true"]);
    }
    put_equals(pattern, out)
}

fn put_equals(equals: &[Equal], out: &mut Vec<u8>) -> Result<(), NoMemory>
    ensures ok { OnOk result (out.new.items ≡ out.old.items ++ listed (map layout_of_equal equals.now)) }
    ensures kept { KeepsFronts out.old.items out.new.items }
{
    let mut before: &[u8] = b"";
    for equal in equals {
        put_all(
            out,
            &[before, equal.field.bytes(), b" = ", equal.value.bytes()],
        )?;
        before = b", ";
    }
    Ok(())
}

/// Appends the changes of an `output` in brackets, and nothing where there are none.
pub(crate) fn put_changes(changes: &[Equal], out: &mut Vec<u8>) -> Result<(), NoMemory>
    ensures ok { OnOk result (out.new.items ≡ out.old.items ++ layout_of_changes changes.now) }
    ensures kept { KeepsFronts out.old.items out.new.items }
{
    if changes.is_empty() {
        return Ok(());
    }
    let mut before: &[u8] = b" [";
    for change in changes {
        put_all(
            out,
            &[before, change.field.bytes(), b" := ", change.value.bytes()],
        )?;
        before = b", ";
    }
    put_all(out, &[b"]"])
}

/// Appends the tuples that a box starts with behind `with`, and nothing where there are none.
pub(crate) fn put_first(first: &[Atom], out: &mut Vec<u8>) -> Result<(), NoMemory>
    ensures ok { OnOk result (out.new.items ≡ out.old.items ++ layout_of_first first.now) }
    ensures kept { KeepsFronts out.old.items out.new.items }
{
    let mut before: &[u8] = b" with ";
    for atom in first {
        put_all(out, &[before])?;
        before = b", ";
        put_atom(atom, out)?;
    }
    Ok(())
}

/// Appends a text and an end of a link.
pub(crate) fn put_end(before: &[u8], end: End, out: &mut Vec<u8>) -> Result<(), NoMemory>
    ensures ok { OnOk result (out.new.items ≡ out.old.items ++ (before.now ++ layout_of_end end)) }
    ensures kept { KeepsFronts out.old.items out.new.items }
{
    match end {
        End::Host(host) => put_all(out, &[before, host.bytes()]),
        End::Port(place, port) => put_all(out, &[before, place.bytes(), b".", port.bytes()]),
    }
}
