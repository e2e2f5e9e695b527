ghost use Rattle.std.specs.Prelude.{◌≡◌, ◌++◌, codes, OnOk};
ghost use Rattle.amdl_tree.specs.Layout.{joined, layout_of_atom, layout_of_guard, layout_of_lit};
ghost use Rattle.amdl_format.specs.Fronts.{KeepsFronts};

use crate::append::put_all;
use crate::parts::put_atom;
use amdl_tree::{Atom, Guard, Lit, Name, NoMemory};

/// Appends a guard. Linear in its parts.
#[cycle(guards)]
pub(crate) fn put_guard(guard: &Guard, out: &mut Vec<u8>) -> Result<(), NoMemory>
    ensures ok { OnOk result (out.new.items ≡ out.old.items ++ layout_of_guard guard.now) }
    ensures kept { KeepsFronts out.old.items out.new.items }
{
    let mut before: &[u8] = b"";
    for lits in guard.any.as_slice() {
        put_all(out, &[before])?;
        before = b" or ";
        put_conj(lits.as_slice(), out)?;
    }
    Ok(())
}

#[cycle(guards)]
fn put_conj(lits: &[Lit], out: &mut Vec<u8>) -> Result<(), NoMemory>
    ensures ok { OnOk result (out.new.items ≡ out.old.items ++ joined (codes " and ") layout_of_lit lits.now) }
    ensures kept { KeepsFronts out.old.items out.new.items }
{
    let mut before: &[u8] = b"";
    for lit in lits {
        put_all(out, &[before])?;
        before = b" and ";
        put_lit(lit, out)?;
    }
    Ok(())
}

#[cycle(guards)]
fn put_lit(lit: &Lit, out: &mut Vec<u8>) -> Result<(), NoMemory>
    ensures ok { OnOk result (out.new.items ≡ out.old.items ++ layout_of_lit lit.now) }
    ensures kept { KeepsFronts out.old.items out.new.items }
{
    match lit {
        Lit::True => put_all(out, &[b"true"]),
        Lit::Has(atom) => put_has(atom, out),
        Lit::Same(one, two) => put_compared(*one, b" = ", *two, out),
        Lit::Differ(one, two) => put_compared(*one, b" != ", *two, out),
        Lit::Not(inner) => put_denied(inner.value(), out),
        Lit::Group(guard) => put_group(guard, out),
    }
}

fn put_has(atom: &Atom, out: &mut Vec<u8>) -> Result<(), NoMemory>
    ensures ok { OnOk result (out.new.items ≡ out.old.items ++ (codes "has " ++ layout_of_atom atom.now)) }
    ensures kept { KeepsFronts out.old.items out.new.items }
{
    put_all(out, &[b"has "])?;
    put_atom(atom, out)
}

fn put_compared(one: Name, sign: &[u8], two: Name, out: &mut Vec<u8>) -> Result<(), NoMemory>
    ensures ok { OnOk result (out.new.items ≡ out.old.items ++ (one ++ sign.now ++ two)) }
    ensures kept { KeepsFronts out.old.items out.new.items }
{
    put_all(out, &[one.bytes(), sign, two.bytes()])
}

#[cycle(guards)]
fn put_denied(lit: &Lit, out: &mut Vec<u8>) -> Result<(), NoMemory>
    ensures ok { OnOk result (out.new.items ≡ out.old.items ++ (codes "not " ++ layout_of_lit lit.now)) }
    ensures kept { KeepsFronts out.old.items out.new.items }
{
    put_all(out, &[b"not "])?;
    put_lit(lit, out)
}

#[cycle(guards)]
fn put_group(guard: &Guard, out: &mut Vec<u8>) -> Result<(), NoMemory>
    ensures ok { OnOk result (out.new.items ≡ out.old.items ++ (codes "(" ++ layout_of_guard guard.now ++ codes ")")) }
    ensures kept { KeepsFronts out.old.items out.new.items }
{
    put_all(out, &[b"("])?;
    put_guard(guard, out)?;
    put_all(out, &[b")"])
}
