ghost use Rattle.std.specs.Prelude.{◌≡◌, ◌++◌, [], ◌∷◌, ◌-◌, ◌≤◌, All, codes, map, OnOk};
ghost use Rattle.std.specs.List.{flat_map};
ghost use Rattle.amdl_tree.specs.Layout.{branch_of_alternative, indented, layout_of_atom, layout_of_changes};
ghost use Rattle.amdl_tree.specs.Layout.{layout_of_guard, lines_of_choice, lines_of_statement};
ghost use Rattle.amdl_format.specs.Fronts.{KeepsFronts};
ghost use Rattle.amdl_tree.specs.WellBuilt.{AlternativeFits, StmtFits};
ghost use Rattle.amdl_format.specs.Lines.{branch_behind, branches_behind, line_at, text_at};

use crate::append::{put_all, put_blanks, put_line};
use crate::guards::put_guard;
use crate::parts::{put_atom, put_changes};
use amdl_tree::{Alternative, Atom, Equal, Guard, Name, NoMemory, Stmt};

/// Appends statements one level further in. Linear in their parts, and for each line in its levels.
#[cycle(statements)]
pub(crate) fn put_block(body: &[Stmt], level: usize, out: &mut Vec<u8>) -> Result<(), NoMemory>
    requires room { level ≤ 33 }
    requires fits { All (StmtFits (33 - level)) body.now }
    ensures ok { OnOk result
        (out.new.items ≡ out.old.items ++ text_at level (indented (flat_map lines_of_statement body.now))) }
    ensures kept { KeepsFronts out.old.items out.new.items }
{
    let inner = level + 1;
    for stmt in body {
        put_statement(stmt, inner, out)?;
    }
    Ok(())
}

#[cycle(statements)]
fn put_statement(stmt: &Stmt, level: usize, out: &mut Vec<u8>) -> Result<(), NoMemory>
    requires room { level ≤ 34 }
    requires fits { StmtFits (34 - level) stmt.now }
    ensures ok { OnOk result (out.new.items ≡ out.old.items ++ text_at level (lines_of_statement stmt.now)) }
    ensures kept { KeepsFronts out.old.items out.new.items }
{
    match stmt {
        Stmt::Insert(atom) => put_change(b"insert ", atom, level, out),
        Stmt::Remove(atom) => put_change(b"remove ", atom, level, out),
        Stmt::Abort => put_line(level, &[b"abort;"], out),
        Stmt::Output { port, changes } => put_output(*port, changes.as_slice(), level, out),
        Stmt::Choose(alternatives) => put_choice(alternatives.as_slice(), level, out),
        Stmt::Pick { name, kind, body } => put_pick(*name, *kind, body.as_slice(), level, out),
    }
}

#[cycle(statements)]
fn put_pick(
    name: Name,
    kind: Name,
    body: &[Stmt],
    level: usize,
    out: &mut Vec<u8>,
) -> Result<(), NoMemory>
    requires room { level ≤ 33 }
    requires fits { All (StmtFits (33 - level)) body.now }
    ensures ok { OnOk result
        (out.new.items ≡ out.old.items
        ++ text_at level
        ((codes "pick " ++ name ++ codes " : " ++ kind ++ codes " in {")
        ∷ indented (flat_map lines_of_statement body.now) ++ codes "}" ∷ [])) }
    ensures kept { KeepsFronts out.old.items out.new.items }
{
    put_line(
        level,
        &[b"pick ", name.bytes(), b" : ", kind.bytes(), b" in {"],
        out,
    )?;
    put_block(body, level, out)?;
    put_line(level, &[b"}"], out)
}

// The line of a statement that puts a tuple into its relation or takes it out.
fn put_change(word: &[u8], atom: &Atom, level: usize, out: &mut Vec<u8>) -> Result<(), NoMemory>
    ensures ok { OnOk result
        (out.new.items ≡ out.old.items ++ line_at level (word.now ++ layout_of_atom atom.now ++ codes ";")) }
    ensures kept { KeepsFronts out.old.items out.new.items }
{
    put_blanks(level, out)?;
    put_all(out, &[word])?;
    put_atom(atom, out)?;
    put_all(out, &[b";\n"])
}

fn put_output(
    port: Name,
    changes: &[Equal],
    level: usize,
    out: &mut Vec<u8>,
) -> Result<(), NoMemory>
    ensures ok { OnOk result
        (out.new.items ≡ out.old.items
        ++ line_at level (codes "output " ++ port ++ layout_of_changes changes.now ++ codes ";")) }
    ensures kept { KeepsFronts out.old.items out.new.items }
{
    put_blanks(level, out)?;
    put_all(out, &[b"output ", port.bytes()])?;
    put_changes(changes, out)?;
    put_all(out, &[b";\n"])
}

#[cycle(statements)]
fn put_choice(alternatives: &[Alternative], level: usize, out: &mut Vec<u8>) -> Result<(), NoMemory>
    requires room { level ≤ 33 }
    requires fits { All (AlternativeFits (33 - level)) alternatives.now }
    ensures ok { OnOk result
        (out.new.items ≡ out.old.items
        ++ text_at level (lines_of_choice (map branch_of_alternative alternatives.now))) }
    ensures kept { KeepsFronts out.old.items out.new.items }
{
    if alternatives.is_empty() {
        return put_line(level, &[b"if fi"], out);
    }
    put_alternatives(alternatives, level, out)?;
    put_line(level, &[b"} fi"], out)
}

#[cycle(statements)]
fn put_alternatives(
    alternatives: &[Alternative],
    level: usize,
    out: &mut Vec<u8>,
) -> Result<(), NoMemory>
    requires room { level ≤ 33 }
    requires fits { All (AlternativeFits (33 - level)) alternatives.now }
    ensures ok { OnOk result
        (out.new.items ≡ out.old.items
        ++ text_at level (branches_behind (codes "if ") (map branch_of_alternative alternatives.now))) }
    ensures kept { KeepsFronts out.old.items out.new.items }
{
    let mut before: &[u8] = b"if ";
    for alternative in alternatives {
        put_alternative(before, alternative, level, out)?;
        before = b"} | ";
    }
    Ok(())
}

// An alternative without the brace that ends its block, and what stands before it in its line.
#[cycle(statements)]
fn put_alternative(
    before: &[u8],
    alternative: &Alternative,
    level: usize,
    out: &mut Vec<u8>,
) -> Result<(), NoMemory>
    requires room { level ≤ 33 }
    requires fits { AlternativeFits (33 - level) alternative.now }
    ensures ok { OnOk result
        (out.new.items ≡ out.old.items
        ++ text_at level (branch_behind before.now (branch_of_alternative alternative.now))) }
    ensures kept { KeepsFronts out.old.items out.new.items }
{
    put_asked(before, &alternative.guard, level, out)?;
    put_block(alternative.body.as_slice(), level, out)
}

// The line with the guard of an alternative.
fn put_asked(before: &[u8], guard: &Guard, level: usize, out: &mut Vec<u8>) -> Result<(), NoMemory>
    ensures ok { OnOk result
        (out.new.items ≡ out.old.items ++ line_at level (before.now ++ layout_of_guard guard.now ++ codes " -> {")) }
    ensures kept { KeepsFronts out.old.items out.new.items }
{
    put_blanks(level, out)?;
    put_all(out, &[before])?;
    put_guard(guard, out)?;
    put_all(out, &[b" -> {\n"])
}
