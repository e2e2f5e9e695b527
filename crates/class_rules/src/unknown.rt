ghost use Rattle.std.specs.Prelude.{◌≡◌, ℕ, List, not, IfOk};
ghost use Rattle.std.specs.List.{list_any};
ghost use Rattle.name_tables.specs.Names.{is_among};
ghost use Rattle.tree_rules.specs.Rules.{class_unknown};
ghost use Rattle.class_rules.specs.Reads.{IsRead};

use crate::read::ReadClass;
use amdl_tree::{Handler, Name, NoMemory, Relation};
use name_tables::NameTable;
use std::alloc::Global;

/// Whether a name in a class stands for nothing. Linear in the class.
#[tactic(auto, using(crate::proofs::UnknownLemmas::kinds_unknown, crate::proofs::UnknownLemmas::ports_unknown, crate::proofs::UnknownLemmas::bodies_unknown))]
pub(crate) fn class_unknown(alloc: Global, read: &ReadClass<'_>) -> Result<bool, NoMemory>
    requires { IsRead read.now }
    ensures { IfOk result (λ found. found ≡ class_unknown read.now.before.now read.now.class.now) }
{
    if any_kind_unknown(&read.declared.kinds, read.class.relations.as_slice()) {
        return Ok(true);
    }
    if port_unknown(
        alloc,
        read.class.ports.as_slice(),
        read.class.handlers.as_slice(),
    )? {
        return Ok(true);
    }
    Ok(read.bodies.is_none())
}

fn any_kind_unknown(kinds: &NameTable, relations: &[Relation]) -> bool
    ensures { result ≡
        list_any (λ relation. list_any (λ kind. not (is_among kinds.now kind)) relation.kinds) relations.now }
{
    relations
        .iter()
        .any(|relation| any_absent(kinds, relation.kinds.as_slice()))
}

fn any_absent(table: &NameTable, names: &[Name]) -> bool
    ensures { result ≡ list_any (λ name. not (is_among table.now name)) names.now }
{
    names.iter().any(|name| !table.has(*name))
}

// Whether a handler is for a port that isn't among these.
#[tactic(auto, using(crate::proofs::UnknownLemmas::ports_by_table))]
fn port_unknown(alloc: Global, ports: &[Name], handlers: &[Handler]) -> Result<bool, NoMemory>
    ensures { IfOk result
        (λ found. found ≡ list_any (λ handler. not (is_among ports.now handler.port)) handlers.now) }
{
    let table = table_of(alloc, ports)?;
    Ok(any_port_absent(&table, handlers))
}

fn any_port_absent(ports: &NameTable, handlers: &[Handler]) -> bool
    ensures { result ≡ list_any (λ handler. not (is_among ports.now handler.port)) handlers.now }
{
    handlers.iter().any(|handler| !ports.has(handler.port))
}

#[tactic(auto, using(crate::proofs::UnknownLemmas::table_more, crate::proofs::UnknownLemmas::table_all))]
fn table_of(alloc: Global, names: &[Name]) -> Result<NameTable, NoMemory>
    ensures { IfOk result (λ table. (name : List ℕ) → is_among table name ≡ is_among names.now name) }
{
    let mut table = NameTable::new(alloc);
    for name in names {
        table.put(*name)?;
    }
    Ok(table)
}
