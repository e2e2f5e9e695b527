ghost use Rattle.std.specs.Prelude.{◌≡◌, ◌||◌, map, IfOk};
ghost use Rattle.std.specs.List.{list_any};
ghost use Rattle.amdl_tree.specs.Items.{host_item, box_item, host_items, box_items};
ghost use Rattle.name_tables.specs.Names.{same_name, is_among, repeats};
ghost use Rattle.tree_rules.specs.Spaces.{node_names};
ghost use Rattle.tree_rules.specs.Rules.{passes, fields_named};
ghost use Rattle.item_rules.specs.ByTables.{is_term, kind_takes};

use amdl_tree::{Equal, Item, List, Name, NoMemory};
use declared_names::Declared;
use name_tables::repeats;
use std::alloc::Global;

/// Whether the name of a type is taken, or that of a value of it, or a value stands twice. Linear in the values.
pub(crate) fn kind_takes(
    alloc: Global,
    declared: &Declared,
    name: Name,
    values: &[Name],
) -> Result<bool, NoMemory>
    ensures { IfOk result (λ found. found ≡ kind_takes declared.now name values.now) }
{
    if declared.kinds.has(name) {
        return Ok(true);
    }
    if any_term(declared, values) {
        return Ok(true);
    }
    repeats(alloc, values)
}

fn any_term(declared: &Declared, values: &[Name]) -> bool
    ensures { result ≡ list_any (is_term declared.now) values.now }
{
    values.iter().any(|value| is_term(declared, *value))
}

/// Whether a value or a field has the name.
pub(crate) fn is_term(declared: &Declared, name: Name) -> bool
    ensures { result ≡ is_term declared.now name }
{
    declared.values.get(name).is_some() || declared.fields.get(name).is_some()
}

/// Whether a host or a box before has the name. Linear in the items before.
#[tactic(auto, using(crate::proofs::NodeLemmas::node_among))]
pub(crate) fn is_node(before: &[Item], name: Name) -> bool
    ensures { result ≡ is_among (node_names before.now) name }
{
    is_host(before, name) || is_box(before, name)
}

/// Whether a host before has the name. Linear in the items before.
#[tactic(auto, using(crate::proofs::NodeLemmas::host_before))]
pub(crate) fn is_host(before: &[Item], name: Name) -> bool
    ensures { result ≡ is_among (host_items before.now) name }
{
    any_is_host(before, name)
}

fn any_is_host(before: &[Item], name: Name) -> bool
    ensures { result ≡ list_any (λ item. passes (same_name name) (host_item item)) before.now }
{
    before.iter().any(|item| names_host(item, name))
}

fn names_host(item: &Item, name: Name) -> bool
    ensures { result ≡ passes (same_name name) (host_item item.now) }
{
    match item {
        Item::Host { name: host } => name == *host,
        _ => false,
    }
}

#[tactic(auto, using(crate::proofs::NodeLemmas::box_before))]
fn is_box(before: &[Item], name: Name) -> bool
    ensures { result ≡ is_among (map (λ box. box.name) (box_items before.now)) name }
{
    any_is_box(before, name)
}

fn any_is_box(before: &[Item], name: Name) -> bool
    ensures { result ≡ list_any (λ item. passes (λ box. same_name name box.name) (box_item item)) before.now }
{
    before.iter().any(|item| names_box(item, name))
}

fn names_box(item: &Item, name: Name) -> bool
    ensures { result ≡ passes (λ box. same_name name box.name) (box_item item.now) }
{
    match item {
        Item::Instance { name: named, .. } => name == *named,
        _ => false,
    }
}

/// Whether these equations name a field twice. Linear in them.
pub(crate) fn field_twice(alloc: Global, equals: &[Equal]) -> Result<bool, NoMemory>
    ensures { IfOk result (λ found. found ≡ repeats (fields_named equals.now)) }
{
    let names = field_names(alloc, equals)?;
    repeats(alloc, names.as_slice())
}

fn field_names(alloc: Global, equals: &[Equal]) -> Result<List<Name>, NoMemory>
    ensures { IfOk result (λ names. names ≡ fields_named equals.now) }
{
    let mut names = List::new(alloc);
    for equal in equals {
        names.push(equal.field)?;
    }
    Ok(names)
}
