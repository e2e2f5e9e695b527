ghost use Rattle.std.specs.Prelude.{◌≡◌, ◌+◌, ◌||◌, nat_lt, length};
ghost use Rattle.amdl_tree.specs.declared.tree.Item.TheVariants.{Host, Instance};
ghost use Rattle.amdl_tree.specs.Items.{box_items};
ghost use Rattle.declared_names.specs.Declares.{Declares};
ghost use Rattle.item_rules.specs.CellsLast.{first_but_cells};
ghost use Rattle.item_rules.specs.Chains.{tuples_rule};

use crate::forms::{Form, is_full};
use crate::lookups::class_named;
use crate::names::is_node;
use crate::tuples::{any_arity, any_mismatch, any_unknown};
use amdl_tree::{Atom, Item, Name, Relation};
use declared_names::Declared;
use tree_rules::Rule;

/// The first rule that a host breaks behind these items, but for that on cells. None comes exactly where it breaks
/// none of them.
///
/// Linear in the items before.
pub fn host_rule(before: &[Item], name: Name) -> Option<Rule>
    ensures { result ≡ first_but_cells before.now (Host name) }
{
    if is_node(before, name) {
        return Some(Rule::NameTaken);
    }
    if is_full(before, Form::Host, 256) {
        return Some(Rule::TooMany);
    }
    None
}

/// The first rule that a box breaks behind these items, whose names are declared so, but for that on cells. None comes
/// exactly where it breaks none of them.
///
/// Linear in the items before and in the tuples, and for each tuple in the relations of the class.
#[tactic(auto, using(crate::proofs::BoxLemmas::box_without))]
pub fn box_rule(
    declared: &Declared,
    before: &[Item],
    name: Name,
    class: Name,
    first: &[Atom],
) -> Option<Rule>
    requires { Declares before.now declared.now }
    ensures { result ≡ first_but_cells before.now (Instance name class first.now) }
{
    if is_node(before, name) {
        return Some(Rule::NameTaken);
    }
    match class_named(before, class) {
        Some(found) => tuples_rule(declared, before, found.relations.as_slice(), first),
        None => Some(Rule::UnknownName),
    }
}

// The rules of a box of a class with these relations, but for those on its name and its class.
fn tuples_rule(
    declared: &Declared,
    before: &[Item],
    relations: &[Relation],
    first: &[Atom],
) -> Option<Rule>
    ensures { result ≡ tuples_rule declared.now before.now relations.now first.now }
{
    if any_unknown(declared, relations, first) {
        return Some(Rule::UnknownName);
    }
    if box_too_many(before, first) {
        return Some(Rule::TooMany);
    }
    if any_arity(relations, first) {
        return Some(Rule::Arity);
    }
    if any_mismatch(declared, relations, first) {
        return Some(Rule::KindMismatch);
    }
    None
}

fn box_too_many(before: &[Item], first: &[Atom]) -> bool
    ensures { result ≡ nat_lt 256 (length (box_items before.now) + 1) || nat_lt 1024 (length first.now) }
{
    is_full(before, Form::Instance, 256) || first.len() > 1024
}
