ghost use Rattle.std.specs.Prelude.{◌≡◌, ◌+◌, ◌||◌, nat_lt, length, IfOk};
ghost use Rattle.std.specs.List.{list_any};
ghost use Rattle.amdl_tree.specs.declared.tree.Item.TheVariants.{Kind, Field};
ghost use Rattle.amdl_tree.specs.Items.{kind_items};
ghost use Rattle.tree_rules.specs.Rules.{follows_fields};
ghost use Rattle.tree_rules.specs.Checked.{first_rule};
ghost use Rattle.declared_names.specs.Declares.{Declares};

use crate::forms::{Form, is_full};
use crate::header::header_too_large;
use crate::names::{is_term, kind_takes};
use amdl_tree::{Item, Name, NoMemory};
use declared_names::Declared;
use std::alloc::Global;
use tree_rules::Rule;

/// The first rule that a type breaks behind these items, whose names are declared so. None comes exactly where it
/// breaks none.
///
/// Linear in the items before and in the values. Want of memory is the one refusal.
#[tactic(auto, using(crate::proofs::KindLemmas::takes_are))]
pub fn kind_rule(
    alloc: Global,
    declared: &Declared,
    before: &[Item],
    name: Name,
    values: &[Name],
) -> Result<Option<Rule>, NoMemory>
    requires { Declares before.now declared.now }
    ensures { IfOk result (λ found. found ≡ first_rule before.now (Kind name values.now)) }
{
    if kind_takes(alloc, declared, name, values)? {
        return Ok(Some(Rule::NameTaken));
    }
    if kind_too_many(before, values) {
        return Ok(Some(Rule::TooMany));
    }
    Ok(None)
}

fn kind_too_many(before: &[Item], values: &[Name]) -> bool
    ensures { result ≡ nat_lt 32 (length (kind_items before.now) + 1) || nat_lt 256 (length values.now) }
{
    is_full(before, Form::Kind, 32) || values.len() > 256
}

/// The first rule that a field breaks behind these items, whose names are declared so. None comes exactly where it
/// breaks none.
///
/// Linear in the items before, and for each field before linear in them again.

#[tactic(auto, using(crate::proofs::KindLemmas::terms_are, crate::proofs::KindLemmas::types_are))]
pub fn field_rule(declared: &Declared, before: &[Item], name: Name, kind: Name) -> Option<Rule>
    requires { Declares before.now declared.now }
    ensures { result ≡ first_rule before.now (Field name kind) }
{
    if is_term(declared, name) {
        return Some(Rule::NameTaken);
    }
    if !declared.kinds.has(kind) {
        return Some(Rule::UnknownName);
    }
    if is_full(before, Form::Field, 8) {
        return Some(Rule::TooMany);
    }
    if header_too_large(before, name, kind) {
        return Some(Rule::HeaderTooLarge);
    }
    if any_follows_fields(before) {
        return Some(Rule::FieldLate);
    }
    None
}

// Whether an item stands before that is neither a type nor a field.
fn any_follows_fields(before: &[Item]) -> bool
    ensures { result ≡ list_any follows_fields before.now }
{
    before.iter().any(|item| follows_fields(item))
}

fn follows_fields(item: &Item) -> bool
    ensures { result ≡ follows_fields item.now }
{
    match item {
        Item::Kind { .. } => false,
        Item::Field { .. } => false,
        _ => true,
    }
}
