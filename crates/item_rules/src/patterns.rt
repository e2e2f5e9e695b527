ghost use Rattle.std.specs.Prelude.{◌≡◌, ◌||◌, not, IfOk};
ghost use Rattle.std.specs.List.{list_any};
ghost use Rattle.std.specs.Cmp.Lexicographic.{pointwise};
ghost use Rattle.amdl_tree.specs.declared.tree.Item.TheVariants.{Sends, Forbid};
ghost use Rattle.amdl_tree.specs.Items.{sends_item, sends_items, forbid_item, forbid_items};
ghost use Rattle.name_tables.specs.Names.{is_among};
ghost use Rattle.tree_rules.specs.Rules.{passes, same_equal, same_pattern, pattern_unknown};
ghost use Rattle.tree_rules.specs.Checked.{first_rule};
ghost use Rattle.declared_names.specs.Declares.{Declares};
ghost use Rattle.item_rules.specs.ByTables.{equation_unknown, equation_mismatch};
ghost use Rattle.item_rules.specs.Chains.{pattern_rule};

use crate::forms::{Form, is_full};
use crate::names::{field_twice, is_host};
use crate::tuples::is_of_other;
use amdl_tree::{Equal, Item, Name, NoMemory};
use declared_names::Declared;
use std::alloc::Global;
use tree_rules::Rule;

/// The first rule that a `sends` breaks behind these items, whose names are declared so. None comes exactly where it
/// breaks none.
///
/// Linear in the items before and in the equations. Want of memory is the one refusal.
#[tactic(auto, using(crate::proofs::PatternLemmas::sends_is))]
pub fn sends_rule(
    alloc: Global,
    declared: &Declared,
    before: &[Item],
    host: Name,
    pattern: &[Equal],
) -> Result<Option<Rule>, NoMemory>
    requires { Declares before.now declared.now }
    ensures { IfOk result (λ found. found ≡ first_rule before.now (Sends host pattern.now)) }
{
    if let Some(rule) = pattern_rule(alloc, declared, before, Form::Sends, host, pattern)? {
        return Ok(Some(rule));
    }
    if is_sent(before, host, pattern) {
        return Ok(Some(Rule::SameItem));
    }
    Ok(None)
}

/// The same for a `forbid`.
#[tactic(auto, using(crate::proofs::PatternLemmas::forbid_is))]
pub fn forbid_rule(
    alloc: Global,
    declared: &Declared,
    before: &[Item],
    host: Name,
    pattern: &[Equal],
) -> Result<Option<Rule>, NoMemory>
    requires { Declares before.now declared.now }
    ensures { IfOk result (λ found. found ≡ first_rule before.now (Forbid host pattern.now)) }
{
    if let Some(rule) = pattern_rule(alloc, declared, before, Form::Forbid, host, pattern)? {
        return Ok(Some(rule));
    }
    if is_forbidden(before, host, pattern) {
        return Ok(Some(Rule::SameItem));
    }
    Ok(None)
}

// The rules of both forms, but for that on the same item.
#[tactic(auto, using(crate::proofs::PatternLemmas::unknown_are, crate::proofs::PatternLemmas::mismatch_are))]
fn pattern_rule(
    alloc: Global,
    declared: &Declared,
    before: &[Item],
    form: Form,
    host: Name,
    pattern: &[Equal],
) -> Result<Option<Rule>, NoMemory>
    requires { Declares before.now declared.now }
    ensures { IfOk result (λ found. found ≡ pattern_rule before.now form host pattern.now) }
{
    if field_twice(alloc, pattern)? {
        return Ok(Some(Rule::NameTaken));
    }
    if !is_host(before, host) || any_unknown(declared, pattern) {
        return Ok(Some(Rule::UnknownName));
    }
    if is_full(before, form, 1024) {
        return Ok(Some(Rule::TooMany));
    }
    if any_mismatch(declared, pattern) {
        return Ok(Some(Rule::KindMismatch));
    }
    Ok(None)
}

fn any_unknown(declared: &Declared, pattern: &[Equal]) -> bool
    ensures { result ≡ list_any (equation_unknown declared.now) pattern.now }
{
    pattern
        .iter()
        .any(|equal| equation_unknown(declared, equal))
}

fn equation_unknown(declared: &Declared, equal: &Equal) -> bool
    ensures { result ≡ equation_unknown declared.now equal.now }
{
    declared.fields.get(equal.field).is_none() || declared.values.get(equal.value).is_none()
}

fn any_mismatch(declared: &Declared, pattern: &[Equal]) -> bool
    ensures { result ≡ list_any (equation_mismatch declared.now) pattern.now }
{
    pattern
        .iter()
        .any(|equal| equation_mismatch(declared, equal))
}

fn equation_mismatch(declared: &Declared, equal: &Equal) -> bool
    ensures { result ≡ equation_mismatch declared.now equal.now }
{
    match declared.fields.get(equal.field) {
        Some(kind) => is_of_other(declared, kind, equal.value),
        None => false,
    }
}

// Whether the host sends this already.
#[tactic(auto, using(crate::proofs::FormLemmas::sent_before))]
fn is_sent(before: &[Item], host: Name, pattern: &[Equal]) -> bool
    ensures { result ≡ list_any (same_pattern host pattern.now) (sends_items before.now) }
{
    any_sends_this(before, host, pattern)
}

fn any_sends_this(before: &[Item], host: Name, pattern: &[Equal]) -> bool
    ensures { result ≡ list_any (λ item. passes (same_pattern host pattern.now) (sends_item item)) before.now }
{
    before.iter().any(|item| sends_this(item, host, pattern))
}

fn sends_this(item: &Item, host: Name, pattern: &[Equal]) -> bool
    ensures { result ≡ passes (same_pattern host pattern.now) (sends_item item.now) }
{
    match item {
        Item::Sends {
            host: other,
            pattern: sent,
        } => { host == *other && same_equals(pattern, sent.as_slice()) }
        _ => false,
    }
}

#[tactic(auto, using(crate::proofs::FormLemmas::forbidden_before))]
fn is_forbidden(before: &[Item], host: Name, pattern: &[Equal]) -> bool
    ensures { result ≡ list_any (same_pattern host pattern.now) (forbid_items before.now) }
{
    any_forbids_this(before, host, pattern)
}

fn any_forbids_this(before: &[Item], host: Name, pattern: &[Equal]) -> bool
    ensures { result ≡ list_any (λ item. passes (same_pattern host pattern.now) (forbid_item item)) before.now }
{
    before.iter().any(|item| forbids_this(item, host, pattern))
}

fn forbids_this(item: &Item, host: Name, pattern: &[Equal]) -> bool
    ensures { result ≡ passes (same_pattern host pattern.now) (forbid_item item.now) }
{
    match item {
        Item::Forbid {
            host: other,
            pattern: forbidden,
        } => { host == *other && same_equals(pattern, forbidden.as_slice()) }
        _ => false,
    }
}

fn same_equals(one: &[Equal], two: &[Equal]) -> bool
    ensures { result ≡ pointwise same_equal one.now two.now }
{
    one == two
}
