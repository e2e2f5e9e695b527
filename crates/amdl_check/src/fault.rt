ghost use Rattle.std.specs.Prelude.{◌≡◌, is_some, IfOk, MatchOption};
ghost use Rattle.std.specs.List.{All, list_any};
ghost use Rattle.amdl_tree.specs.Items.{field_item};
ghost use Rattle.amdl_tree.specs.WellBuilt.{IsBuiltItem};
ghost use Rattle.tree_rules.specs.Checked.{IsWellFormed, IsRefusedAt};

use crate::seen::Seen;
use amdl_tree::{Item, NoMemory};
use std::alloc::Global;
use tree_rules::{Rule, rules_are_found};

/// The number of the item at which the items are refused, and the rule. None comes exactly where they are well formed.
///
/// For each item linear in those before it, of which the rules allow some 7,000, and for each class linear in it and in
/// its expanded picks.
pub(crate) fn fault_of(alloc: Global, items: &[Item]) -> Result<Option<(usize, Rule)>, NoMemory>
    requires { All IsBuiltItem items.now }
    ensures { IfOk result (λ found. MatchOption found (IsWellFormed items.now)
        (λ at. IsRefusedAt items.now at.0 at.1)) }
{
    rules_are_found();
    let mut seen = Seen::new(alloc);
    for (place, item) in items.iter().enumerate() {
        let before = &items[..place];
        if let Some(rule) = seen.first_rule(alloc, before, item)? {
            return Ok(Some((place, rule)));
        }
        seen.add(alloc, before, item)?;
    }
    if any_field(items) {
        return Ok(None);
    }
    Ok(Some((items.len(), Rule::NoField)))
}

fn any_field(items: &[Item]) -> bool
    ensures { result ≡ list_any (λ item. is_some (field_item item)) items.now }
{
    items.iter().any(|item| is_field(item))
}

fn is_field(item: &Item) -> bool
    ensures { result ≡ is_some (field_item item.now) }
{
    match item {
        Item::Field { .. } => true,
        _ => false,
    }
}
