ghost use Rattle.std.specs.Prelude.{◌≡◌, ◌||◌};
ghost use Rattle.std.specs.List.{list_any};
ghost use Rattle.amdl_tree.specs.declared.tree.Item.TheVariants.{Link};
ghost use Rattle.amdl_tree.specs.Items.{link_item};
ghost use Rattle.tree_rules.specs.Rules.{passes, same_end, has_end, end_taken_before};
ghost use Rattle.tree_rules.specs.Checked.{first_rule};

use crate::ends::end_unknown;
use amdl_tree::{End, Item};
use tree_rules::Rule;

/// The first rule that a link breaks behind these items. None comes exactly where it breaks none.
///
/// Linear in the items before.
pub fn link_rule(before: &[Item], one: &End, two: &End) -> Option<Rule>
    ensures { result ≡ first_rule before.now (Link one.now two.now) }
{
    if end_unknown(before, one) || end_unknown(before, two) {
        return Some(Rule::UnknownName);
    }
    if same_end(one, two) {
        return Some(Rule::EndToItself);
    }
    if is_taken(before, one) || is_taken(before, two) {
        return Some(Rule::EndTaken);
    }
    None
}

fn same_end(one: &End, two: &End) -> bool
    ensures { result ≡ same_end one.now two.now }
{
    *one == *two
}

// Whether the end has a link already.
#[tactic(auto, using(crate::proofs::FormLemmas::linked_before))]
fn is_taken(before: &[Item], end: &End) -> bool
    ensures { result ≡ end_taken_before before.now end.now }
{
    any_has_end(before, end)
}

fn any_has_end(before: &[Item], end: &End) -> bool
    ensures { result ≡ list_any (λ item. passes (has_end end.now) (link_item item)) before.now }
{
    before.iter().any(|item| has_end(item, end))
}

fn has_end(item: &Item, end: &End) -> bool
    ensures { result ≡ passes (has_end end.now) (link_item item.now) }
{
    match item {
        Item::Link { one, two } => same_end(end, one) || same_end(end, two),
        _ => false,
    }
}
