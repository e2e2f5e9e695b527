ghost use Rattle.std.specs.Prelude.{◌≡◌, ℕ, List};
ghost use Rattle.std.specs.Option.{option_map};
ghost use Rattle.amdl_tree.specs.declared.tree.Item.TheVariants.{Field};
ghost use Rattle.amdl_tree.specs.Items.{field_item};
ghost use Rattle.tree_rules.specs.Rules.{header_too_large};
ghost use Rattle.item_rules.specs.Found.{capped, factor_with, product_with};

use crate::lookups::kind_size;
use amdl_tree::{Item, Name};

/// Whether the fields, with this one, have more than 65,536 packets. Each field costs time linear in the items before.
#[tactic(auto, using(crate::proofs::HeaderLemmas::type_unknown, crate::proofs::HeaderLemmas::product_unknown, crate::proofs::HeaderLemmas::large))]
pub(crate) fn header_too_large(before: &[Item], name: Name, kind: Name) -> bool
    ensures { result ≡ header_too_large before.now (Field name kind) }
{
    let Some(size) = kind_size(before, kind) else {
        return false;
    };
    let Some(packets) = packets(before) else {
        return false;
    };
    packets.saturating_mul(size) > 65536
}

// The product of the sizes of the fields, or the largest number where it is larger.
#[tactic(auto, using(crate::proofs::HeaderLemmas::begun, crate::proofs::HeaderLemmas::more, crate::proofs::HeaderLemmas::lost, crate::proofs::HeaderLemmas::came))]
fn packets(before: &[Item]) -> Option<usize>
    ensures { result ≡ option_map capped (product_with before.now before.now) }
{
    let mut packets: usize = 1;
    for item in before {
        match factor(before, item) {
            Some(size) => packets = packets.saturating_mul(size),
            None => return None,
        }
    }
    Some(packets)
}

fn factor(before: &[Item], item: &Item) -> Option<usize>
    ensures { result ≡ factor_with before.now (field_item item.now) }
{
    match item {
        Item::Field { kind, .. } => kind_size(before, *kind),
        _ => Some(1),
    }
}
