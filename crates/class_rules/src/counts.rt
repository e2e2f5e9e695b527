ghost use Rattle.std.specs.Prelude.{◌≡◌, ◌+◌, ◌||◌, nat_lt, length, is_some, Option, List};
ghost use Rattle.std.specs.List.{list_any};
ghost use Rattle.amdl_tree.specs.Items.{class_item, class_items};
ghost use Rattle.box_handlers.specs.Size.{statements_of_all, literals_of_all};
ghost use Rattle.tree_rules.specs.Rules.{passes, class_too_many};
ghost use Rattle.class_rules.specs.Reads.{IsRead};

use crate::read::ReadClass;
use amdl_tree::{Item, List, Relation};
use box_handlers::Act;
use handler_sizes::{over_literals, over_statements};

/// Whether there are more classes than there may be, or a class has more parts. Linear in the items before it and the
/// class.
#[tactic(auto, using(crate::proofs::CountLemmas::counts_are))]
pub(crate) fn class_too_many(read: &ReadClass<'_>) -> bool
    requires { IsRead read.now }
    ensures { result ≡ class_too_many read.now.before.now read.now.class.now }
{
    classes_full(read.before)
        || read.class.ports.as_slice().len() > 32
        || read.class.relations.as_slice().len() > 16
        || arguments_over(read.class.relations.as_slice())
        || bodies_over(read.bodies)
}

// Whether there are as many classes as there may be, so that one more is too many.
#[tactic(auto, using(crate::proofs::CountLemmas::one_more))]
fn classes_full(before: &[Item]) -> bool
    ensures { result ≡ nat_lt 64 (length (class_items before.now) + 1) }
{
    class_count(before) >= 64
}

#[tactic(auto, using(crate::proofs::CountLemmas::class_more, crate::proofs::CountLemmas::class_skipped, crate::proofs::CountLemmas::class_all))]
fn class_count(items: &[Item]) -> usize
    ensures { result ≡ length (class_items items.now) }
{
    let mut count = 0usize;
    for item in items {
        if is_class(item) {
            count += 1;
        }
    }
    count
}

fn is_class(item: &Item) -> bool
    ensures { result ≡ is_some (class_item item.now) }
{
    match item {
        Item::Class(_) => true,
        _ => false,
    }
}

fn arguments_over(relations: &[Relation]) -> bool
    ensures { result ≡ list_any (λ relation. nat_lt 4 (length relation.kinds)) relations.now }
{
    relations
        .iter()
        .any(|relation| relation.kinds.as_slice().len() > 4)
}

fn bodies_over(bodies: &Option<List<List<Act>>>) -> bool
    ensures { result ≡
        passes (λ bodies. nat_lt 1024 (statements_of_all bodies) || nat_lt 4096 (literals_of_all bodies)) bodies.now }
{
    match bodies {
        Some(found) => {
            over_statements(found.as_slice(), 1024) || over_literals(found.as_slice(), 4096)
        }
        None => false,
    }
}
