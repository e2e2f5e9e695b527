ghost use Rattle.std.specs.Prelude.{◌≡◌, nat_lt, IfOk};
ghost use Rattle.std.specs.List.{list_any};
ghost use Rattle.amdl_tree.specs.declared.tree.Item.TheVariants.{Class as OfClass};
ghost use Rattle.handler_sizes.specs.Capped.{capped};
ghost use Rattle.header_set.specs.Headers.{product};
ghost use Rattle.tree_plan.specs.Names.{all_some, values_named};
ghost use Rattle.tree_plan.specs.Tables.{kinds_back};
ghost use Rattle.tree_rules.specs.Rules.{relation_too_large};
ghost use Rattle.class_rules.specs.ByTables.{too_large};
ghost use Rattle.class_rules.specs.Reads.{IsRead};

use crate::read::ReadClass;
use amdl_tree::{List, Name, NoMemory, Relation};
use net_plan::KindPlan;
use std::alloc::Global;
use tree_plan::values_named;

/// Whether a relation of a class has more tuples than it may. For each argument of a relation linear in the types.
#[tactic(auto, using(crate::proofs::SizeLemmas::sizes_are))]
pub(crate) fn relation_too_large(alloc: Global, read: &ReadClass<'_>) -> Result<bool, NoMemory>
    requires { IsRead read.now }
    ensures { IfOk result (λ found. found ≡ relation_too_large read.now.before.now (OfClass read.now.class.now)) }
{
    any_too_large(
        alloc,
        read.tables.kinds.plans(),
        read.class.relations.as_slice(),
    )
}

#[tactic(auto, using(crate::proofs::SizeLemmas::large_here, crate::proofs::SizeLemmas::large_later, crate::proofs::SizeLemmas::large_nowhere))]
fn any_too_large(
    alloc: Global,
    kinds: &[KindPlan],
    relations: &[Relation],
) -> Result<bool, NoMemory>
    ensures { IfOk result (λ found. found ≡ list_any (too_large (kinds_back kinds.now)) relations.now) }
{
    for relation in relations {
        if too_large(alloc, kinds, relation)? {
            return Ok(true);
        }
    }
    Ok(false)
}

fn too_large(alloc: Global, kinds: &[KindPlan], relation: &Relation) -> Result<bool, NoMemory>
    ensures { IfOk result (λ found. found ≡ too_large (kinds_back kinds.now) relation.now) }
{
    match sizes_of(alloc, kinds, relation.kinds.as_slice())? {
        Some(sizes) => Ok(over_tuples(sizes.as_slice())),
        None => Ok(false),
    }
}

// How many values each of these types has.
#[tactic(auto, using(tree_plan::proofs::StepLemmas::all_begun, tree_plan::proofs::StepLemmas::all_more, tree_plan::proofs::StepLemmas::all_lost, tree_plan::proofs::StepLemmas::all_came))]
fn sizes_of(
    alloc: Global,
    kinds: &[KindPlan],
    names: &[Name],
) -> Result<Option<List<u32>>, NoMemory>
    ensures { IfOk result (λ found. found ≡ all_some (values_named (kinds_back kinds.now)) names.now) }
{
    let mut sizes = List::new(alloc);
    for name in names {
        match values_named(kinds, *name)? {
            Some(size) => sizes.push(size)?,
            None => return Ok(None),
        }
    }
    Ok(Some(sizes))
}

fn over_tuples(sizes: &[u32]) -> bool
    ensures { result ≡ nat_lt 65536 (product sizes.now) }
{
    tuples(sizes) > 65_536
}

// The product of the sizes, and the largest number of 64 bits for each that is larger: where a size is 0 the product is
// 0, however large it was before.
#[tactic(auto, using(crate::proofs::SizeLemmas::tuples_more, crate::proofs::SizeLemmas::tuples_all))]
fn tuples(sizes: &[u32]) -> u64
    ensures { result ≡ capped (product sizes.now) }
{
    let mut tuples = 1u64;
    for size in sizes {
        tuples = tuples.saturating_mul(u64::from(*size));
    }
    tuples
}
