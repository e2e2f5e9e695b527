ghost use Rattle.std.specs.Prelude.{◌≡◌};
ghost use Rattle.std.specs.List.{find};
ghost use Rattle.std.specs.Option.{option_map};
ghost use Rattle.amdl_tree.specs.Items.{kind_items, box_items};
ghost use Rattle.tree_plan.specs.Names.{same_name, values_named};
ghost use Rattle.tree_plan.specs.Net.{class_named};
ghost use Rattle.tree_rules.specs.Kinds.{relation_named};
ghost use Rattle.item_rules.specs.Found.{class_if, box_class_if, size_if};

use amdl_tree::{Class, Item, Name, Relation};

/// The class of this name. None comes exactly where there is none. Linear in the items before.
#[tactic(auto, using(crate::proofs::FoundLemmas::told_here, crate::proofs::FoundLemmas::told_later, crate::proofs::FoundLemmas::told_nowhere, crate::proofs::FoundLemmas::class_told))]
pub(crate) fn class_named<'a>(before: &'a [Item], name: Name) -> Option<&'a Class>
    ensures { option_map (λ class. class.now) result ≡ class_named before.now name }
{
    for item in before {
        if let Some(class) = class_if(item, name) {
            return Some(class);
        }
    }
    None
}

fn class_if(item: &Item, name: Name) -> Option<&Class>
    ensures { option_map (λ class. class.now) result ≡ class_if name item.now }
{
    match item {
        Item::Class(class) if name == class.name => Some(class),
        _ => None,
    }
}

/// How many values the type of this name has. None comes exactly where there is no such type. Linear in the items
/// before.
#[tactic(auto, using(crate::proofs::FoundLemmas::told_here, crate::proofs::FoundLemmas::told_later, crate::proofs::FoundLemmas::told_nowhere, crate::proofs::FoundLemmas::size_told))]
pub(crate) fn kind_size(before: &[Item], name: Name) -> Option<usize>
    ensures { result ≡ values_named (kind_items before.now) name }
{
    for item in before {
        if let Some(size) = size_if(item, name) {
            return Some(size);
        }
    }
    None
}

fn size_if(item: &Item, name: Name) -> Option<usize>
    ensures { result ≡ size_if name item.now }
{
    match item {
        Item::Kind { name: kind, values } if name == *kind => Some(values.as_slice().len()),
        _ => None,
    }
}

/// The relation of this name. None comes exactly where there is none. Linear in the relations.
#[tactic(auto, using(crate::proofs::FoundLemmas::found_here, crate::proofs::FoundLemmas::found_later, crate::proofs::FoundLemmas::found_nowhere))]
pub(crate) fn relation_named<'a>(relations: &'a [Relation], name: Name) -> Option<&'a Relation>
    ensures { option_map (λ relation. relation.now) result ≡ relation_named relations.now name }
{
    for relation in relations {
        if name == relation.name {
            return Some(relation);
        }
    }
    None
}

/// The name of the class of the box of this name. None comes exactly where there is no such box. Linear in the items
/// before.
#[tactic(auto, using(crate::proofs::FoundLemmas::told_here, crate::proofs::FoundLemmas::told_later, crate::proofs::FoundLemmas::told_nowhere, crate::proofs::FoundLemmas::box_told))]
pub(crate) fn box_class(before: &[Item], name: Name) -> Option<Name>
    ensures { result ≡
        option_map (λ box. box.class) (find (λ box. same_name name box.name) (box_items before.now)) }
{
    for item in before {
        if let Some(class) = box_class_if(item, name) {
            return Some(class);
        }
    }
    None
}

fn box_class_if(item: &Item, name: Name) -> Option<Name>
    ensures { result ≡ box_class_if name item.now }
{
    match item {
        Item::Instance {
            name: named,
            class,
            ..
        } if name == *named => Some(*class),
        _ => None,
    }
}
