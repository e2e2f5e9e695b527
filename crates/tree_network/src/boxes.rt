ghost use Rattle.std.specs.Prelude.{◌≡◌, ◌+◌, ◌*◌, IfOk, OnOk};
ghost use Rattle.std.specs.List.{position_from};
ghost use Rattle.std.specs.Option.{option_map};
ghost use Rattle.box_contents.specs.Contents.{with_entry};
ghost use Rattle.tree_plan.specs.Names.{same_name, number_of, all_some};
ghost use Rattle.tree_plan.specs.Net.{tuple_of_values, relation_names, entry_with, entry_of, contents_of, class_number};
ghost use Rattle.tree_plan.specs.Net.{class_among, first_of, box_of};
ghost use Rattle.tree_plan.specs.Tables.{kinds_back};
ghost use Rattle.tree_network.specs.Reads.{class_back, classes_back, box_back, boxes_back};

use crate::items::BoxItem;
use crate::names::numbered;
use amdl_tree::{Atom, Class, List, Name, NoMemory, Relation};
use box_contents::{Contents, Entry};
use net_plan::{BoxPlan, KindPlan};
use std::alloc::Global;
use tree_plan::{kind_named, number_of};

/// The boxes, each with the number of its class and its first contents. None comes exactly where a name stands for
/// nothing.
///
/// For each box linear in the classes, and for each of its tuples in the relations of its class, in the types and
/// values of the tuple, and in the contents.
#[tactic(auto, using(crate::proofs::PassLemmas::mapped_begun, crate::proofs::PassLemmas::mapped_more, crate::proofs::PassLemmas::mapped_lost, crate::proofs::PassLemmas::mapped_came))]
pub(crate) fn boxes_of(
    alloc: Global,
    kinds: &[KindPlan],
    classes: &[&Class],
    items: &[BoxItem<'_>],
) -> Result<Option<List<BoxPlan>>, NoMemory>
    ensures { IfOk result (λ found. found ≡
        all_some (box_of (kinds_back kinds.now) (classes_back classes.now)) (boxes_back items.now)) }
{
    let mut boxes = List::new(alloc);
    for item in items {
        match box_of(alloc, kinds, classes, item)? {
            Some(plan) => boxes.push(plan)?,
            None => return Ok(None),
        }
    }
    Ok(Some(boxes))
}

fn box_of(
    alloc: Global,
    kinds: &[KindPlan],
    classes: &[&Class],
    item: &BoxItem<'_>,
) -> Result<Option<BoxPlan>, NoMemory>
    ensures { IfOk result (λ found. found ≡
        box_of (kinds_back kinds.now) (classes_back classes.now) (box_back item.now)) }
{
    let Some(class) = class_number(classes, item.class)? else {
        return Ok(None);
    };
    match first_of(alloc, kinds, classes, item)? {
        Some(first) => Ok(Some(BoxPlan {
            name: item.name,
            class,
            first,
        })),
        None => Ok(None),
    }
}

// The first contents of a box.
fn first_of(
    alloc: Global,
    kinds: &[KindPlan],
    classes: &[&Class],
    item: &BoxItem<'_>,
) -> Result<Option<List<Entry>>, NoMemory>
    ensures { IfOk result (λ found. found ≡
        first_of (kinds_back kinds.now) (classes_back classes.now) (box_back item.now)) }
{
    match class_named(classes, item.class) {
        Some(class) => entries_of(alloc, kinds, item.first, class),
        None => Ok(None),
    }
}

fn class_number(classes: &[&Class], name: Name) -> Result<Option<u32>, NoMemory>
    ensures { IfOk result (λ found. found ≡ class_number (classes_back classes.now) name) }
{
    match class_place(classes, name) {
        Some(place) => numbered(place),
        None => Ok(None),
    }
}

/// The class of this name. None comes exactly where there is none. Linear in the classes.
#[tactic(auto, using(crate::proofs::PlaceLemmas::class_here))]
pub(crate) fn class_named<'a>(classes: &[&'a Class], name: Name) -> Option<&'a Class>
    ensures { option_map class_back result ≡ class_among (classes_back classes.now) name }
{
    match class_place(classes, name) {
        Some(place) => classes.get(place).copied(),
        None => None,
    }
}

#[tactic(auto, using(crate::proofs::PlaceLemmas::class_found))]
fn class_place(classes: &[&Class], name: Name) -> Option<usize>
    ensures { result ≡ class_number (classes_back classes.now) name }
{
    place_of_class(classes, name)
}

fn place_of_class(classes: &[&Class], name: Name) -> Option<usize>
    ensures { result ≡ position_from (λ class. same_name name class.now.name) 0 classes.now }
{
    classes.iter().position(|class| name == class.name)
}

// The entries rising and without repeats.
fn entries_of(
    alloc: Global,
    kinds: &[KindPlan],
    first: &[Atom],
    class: &Class,
) -> Result<Option<List<Entry>>, NoMemory>
    ensures { IfOk result (λ found. found ≡ contents_of (kinds_back kinds.now) first.now class.now) }
{
    match contents_of(alloc, kinds, first, class)? {
        Some(contents) => Ok(Some(listed(alloc, contents.entries())?)),
        None => Ok(None),
    }
}

fn listed(alloc: Global, entries: &[Entry]) -> Result<List<Entry>, NoMemory>
    ensures { IfOk result (λ listed. listed ≡ entries.now) }
{
    let mut listed = List::new(alloc);
    for entry in entries {
        listed.push(*entry)?;
    }
    Ok(listed)
}

#[tactic(auto, using(crate::proofs::PassLemmas::folded_more, crate::proofs::PassLemmas::folded_lost, crate::proofs::PassLemmas::folded_came))]
fn contents_of(
    alloc: Global,
    kinds: &[KindPlan],
    first: &[Atom],
    class: &Class,
) -> Result<Option<Contents>, NoMemory>
    ensures { IfOk result (λ found. found ≡ contents_of (kinds_back kinds.now) first.now class.now) }
{
    let mut contents = Contents::new(alloc);
    for atom in first {
        match entry_of(kinds, class, atom)? {
            Some(entry) => put(&mut contents, entry)?,
            None => return Ok(None),
        }
    }
    Ok(Some(contents))
}

fn put(contents: &mut Contents, entry: Entry) -> Result<(), NoMemory>
    ensures { OnOk result (contents.new ≡ with_entry contents.old entry) }
{
    contents.put(entry)?;
    Ok(())
}

// A tuple that a box of the class starts with.
fn entry_of(kinds: &[KindPlan], class: &Class, atom: &Atom) -> Result<Option<Entry>, NoMemory>
    ensures { IfOk result (λ found. found ≡ entry_of (kinds_back kinds.now) class.now atom.now) }
{
    match relation_number(class, atom.relation)? {
        Some(relation) => entry_with(kinds, class, atom.args.as_slice(), relation),
        None => Ok(None),
    }
}

#[tactic(auto, using(crate::proofs::PlaceLemmas::entry_here))]
fn entry_with(
    kinds: &[KindPlan],
    class: &Class,
    values: &[Name],
    number: u32,
) -> Result<Option<Entry>, NoMemory>
    ensures { IfOk result (λ found. found ≡ entry_with (kinds_back kinds.now) class.now values.now number) }
{
    match class.relations.as_slice().get(number as usize) {
        Some(relation) => entry_in(kinds, relation.kinds.as_slice(), values, number),
        None => Ok(None),
    }
}

fn entry_in(
    kinds: &[KindPlan],
    arguments: &[Name],
    values: &[Name],
    relation: u32,
) -> Result<Option<Entry>, NoMemory>
    ensures { IfOk result (λ found. found ≡ option_map (λ tuple. record { relation = relation; tuple = tuple })
        (tuple_of_values (kinds_back kinds.now) arguments.now values.now)) }
{
    match tuple_of_values(kinds, arguments, values)? {
        Some(tuple) => Ok(Some(Entry { relation, tuple })),
        None => Ok(None),
    }
}

#[tactic(auto, using(crate::proofs::PlaceLemmas::relation_found))]
fn relation_number(class: &Class, name: Name) -> Result<Option<u32>, NoMemory>
    ensures { IfOk result (λ found. found ≡ number_of (relation_names class.now) name) }
{
    match relation_place(class.relations.as_slice(), name) {
        Some(place) => numbered(place),
        None => Ok(None),
    }
}

fn relation_place(relations: &[Relation], name: Name) -> Option<usize>
    ensures { result ≡ position_from (λ relation. same_name name relation.name) 0 relations.now }
{
    relations.iter().position(|relation| name == relation.name)
}

// The number of a tuple over the types of these names: the mixed radix of its values, the first one most significant.
#[tactic(auto, using(crate::proofs::TupleLemmas::lengths_differ, crate::proofs::TupleLemmas::tuple_begun, crate::proofs::TupleLemmas::tuple_more, crate::proofs::TupleLemmas::kind_lost, crate::proofs::TupleLemmas::value_lost, crate::proofs::TupleLemmas::tuple_came))]
fn tuple_of_values(
    kinds: &[KindPlan],
    arguments: &[Name],
    values: &[Name],
) -> Result<Option<u32>, NoMemory>
    ensures { IfOk result (λ found. found ≡ tuple_of_values (kinds_back kinds.now) arguments.now values.now) }
{
    if arguments.len() != values.len() {
        return Ok(None);
    }
    let mut tuple = 0;
    for (place, argument) in arguments.iter().enumerate() {
        let Some(kind) = kind_named(kinds, *argument) else {
            return Ok(None);
        };
        let Some(value) = number_of(kind.values.as_slice(), values[place])? else {
            return Ok(None);
        };
        tuple = with_value(tuple, kind.values.as_slice().len(), value)?;
    }
    Ok(Some(tuple))
}

// One value more behind those of a tuple, of so many that there are. A tuple that doesn't fit 32 bits is refused as
// want of memory.
fn with_value(tuple: u32, values: usize, value: u32) -> Result<u32, NoMemory>
    ensures { IfOk result (λ next. next ≡ tuple * values + value) }
{
    let Ok(size) = u32::try_from(values) else {
        return Err(NoMemory);
    };
    let Some(shifted) = tuple.checked_mul(size) else {
        return Err(NoMemory);
    };
    match shifted.checked_add(value) {
        Some(next) => Ok(next),
        None => Err(NoMemory),
    }
}
