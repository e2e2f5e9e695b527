ghost use Rattle.std.specs.Prelude.{◌≡◌, map, IfOk};
ghost use Rattle.std.specs.Option.{option_map};
ghost use Rattle.amdl_tree.specs.Items.{kind_item, field_item, class_item, host_item, box_item, link_item, sends_item};
ghost use Rattle.amdl_tree.specs.Items.{forbid_item};
ghost use Rattle.amdl_tree.specs.Items.{kind_items, field_items, class_items, host_items, box_items, link_items};
ghost use Rattle.amdl_tree.specs.Items.{sends_items, forbid_items};
ghost use Rattle.tree_plan.specs.Tables.{kinds_back};
ghost use Rattle.tree_network.specs.Reads.{read_kind, field_back, fields_back, class_back, classes_back, box_back};
ghost use Rattle.tree_network.specs.Reads.{boxes_back, link_back, links_back, pattern_back, patterns_back};

use crate::names::copied;
use amdl_tree::{Atom, Class, End, Equal, Item, List, Name, NoMemory};
use net_plan::KindPlan;
use std::alloc::Global;

/// A type with its values.
#[derive(Clone, Copy)]
pub(crate) struct KindItem<'a> {
    name: Name,
    values: &'a [Name],
}

/// A field with the name of its type.
#[derive(Clone, Copy)]
pub(crate) struct FieldItem {
    pub(crate) name: Name,
    pub(crate) kind: Name,
}

/// A box with the name of its class and its first tuples.
#[derive(Clone, Copy)]
pub(crate) struct BoxItem<'a> {
    pub(crate) name: Name,
    pub(crate) class: Name,
    pub(crate) first: &'a [Atom],
}

/// A link with its two ends.
#[derive(Clone, Copy)]
pub(crate) struct LinkItem {
    pub(crate) one: End,
    pub(crate) two: End,
}

/// What a host sends, or must not get.
#[derive(Clone, Copy)]
pub(crate) struct PatternItem<'a> {
    pub(crate) host: Name,
    pub(crate) pattern: &'a [Equal],
}

/// The types in their order, in time linear in the items and the values.
#[tactic(auto, using(crate::proofs::ItemLemmas::view_more, crate::proofs::ItemLemmas::view_skipped, crate::proofs::ItemLemmas::view_all))]
pub(crate) fn kinds_of(alloc: Global, items: &[Item]) -> Result<List<KindPlan>, NoMemory>
    ensures { IfOk result (λ kinds. kinds_back kinds ≡ kind_items items.now) }
{
    let mut kinds = List::new(alloc);
    for item in items {
        if let Some(kind) = kind_item(item) {
            let values = copied(alloc, kind.values)?;
            kinds.push(KindPlan {
                name: kind.name,
                values,
            })?;
        }
    }
    Ok(kinds)
}

fn kind_item(item: &Item) -> Option<KindItem<'_>>
    ensures { option_map read_kind result ≡ kind_item item.now }
{
    match item {
        Item::Kind { name, values } => Some(KindItem {
            name: *name,
            values: values.as_slice(),
        }),
        _ => None,
    }
}

/// The fields in their order, in time linear in the items.
#[tactic(auto, using(crate::proofs::ItemLemmas::view_more, crate::proofs::ItemLemmas::view_skipped, crate::proofs::ItemLemmas::view_all))]
pub(crate) fn field_items(alloc: Global, items: &[Item]) -> Result<List<FieldItem>, NoMemory>
    ensures { IfOk result (λ fields. fields_back fields ≡ field_items items.now) }
{
    let mut fields = List::new(alloc);
    for item in items {
        if let Some(field) = field_item(item) {
            fields.push(field)?;
        }
    }
    Ok(fields)
}

fn field_item(item: &Item) -> Option<FieldItem>
    ensures { option_map field_back result ≡ field_item item.now }
{
    match item {
        Item::Field { name, kind } => Some(FieldItem {
            name: *name,
            kind: *kind,
        }),
        _ => None,
    }
}

/// The classes in their order, in time linear in the items.
#[tactic(auto, using(crate::proofs::ItemLemmas::view_more, crate::proofs::ItemLemmas::view_skipped, crate::proofs::ItemLemmas::view_all))]
pub(crate) fn class_items<'a>(alloc: Global, items: &'a [Item]) -> Result<List<&'a Class>, NoMemory>
    ensures { IfOk result (λ classes. classes_back classes ≡ class_items items.now) }
{
    let mut classes = List::new(alloc);
    for item in items {
        if let Some(class) = class_item(item) {
            classes.push(class)?;
        }
    }
    Ok(classes)
}

fn class_item(item: &Item) -> Option<&Class>
    ensures { option_map class_back result ≡ class_item item.now }
{
    match item {
        Item::Class(class) => Some(class),
        _ => None,
    }
}

/// The hosts in their order, in time linear in the items.
#[tactic(auto, using(crate::proofs::ItemLemmas::plain_more, crate::proofs::ItemLemmas::plain_skipped, crate::proofs::ItemLemmas::plain_all))]
pub(crate) fn host_items(alloc: Global, items: &[Item]) -> Result<List<Name>, NoMemory>
    ensures { IfOk result (λ hosts. hosts ≡ host_items items.now) }
{
    let mut hosts = List::new(alloc);
    for item in items {
        if let Some(host) = host_item(item) {
            hosts.push(host)?;
        }
    }
    Ok(hosts)
}

fn host_item(item: &Item) -> Option<Name>
    ensures { result ≡ host_item item.now }
{
    match item {
        Item::Host { name } => Some(*name),
        _ => None,
    }
}

/// The boxes in their order, in time linear in the items.
#[tactic(auto, using(crate::proofs::ItemLemmas::view_more, crate::proofs::ItemLemmas::view_skipped, crate::proofs::ItemLemmas::view_all))]
pub(crate) fn box_items<'a>(alloc: Global, items: &'a [Item]) -> Result<List<BoxItem<'a>>, NoMemory>
    ensures { IfOk result (λ boxes. boxes_back boxes ≡ box_items items.now) }
{
    let mut boxes = List::new(alloc);
    for item in items {
        if let Some(found) = box_item(item) {
            boxes.push(found)?;
        }
    }
    Ok(boxes)
}

fn box_item(item: &Item) -> Option<BoxItem<'_>>
    ensures { option_map box_back result ≡ box_item item.now }
{
    match item {
        Item::Instance { name, class, first } => Some(BoxItem {
            name: *name,
            class: *class,
            first: first.as_slice(),
        }),
        _ => None,
    }
}

/// The links in their order, in time linear in the items.
#[tactic(auto, using(crate::proofs::ItemLemmas::view_more, crate::proofs::ItemLemmas::view_skipped, crate::proofs::ItemLemmas::view_all))]
pub(crate) fn link_items(alloc: Global, items: &[Item]) -> Result<List<LinkItem>, NoMemory>
    ensures { IfOk result (λ links. links_back links ≡ link_items items.now) }
{
    let mut links = List::new(alloc);
    for item in items {
        if let Some(link) = link_item(item) {
            links.push(link)?;
        }
    }
    Ok(links)
}

fn link_item(item: &Item) -> Option<LinkItem>
    ensures { option_map link_back result ≡ link_item item.now }
{
    match item {
        Item::Link { one, two } => Some(LinkItem {
            one: *one,
            two: *two,
        }),
        _ => None,
    }
}

/// What hosts may send in the order of the text, in time linear in the items.
#[tactic(auto, using(crate::proofs::ItemLemmas::view_more, crate::proofs::ItemLemmas::view_skipped, crate::proofs::ItemLemmas::view_all))]
pub(crate) fn sends_items<'a>(
    alloc: Global,
    items: &'a [Item],
) -> Result<List<PatternItem<'a>>, NoMemory>
    ensures { IfOk result (λ patterns. patterns_back patterns ≡ sends_items items.now) }
{
    let mut patterns = List::new(alloc);
    for item in items {
        if let Some(pattern) = sends_item(item) {
            patterns.push(pattern)?;
        }
    }
    Ok(patterns)
}

fn sends_item(item: &Item) -> Option<PatternItem<'_>>
    ensures { option_map pattern_back result ≡ sends_item item.now }
{
    match item {
        Item::Sends { host, pattern } => Some(PatternItem {
            host: *host,
            pattern: pattern.as_slice(),
        }),
        _ => None,
    }
}

/// What hosts must not get in the order of the text, in time linear in the items.
#[tactic(auto, using(crate::proofs::ItemLemmas::view_more, crate::proofs::ItemLemmas::view_skipped, crate::proofs::ItemLemmas::view_all))]
pub(crate) fn forbid_items<'a>(
    alloc: Global,
    items: &'a [Item],
) -> Result<List<PatternItem<'a>>, NoMemory>
    ensures { IfOk result (λ patterns. patterns_back patterns ≡ forbid_items items.now) }
{
    let mut patterns = List::new(alloc);
    for item in items {
        if let Some(pattern) = forbid_item(item) {
            patterns.push(pattern)?;
        }
    }
    Ok(patterns)
}

fn forbid_item(item: &Item) -> Option<PatternItem<'_>>
    ensures { option_map pattern_back result ≡ forbid_item item.now }
{
    match item {
        Item::Forbid { host, pattern } => Some(PatternItem {
            host: *host,
            pattern: pattern.as_slice(),
        }),
        _ => None,
    }
}
