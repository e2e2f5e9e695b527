ghost use Rattle.std.specs.Prelude.{◌≡◌, IfOk};
ghost use Rattle.std.specs.Option.{option_map};
ghost use Rattle.amdl_tree.specs.Items.{kind_items, sends_items, forbid_items};
ghost use Rattle.net_plan.specs.Ends.{places_of};
ghost use Rattle.tree_plan.specs.Names.{joined, all_some};
ghost use Rattle.tree_plan.specs.Net.{field_of, field_names, class_by, host_of, box_of, classes_of, links_of};
ghost use Rattle.tree_plan.specs.Net.{nodes_plan, net, class_of};
ghost use Rattle.tree_plan.specs.Tables.{kinds_back};
ghost use Rattle.tree_network.specs.Reads.{fields_back, classes_back, boxes_back, AreNodesOf};

use crate::boxes::boxes_of;
use crate::classes::{class_of, classes_of};
use crate::fields::{field_names, fields_of, names_of};
use crate::items::{
    FieldItem, box_items, class_items, field_items, forbid_items, host_items, kinds_of, link_items,
    sends_items,
};
use crate::links::links_of;
use crate::nodes::Nodes;
use crate::patterns::hosts_of;
use amdl_tree::{Class, Item, List, NoMemory, Tree};
use net_plan::{BoxPlan, ClassPlan, FieldPlan, HostPlan, KindPlan, Plan};
use std::alloc::Global;
use tree_plan::Kinds;

/// The network that the items of a text spell. None comes exactly where a name that is looked up stands for nothing, or
/// a first tuple has another number of values than its relation has arguments.
///
/// What a host that isn't declared sends or must not get is left out, and so is the handler of a port that isn't
/// declared: no name in them is looked up. Linear in the text but for look-ups of names, each of which is linear in
/// what is looked through but for values, and for the queries of handlers, whose picks are expanded. A number that
/// doesn't fit 32 bits is refused as want of memory.
pub fn plan_of(alloc: Global, tree: &Tree) -> Result<Option<Plan>, NoMemory>
    ensures { IfOk result (λ plan. plan ≡ net tree.now) }
{
    let items = tree.items.as_slice();
    let classes = class_items(alloc, items)?;
    let hosts = host_items(alloc, items)?;
    let boxes = box_items(alloc, items)?;
    let nodes = Nodes {
        classes: classes.as_slice(),
        hosts: hosts.as_slice(),
        boxes: boxes.as_slice(),
    };
    match unlinked(alloc, tree, &nodes)? {
        Some(plan) => linked(alloc, items, &nodes, plan),
        None => Ok(None),
    }
}

// The plan with the links between its ends.
#[tactic(auto, using(crate::proofs::PlanLemmas::links_by))]
fn linked(
    alloc: Global,
    items: &[Item],
    nodes: &Nodes<'_>,
    plan: Plan,
) -> Result<Option<Plan>, NoMemory>
    requires { AreNodesOf items.now nodes.now }
    ensures { IfOk result (λ found. found ≡
        option_map (λ links. record plan { links = links }) (links_of items.now (places_of plan))) }
{
    let read = link_items(alloc, items)?;
    match links_of(alloc, nodes, &plan, read.as_slice())? {
        Some(links) => Ok(Some(Plan { links, ..plan })),
        None => Ok(None),
    }
}

// The plan but for its links.
#[tactic(auto, using(crate::proofs::PlanLemmas::plan_made, crate::proofs::PlanLemmas::seen_lost, crate::proofs::PlanLemmas::nodes_lost))]
fn unlinked(alloc: Global, tree: &Tree, nodes: &Nodes<'_>) -> Result<Option<Plan>, NoMemory>
    requires { AreNodesOf tree.now.items nodes.now }
    ensures { IfOk result (λ plan. plan ≡ nodes_plan tree.now (classes_of tree.now.items)) }
{
    let items = tree.items.as_slice();
    let kinds = kind_table(alloc, items)?;
    let read = field_items(alloc, items)?;
    let Some((fields, classes)) = seen_of(alloc, &kinds, read.as_slice(), nodes.classes)? else {
        return Ok(None);
    };
    let Some((hosts, boxes)) = nodes_of(alloc, kinds.plans(), read.as_slice(), items, nodes)? else {
        return Ok(None);
    };
    Ok(Some(Plan {
        name: tree.name,
        kinds: kinds.into_plans(),
        fields,
        classes,
        hosts,
        boxes,
        links: List::new(alloc),
    }))
}

/// The types of the items with the table of their values. Linear in the items and the values, but for logarithms.
pub fn kind_table(alloc: Global, items: &[Item]) -> Result<Kinds, NoMemory>
    ensures { IfOk result (λ kinds. kinds_back kinds ≡ kind_items items.now) }
{
    let plans = kinds_of(alloc, items)?;
    Kinds::new(alloc, plans)
}

/// A class by the types and the fields of these items. None comes exactly where a name in it stands for nothing.
///
/// The time is that of the table of the types, and of the numbered handlers and their queries.
pub fn class_plan(
    alloc: Global,
    items: &[Item],
    class: &Class,
) -> Result<Option<ClassPlan>, NoMemory>
    ensures { IfOk result (λ found. found ≡ class_of items.now class.now) }
{
    let kinds = kind_table(alloc, items)?;
    let fields = field_names(alloc, items)?;
    class_of(alloc, &kinds, fields.as_slice(), class)
}

// The fields and the classes.
fn seen_of(
    alloc: Global,
    kinds: &Kinds,
    fields: &[FieldItem],
    classes: &[&Class],
) -> Result<Option<(List<FieldPlan>, List<ClassPlan>)>, NoMemory>
    ensures { IfOk result (λ found. found ≡ joined (λ fields classes. (fields, classes))
        (all_some (field_of (kinds_back kinds.now)) (fields_back fields.now))
        (all_some (class_by (kinds_back kinds.now) (field_names (fields_back fields.now))) (classes_back classes.now))) }
{
    let names = names_of(alloc, fields)?;
    let Some(numbered) = fields_of(alloc, kinds.plans(), fields)? else {
        return Ok(None);
    };
    match classes_of(alloc, kinds, names.as_slice(), classes)? {
        Some(plans) => Ok(Some((numbered, plans))),
        None => Ok(None),
    }
}

// The hosts and the boxes.
fn nodes_of(
    alloc: Global,
    kinds: &[KindPlan],
    fields: &[FieldItem],
    items: &[Item],
    nodes: &Nodes<'_>,
) -> Result<Option<(List<HostPlan>, List<BoxPlan>)>, NoMemory>
    ensures { IfOk result (λ found. found ≡ joined (λ hosts boxes. (hosts, boxes))
        (all_some
        (host_of (kinds_back kinds.now) (fields_back fields.now) (sends_items items.now) (forbid_items items.now))
        nodes.now.hosts.now)
        (all_some (box_of (kinds_back kinds.now) (classes_back nodes.now.classes.now))
        (boxes_back nodes.now.boxes.now))) }
{
    let sends = sends_items(alloc, items)?;
    let forbids = forbid_items(alloc, items)?;
    let Some(hosts) = hosts_of(
        alloc,
        kinds,
        fields,
        sends.as_slice(),
        forbids.as_slice(),
        nodes.hosts,
    )?
    else {
        return Ok(None);
    };
    match boxes_of(alloc, kinds, nodes.classes, nodes.boxes)? {
        Some(boxes) => Ok(Some((hosts, boxes))),
        None => Ok(None),
    }
}
