ghost use Rattle.std.specs.Prelude.{◌≡◌, ◌≤◌, ◌+◌, ◌*◌, ◌^◌, [], ◌∷◌, ◌++◌, ℕ, List, Some, length, nat_lt};
ghost use Rattle.std.specs.Prelude.{IfOk, OnOk, slice_get};
ghost use Rattle.std.specs.List.{All, position};
ghost use Rattle.std.specs.Option.{option_and_then};
ghost use Rattle.amdl_tree.specs.declared.guard.Atom.{Atom};
ghost use Rattle.amdl_tree.specs.declared.tree.Item.{Item as AnItem};
ghost use Rattle.amdl_tree.specs.declared.tree.Item.TheVariants.{Field, Class as OfClass, Host, Instance};
ghost use Rattle.amdl_tree.specs.WellBuilt.{IsBuiltItem};
ghost use Rattle.amdl_tree.specs.Items.{kind_items};
ghost use Rattle.tree_plan.specs.Names.{same_name, values_named};
ghost use Rattle.tree_rules.specs.Checked.{KeepsEach};
ghost use Rattle.tree_rules.specs.Rules.{box_cells, too_many_cells};
ghost use Rattle.cell_counts.specs.Counts.{IsCountOf};

use amdl_tree::{Class, Item, List, Name, NoMemory};
use name_tables::NameTable;
use net_plan::ClassPlan;
use std::alloc::Global;
use tree_network::{class_plan, kind_table};
use tree_plan::values_named;
use tree_soundness::cells_are_counted;

/// The most cells that a network may have.
const MOST_CELLS: u64 = 4_194_304;

/// The counts by which the cells of a text are told while its items are gone through in their order.
#[derive(Drop)]
pub struct Counted {
    // how many packets there are
    packets: u32,
    // the hosts, and the cells that all boxes have for each packet
    nodes: u32,
    // the classes, and the cells that a box of each of them has for each packet
    classes: NameTable,
    cells: List<u32>,
}

impl Counted {
    /// The counts of no item.
    pub fn new(alloc: Global) -> Counted
        ensures { IsCountOf [] result }
    {
        cells_are_counted();
        Counted {
            packets: 1,
            nodes: 0,
            classes: NameTable::new(alloc),
            cells: List::new(alloc),
        }
    }

    /// Whether there would be too many cells with a host behind the counted items. Constant time.
    pub fn host_overfills(&self) -> bool
        ensures { (before : List AnItem) (name : List ℕ) → IsCountOf before self.now →
            result ≡ too_many_cells before (Host name) }
    {
        cells_are_counted();
        self.overfills(1)
    }

    /// Whether there would be too many cells with a box of this class behind the counted items. Constant time.
    pub fn box_overfills(&self, class: Name) -> bool
        ensures { (before : List AnItem) (name : List ℕ) (first : List Atom) → IsCountOf before self.now →
            result ≡ too_many_cells before (Instance name class first) }
    {
        cells_are_counted();
        match self.cells_of(class) {
            Some(count) => self.overfills(count),
            None => false,
        }
    }

    fn overfills(&self, more: u32) -> bool
        ensures { result ≡ nat_lt 4194304 (self.now.packets * (self.now.nodes + more)) }
    {
        let nodes = u64::from(self.nodes) + u64::from(more);
        MOST_CELLS < u64::from(self.packets).saturating_mul(nodes)
    }

    // The cells that a box of this class has for each packet.
    fn cells_of(&self, class: Name) -> Option<u32>
        ensures { result ≡ option_and_then (slice_get self.now.cells) (position (same_name class) self.now.classes) }
    {
        match self.classes.place(class) {
            Some(place) => self.cells.as_slice().get(place).copied(),
            None => None,
        }
    }

    /// Counts an item behind these, which keeps the rules.
    ///
    /// For a field linear in the types before it, for a class linear in the class and its expanded picks, and else
    /// constant time. A count that doesn't fit 32 bits is refused as want of memory.
    pub fn add(&mut self, alloc: Global, before: &[Item], item: &Item) -> Result<(), NoMemory>
        requires counts { IsCountOf before.now self.old }
        requires keeps { KeepsEach (before.now ++ item.now ∷ []) }
        requires built { All IsBuiltItem (before.now ++ item.now ∷ []) }
        ensures { OnOk result (IsCountOf (before.now ++ item.now ∷ []) self.new) }
    {
        cells_are_counted();
        match item {
            Item::Field { name, kind } => self.add_field(alloc, before, *name, *kind),
            Item::Class(class) => self.add_class(alloc, before, class),
            Item::Host { .. } => self.add_nodes(1),
            Item::Instance { class, .. } => self.add_box(*class),
            _ => Ok(()),
        }
    }

    fn add_field(
        &mut self,
        alloc: Global,
        before: &[Item],
        name: Name,
        kind: Name,
    ) -> Result<(), NoMemory>
        requires counts { IsCountOf before.now self.old }
        requires keeps { KeepsEach (before.now ++ Field name kind ∷ []) }
        ensures { OnOk result (IsCountOf (before.now ++ Field name kind ∷ []) self.new) }
    {
        cells_are_counted();
        match kind_size(alloc, before, kind)? {
            Some(size) => self.add_size(size),
            None => Ok(()),
        }
    }

    fn add_size(&mut self, size: u32) -> Result<(), NoMemory>
        ensures { OnOk result (self.new ≡ record self.old { packets = self.old.packets * size }) }
    {
        match self.packets.checked_mul(size) {
            Some(packets) => {
                self.packets = packets;
                Ok(())
            }
            None => Err(NoMemory),
        }
    }

    fn add_class(&mut self, alloc: Global, before: &[Item], class: &Class) -> Result<(), NoMemory>
        requires counts { IsCountOf before.now self.old }
        requires keeps { KeepsEach (before.now ++ OfClass class.now ∷ []) }
        requires built { All IsBuiltItem (before.now ++ OfClass class.now ∷ []) }
        ensures { OnOk result (IsCountOf (before.now ++ OfClass class.now ∷ []) self.new) }
    {
        cells_are_counted();
        match class_plan(alloc, before, class)? {
            Some(plan) => {
                let count = cells_of_box(&plan)?;
                self.classes.put(class.name)?;
                self.cells.push(count)
            }
            None => Ok(()),
        }
    }

    fn add_box(&mut self, class: Name) -> Result<(), NoMemory>
        ensures { OnOk result ((count : ℕ) →
            option_and_then (slice_get self.old.cells) (position (same_name class) self.old.classes) ≡ Some count →
            self.new ≡ record self.old { nodes = self.old.nodes + count }) }
    {
        match self.cells_of(class) {
            Some(count) => self.add_nodes(count),
            None => Ok(()),
        }
    }

    fn add_nodes(&mut self, count: u32) -> Result<(), NoMemory>
        ensures { OnOk result (self.new ≡ record self.old { nodes = self.old.nodes + count }) }
    {
        match self.nodes.checked_add(count) {
            Some(nodes) => {
                self.nodes = nodes;
                Ok(())
            }
            None => Err(NoMemory),
        }
    }
}

// How many values the type of this name has among these items. None comes exactly where there is no such type.
fn kind_size(alloc: Global, items: &[Item], kind: Name) -> Result<Option<u32>, NoMemory>
    ensures { IfOk result (λ found. found ≡ values_named (kind_items items.now) kind) }
{
    let kinds = kind_table(alloc, items)?;
    values_named(kinds.plans(), kind)
}

// The cells that a box of the class has for each packet: its ends, its masks and one more.
fn cells_of_box(plan: &ClassPlan) -> Result<u32, NoMemory>
    requires { length plan.now.queries ≤ 12 }
    ensures { IfOk result (λ count. count ≡ box_cells plan.now) }
{
    let masks = mask_count(plan.queries.as_slice().len());
    let Ok(ports) = u32::try_from(plan.ports.as_slice().len()) else {
        return Err(NoMemory);
    };
    match ports.checked_add(masks + 1) {
        Some(count) => Ok(count),
        None => Err(NoMemory),
    }
}

fn mask_count(queries: usize) -> u32
    requires { queries ≤ 12 }
    ensures masks { result ≡ 2 ^ queries }
    ensures few { result ≤ 4096 }
{
    2u32.pow(queries as u32)
}
