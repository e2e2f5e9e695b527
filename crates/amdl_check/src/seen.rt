ghost use Rattle.std.specs.Prelude.{◌≡◌, ◌∷◌, [], ◌++◌, Some, None, if◌then◌else◌, IfOk, OnOk};
ghost use Rattle.std.specs.List.{All};
ghost use Rattle.amdl_tree.specs.declared.tree.Item.TheVariants.{Host, Instance};
ghost use Rattle.amdl_tree.specs.WellBuilt.{IsBuiltItem};
ghost use Rattle.tree_rules.specs.Checked.{KeepsEach, first_rule};
ghost use Rattle.amdl_check.specs.Seeing.{HasSeen};

use amdl_tree::{Atom, Item, Name, NoMemory};
use cell_counts::Counted;
use class_rules::class_rule;
use declared_names::Declared;
use item_rules::{
    box_rule, cells_come_last, field_rule, forbid_rule, host_rule, kind_rule, link_rule, sends_rule,
};
use std::alloc::Global;
use tree_rules::Rule;

/// What is known of the items that were gone through.
#[derive(Drop)]
pub(crate) struct Seen {
    pub(crate) declared: Declared,
    pub(crate) counted: Counted,
}

impl Seen {
    /// What is known of no item.
    pub(crate) fn new(alloc: Global) -> Seen
        ensures { HasSeen [] result }
    {
        Seen {
            declared: Declared::new(alloc),
            counted: Counted::new(alloc),
        }
    }

    /// The first rule that holds of an item behind these. None comes exactly where none does.
    ///
    /// Linear in the item and in those before it, and for a class in its expanded picks.
    pub(crate) fn first_rule(
        &self,
        alloc: Global,
        before: &[Item],
        item: &Item,
    ) -> Result<Option<Rule>, NoMemory>
        requires { HasSeen before.now self.now }
        ensures { IfOk result (λ found. found ≡ first_rule before.now item.now) }
    {
        let declared = &self.declared;
        match item {
            Item::Kind { name, values } => {
                kind_rule(alloc, declared, before, *name, values.as_slice())
            }
            Item::Field { name, kind } => Ok(field_rule(declared, before, *name, *kind)),
            Item::Class(class) => class_rule(alloc, declared, before, class),
            Item::Host { name } => Ok(self.host_rule(before, *name)),
            Item::Instance { name, class, first } => {
                Ok(self.box_rule(before, *name, *class, first.as_slice()))
            }
            Item::Link { one, two } => Ok(link_rule(before, one, two)),
            Item::Sends { host, pattern } => {
                sends_rule(alloc, declared, before, *host, pattern.as_slice())
            }
            Item::Forbid { host, pattern } => {
                forbid_rule(alloc, declared, before, *host, pattern.as_slice())
            }
        }
    }

    // The first rule that holds of a host: the one on cells is the last.
    fn host_rule(&self, before: &[Item], name: Name) -> Option<Rule>
        requires { HasSeen before.now self.now }
        ensures { result ≡ first_rule before.now (Host name) }
    {
        cells_come_last();
        match host_rule(before, name) {
            Some(rule) => Some(rule),
            None => cells_rule(self.counted.host_overfills()),
        }
    }

    fn box_rule(&self, before: &[Item], name: Name, class: Name, first: &[Atom]) -> Option<Rule>
        requires { HasSeen before.now self.now }
        ensures { result ≡ first_rule before.now (Instance name class first.now) }
    {
        cells_come_last();
        match box_rule(&self.declared, before, name, class, first) {
            Some(rule) => Some(rule),
            None => cells_rule(self.counted.box_overfills(class)),
        }
    }

    /// Adds an item behind these, which keeps the rules. Linear in the item, for a field in the types before it, and
    /// for a class in its expanded picks.
    pub(crate) fn add(
        &mut self,
        alloc: Global,
        before: &[Item],
        item: &Item,
    ) -> Result<(), NoMemory>
        requires seen { HasSeen before.now self.old }
        requires keeps { KeepsEach (before.now ++ item.now ∷ []) }
        requires built { All IsBuiltItem (before.now ++ item.now ∷ []) }
        ensures { OnOk result (HasSeen (before.now ++ item.now ∷ []) self.new) }
    {
        self.declared.add(item)?;
        self.counted.add(alloc, before, item)
    }
}

// The rule on cells, where there are too many.
fn cells_rule(overfull: bool) -> Option<Rule>
    ensures { result ≡ (if overfull then Some Rule.TooManyCells else None) }
{
    if overfull {
        return Some(Rule::TooManyCells);
    }
    None
}
