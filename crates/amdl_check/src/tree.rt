ghost use Rattle.std.specs.Prelude.{◌≡◌, ℕ, Some, Ok, Err};
ghost use Rattle.amdl_tree.specs.WellBuilt.{IsShaped};
ghost use Rattle.net_plan.specs.declared.plan.Plan.{Plan as APlan};
ghost use Rattle.net_plan.specs.Sound.{IsSound};
ghost use Rattle.tree_plan.specs.Net.{net};
ghost use Rattle.tree_rules.specs.declared.rule.Rule.{Rule as ARule};
ghost use Rattle.tree_rules.specs.Checked.{IsWellFormed, IsRefusedAt};
ghost use Rattle.amdl_check.specs.Checking.{IsChecked, IsOrNoMemory};

use crate::fault::fault_of;
use crate::refusal::CheckRefusal;
use amdl_tree::{NoMemory, Tree};
use net_plan::{Network, Plan};
use std::alloc::Global;
use tree_network::plan_of;
use tree_rules::{Rule, one_answer};
use tree_soundness::well_formed_is_sound;

/// The network that the items of a tree spell, where they are well formed, and else the first item of which a rule
/// holds with the items before it, and the first rule that holds of it.
///
/// Linear in the tree but for look-ups of names among what the rules allow to be declared, and for the queries of
/// classes, whose picks are expanded; no picks are expanded of a handler with too many paths.
pub fn check(alloc: Global, tree: &Tree) -> Result<Network, CheckRefusal>
    requires { IsShaped tree.now }
    ensures checked { IsChecked tree.now result }

    // Each answer also comes wherever the items have its cause, unless memory runs out.
    ensures accepted { IsWellFormed tree.now.items → (plan : APlan) → net tree.now ≡ Some plan →
        IsOrNoMemory result (Ok plan) }
    ensures refused { (item : ℕ) (rule : ARule) → IsRefusedAt tree.now.items item rule →
        IsOrNoMemory result (Err (CheckRefusal.At item rule)) }
{
    one_answer();
    check_items(alloc, tree)
}

fn check_items(alloc: Global, tree: &Tree) -> Result<Network, CheckRefusal>
    requires { IsShaped tree.now }
    ensures { IsChecked tree.now result }
{
    match fault_of(alloc, tree.items.as_slice()) {
        Ok(None) => network_of(alloc, tree),
        Ok(Some((item, rule))) => refused_at(item, rule),
        Err(NoMemory) => Err(CheckRefusal::NoMemory),
    }
}

// A number of an item that doesn't fit 32 bits is refused as want of memory.
fn refused_at(item: usize, rule: Rule) -> Result<Network, CheckRefusal>
    ensures { IsOrNoMemory result (Err (CheckRefusal.At item rule)) }
{
    match u32::try_from(item) {
        Ok(item) => Err(CheckRefusal::At { item, rule }),
        Err(_) => Err(CheckRefusal::NoMemory),
    }
}

// The network of a well-formed tree, which has a plan by the law.
fn network_of(alloc: Global, tree: &Tree) -> Result<Network, CheckRefusal>
    requires shaped { IsShaped tree.now }
    requires formed { IsWellFormed tree.now.items }
    ensures { IsChecked tree.now result }
{
    well_formed_is_sound();
    match plan_of(alloc, tree) {
        Ok(Some(plan)) => network_with(alloc, plan),
        Ok(None) => Err(CheckRefusal::NoMemory),
        Err(NoMemory) => Err(CheckRefusal::NoMemory),
    }
}

fn network_with(alloc: Global, plan: Plan) -> Result<Network, CheckRefusal>
    requires { IsSound plan }
    ensures { IsOrNoMemory result (Ok plan) }
{
    match Network::new(alloc, plan) {
        Ok(network) => Ok(network),
        Err(NoMemory) => Err(CheckRefusal::NoMemory),
    }
}
