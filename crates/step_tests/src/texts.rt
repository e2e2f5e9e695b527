//! Networks of texts.
ghost use Rattle.std.specs.Prelude.{◌≡◌, MatchOption, IfOk};
ghost use Rattle.amdl_tree.specs.WellBuilt.{IsShaped};
ghost use Rattle.amdl_check.specs.Checking.{IsNetworkOf};

use amdl_check::check;
use amdl_tree::{NoMemory, Tree};
use net_plan::{Network, Plan};
use network_file::read;
use std::alloc::Global;
use tree_network::plan_of;

/// The network of a text, where it is one.
pub(crate) fn network_of(alloc: Global, text: &str) -> Result<Option<Network>, NoMemory> {
    match planned_of(alloc, text)? {
        Some(planned) => Ok(Some(planned.net)),
        None => Ok(None),
    }
}

/// A network with its plan.
#[derive(Drop)]
pub(crate) struct Planned {
    pub(crate) net: Network,
    pub(crate) plan: Plan,
}

/// The network of a text with its plan, where it is one.
pub(crate) fn planned_of(alloc: Global, text: &str) -> Result<Option<Planned>, NoMemory>
    ensures { IfOk result (λ found. MatchOption found (Unit {0}) (λ planned. planned.net ≡ planned.plan)) }
{
    if text.len() > 4_194_304 {
        return Ok(None);
    }
    let reading = read(alloc, text.as_bytes())?;
    match reading {
        Ok(tree) => planned_of_tree(alloc, &tree),
        Err(_) => Ok(None),
    }
}

fn planned_of_tree(alloc: Global, tree: &Tree) -> Result<Option<Planned>, NoMemory>
    requires { IsShaped tree.now }
    ensures { IfOk result (λ found. MatchOption found (Unit {0}) (λ planned. planned.net ≡ planned.plan)) }
{
    match check(alloc, tree) {
        Ok(net) => with_plan(alloc, tree, net),
        Err(_) => Ok(None),
    }
}

// The network with its plan, which is that of the tree.
fn with_plan(alloc: Global, tree: &Tree, net: Network) -> Result<Option<Planned>, NoMemory>
    requires { IsNetworkOf tree.now net }
    ensures { IfOk result (λ found. MatchOption found (Unit {0}) (λ planned. planned.net ≡ planned.plan)) }
{
    match plan_of(alloc, tree)? {
        Some(plan) => Ok(Some(Planned { net, plan })),
        None => Ok(None),
    }
}
