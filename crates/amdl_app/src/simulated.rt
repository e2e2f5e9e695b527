//! Networks that are to be simulated.
ghost use Rattle.std.specs.Prelude.{◌≡◌, ◌≤◌, length, IfOk};
ghost use Rattle.amdl_tree.specs.WellBuilt.{IsShaped};
ghost use Rattle.amdl_check.specs.Checking.{IsNetworkOf};
ghost use Rattle.concrete_net.specs.Sizes.{argument_sizes};
ghost use Rattle.amdl_app.specs.Spelled.{ComesTo, IsCheckedAs};

use crate::spelling::{network_of_tree, network_refusal};
use amdl_tree::{NoMemory, Tree};
use concrete_net::Arguments;
use net_plan::Network;
use network_file::read;
use plan_text::NetworkRefusal;
use std::alloc::Global;
use std::marker::Model;
use tree_network::plan_of;

/// A network with the sizes of the arguments of its relations, by which its steps read tuples. Contracts see it as the
/// plan of the network.
#[derive(Drop)]
pub struct Simulated {
    network: Network,
    arguments: Arguments,
}

impl Model for Simulated {
    ghost use Rattle.std.specs.Prelude.{◌≡◌};
    ghost use Rattle.std.specs.Coded.{codes};
    ghost use Rattle.box_handlers.specs.contracts.act.Act as act;
    ghost use Rattle.net_plan.specs.declared.plan.Plan.{Plan};
    ghost use Rattle.concrete_net.specs.Sizes.{argument_sizes};

    ghost Value = { Plan };

    ghost coded = { Prim.hlevel (codes, act.the_row.coded) };

    ghost view = { λ simulated. simulated.network };

    ghost invariant = { λ simulated. simulated.arguments ≡ argument_sizes simulated.network };
}

impl Simulated {
    /// The network.
    pub fn network(&self) -> &Network
        ensures { result.now ≡ self.now }
    {
        &self.network
    }

    /// The sizes of the arguments of its relations.
    pub fn arguments(&self) -> &Arguments
        ensures { result.now ≡ argument_sizes self.now }
    {
        &self.arguments
    }
}

/// The network that a text of at most 4,194,304 bytes spells, to be simulated, or why the text is refused: as
/// `network_of`, with the plan made once more.
pub fn simulated_of(
    alloc: Global,
    text: &[u8],
) -> Result<Result<Simulated, NetworkRefusal>, NoMemory>
    requires { length text.now ≤ 4194304 }
    ensures { IfOk result (ComesTo text.now) }
{
    let reading = read(alloc, text)?;
    match reading {
        Ok(tree) => simulated_of_tree(alloc, &tree),
        Err(refusal) => Ok(Err(network_refusal(refusal))),
    }
}

// The same of the tree that a text spells.
fn simulated_of_tree(
    alloc: Global,
    tree: &Tree,
) -> Result<Result<Simulated, NetworkRefusal>, NoMemory>
    requires { IsShaped tree.now }
    ensures { IfOk result (IsCheckedAs tree.now) }
{
    let found = network_of_tree(alloc, tree)?;
    match found {
        Ok(network) => with_arguments(alloc, tree, network),
        Err(refusal) => Ok(Err(refusal)),
    }
}

// The network of a tree with the sizes of its arguments, which its plan tells.
fn with_arguments(
    alloc: Global,
    tree: &Tree,
    network: Network,
) -> Result<Result<Simulated, NetworkRefusal>, NoMemory>
    requires { IsNetworkOf tree.now network }
    ensures { IfOk result (IsCheckedAs tree.now) }
{
    // The tree has a plan, since the network has it.
    let Some(plan) = plan_of(alloc, tree)? else {
        return Err(NoMemory);
    };
    let arguments = Arguments::new(alloc, &plan)?;
    Ok(Ok(Simulated { network, arguments }))
}
