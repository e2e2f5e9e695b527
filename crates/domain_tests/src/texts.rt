//! Networks of texts.
ghost use Rattle.amdl_tree.specs.WellBuilt.{IsShaped};

use amdl_check::check;
use amdl_tree::{NoMemory, Tree};
use net_plan::Network;
use network_file::read;
use std::alloc::Global;

/// The network of a text, where it is one.
pub(crate) fn network_of(alloc: Global, text: &str) -> Result<Option<Network>, NoMemory> {
    if text.len() > 4_194_304 {
        return Ok(None);
    }
    let reading = read(alloc, text.as_bytes())?;
    match reading {
        Ok(tree) => Ok(network_of_tree(alloc, &tree)),
        Err(_) => Ok(None),
    }
}

fn network_of_tree(alloc: Global, tree: &Tree) -> Option<Network>
    requires { IsShaped tree.now }
{
    match check(alloc, tree) {
        Ok(net) => Some(net),
        Err(_) => None,
    }
}
