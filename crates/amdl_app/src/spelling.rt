//! The network that a text spells.
ghost use Rattle.std.specs.Prelude.{◌≡◌, ◌≤◌, length, Result, Ok, Err, IfOk};
ghost use Rattle.amdl_tree.specs.WellBuilt.{IsShaped};
ghost use Rattle.amdl_app.specs.Spelled.{ComesTo, IsCheckedAs, refusal_of};

use amdl_check::{CheckRefusal, check};
use amdl_tree::{NoMemory, Tree};
use net_plan::Network;
use network_file::{ReadRefusal, read};
use plan_text::NetworkRefusal;
use std::alloc::Global;

/// The network that a text of at most 4,194,304 bytes spells, or why the text is refused. The text is read before it is
/// checked, so a fault of its tokens goes before one of its items. Want of memory is the one error.
pub fn network_of(alloc: Global, text: &[u8]) -> Result<Result<Network, NetworkRefusal>, NoMemory>
    requires { length text.now ≤ 4194304 }
    ensures { IfOk result (ComesTo text.now) }
{
    let reading = read(alloc, text)?;
    match reading {
        Ok(tree) => network_of_tree(alloc, &tree),
        Err(refusal) => Ok(Err(network_refusal(refusal))),
    }
}

/// The network that the items of a tree spell, or why they are refused.
pub fn network_of_tree(
    alloc: Global,
    tree: &Tree,
) -> Result<Result<Network, NetworkRefusal>, NoMemory>
    requires { IsShaped tree.now }
    ensures { IfOk result (IsCheckedAs tree.now) }
{
    match check(alloc, tree) {
        Ok(network) => Ok(Ok(network)),
        Err(CheckRefusal::At { item, rule }) => Ok(Err(NetworkRefusal::BrokenRule { item, rule })),
        Err(CheckRefusal::NoMemory) => Err(NoMemory),
    }
}

/// Why a text that is no network file is refused.
pub fn network_refusal(refusal: ReadRefusal) -> NetworkRefusal
    ensures { result ≡ refusal_of refusal }
{
    match refusal {
        ReadRefusal::BadByte(at) => NetworkRefusal::BadByte(at),
        ReadRefusal::WordTooLong(at) => NetworkRefusal::WordTooLong(at),
        ReadRefusal::TooManyTokens => NetworkRefusal::TooManyTokens,
        ReadRefusal::Syntax(at) => NetworkRefusal::Syntax(at),
        ReadRefusal::Deep(at) => NetworkRefusal::Deep(at),
    }
}
