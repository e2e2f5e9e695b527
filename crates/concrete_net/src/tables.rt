//! What a first state consists of.
ghost use Rattle.std.specs.Prelude.{◌≡◌, ◌<◌, [], length, map, replicate, IfOk};
ghost use Rattle.net_plan.specs.Plan.{boxes_of, box_at};
ghost use Rattle.net_plan.specs.Ends.{ends_of};

use amdl_tree::{List, NoMemory};
use box_contents::{Contents, held_with, rising_is_settled};
use net_plan::Network;
use std::alloc::Global;

/// An empty channel for each end.

pub(crate) fn empty_channels(alloc: Global, net: &Network) -> Result<List<List<u32>>, NoMemory>
    ensures { IfOk result (λ channels. channels ≡ replicate (ends_of net.now) []) }
{
    let mut channels = List::new(alloc);
    for end in 0..net.ends() {
        channels.push(List::new(alloc))?;
    }
    Ok(channels)
}

/// The first contents of each box.
pub(crate) fn first_contents(alloc: Global, net: &Network) -> Result<List<Contents>, NoMemory>
    ensures { IfOk result (λ contents. contents ≡ map (λ box. box.first) net.now.boxes) }
{
    let mut contents = List::new(alloc);
    for b in 0..net.boxes() {
        contents.push(contents_of(alloc, net, b)?)?;
    }
    Ok(contents)
}

/// The first contents of a box.
#[tactic(auto, using(crate::proofs::TableLemmas::held_more, crate::proofs::TableLemmas::settled))]
pub(crate) fn contents_of(alloc: Global, net: &Network, b: u32) -> Result<Contents, NoMemory>
    requires { b < boxes_of net.now }
    ensures { IfOk result (λ contents. contents ≡ (box_at net.now b).first) }
{
    held_with();
    rising_is_settled();
    let entries = net.first_entries(b);
    let mut contents = Contents::new(alloc);
    for entry in entries {
        contents.put(*entry)?;
    }
    let _rising = contents.entries();
    Ok(contents)
}
