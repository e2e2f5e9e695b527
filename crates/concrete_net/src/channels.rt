//! What is put into channels and taken out of them.
ghost use Rattle.std.specs.Prelude.{◌≡◌, ◌<◌, length, OnOk, OnErr};
ghost use Rattle.net_plan.specs.Ends.{ends_of};
ghost use Rattle.concrete_net.specs.PutOut.{IsPushed, PutsOutThere};

use amdl_tree::{List, NoMemory};
use net_plan::Network;
use std::alloc::Global;

/// A packet is put out at an end: it goes last into the channel out of the end, and nowhere where the end has no link.
#[tactic(auto, using(crate::proofs::ChannelLemmas::goes_nowhere))]
pub(crate) fn put_out(
    alloc: Global,
    net: &Network,
    waiting: &mut List<List<u32>>,
    end: u32,
    packet: u32,
) -> Result<(), NoMemory>
    requires end { end < ends_of net.now }
    requires channels { length waiting.old ≡ ends_of net.now }
    ensures ok { OnOk result (PutsOutThere net.now end packet waiting.old waiting.new) }
    ensures channels { length waiting.new ≡ length waiting.old }
    ensures err { OnErr result (waiting.new ≡ waiting.old) }
{
    match net.partner(end) {
        Some(_) => push_last(alloc, waiting, end, packet),
        None => Ok(()),
    }
}

#[tactic(auto, using(crate::proofs::ChannelLemmas::given_back))]
fn push_last(
    alloc: Global,
    waiting: &mut List<List<u32>>,
    end: u32,
    packet: u32,
) -> Result<(), NoMemory>
    requires { end < length waiting.old }
    ensures ok { OnOk result (IsPushed end packet waiting.old waiting.new) }
    ensures channels { length waiting.new ≡ length waiting.old }
    ensures err { OnErr result (waiting.new ≡ waiting.old) }
{
    let mut channel = waiting.replace(end as usize, List::new(alloc));
    let pushed = channel.push(packet);
    waiting.replace(end as usize, channel);
    pushed
}
