//! What a box puts out.
ghost use Rattle.std.specs.Prelude.{◌≡◌, ℕ, ◌<◌, ◌-◌, List, Some, All, length, map, slice_get, slice_set, OnOk, OnErr};
ghost use Rattle.std.specs.Prelude.{IfOk};
ghost use Rattle.std.specs.List.{remove};
ghost use Rattle.handler_runs.specs.Code.{emission_of};
ghost use Rattle.net_plan.specs.Plan.{boxes_of, box_at, ports_of};
ghost use Rattle.net_plan.specs.Ends.{ends_of, IsLinked};
ghost use Rattle.concrete_net.specs.PutOut.{PutsOutThere, PutsOutAllThere};

use crate::channels::put_out;
use amdl_tree::{List, NoMemory};
use handler_runs::Emission;
use net_plan::Network;
use std::alloc::Global;

/// A packet is taken out of a channel, and others are put out at ports of a box, one after another. After want of
/// memory the channels are as before.
pub(crate) fn exchange(
    alloc: Global,
    net: &Network,
    waiting: &mut List<List<u32>>,
    from: u32,
    place: usize,
    b: u32,
    outputs: &[Emission],
) -> Result<(), NoMemory>
    requires from { from < ends_of net.now }
    requires place { (packets : List ℕ) → slice_get waiting.old from ≡ Some packets → place < length packets }
    requires channels { length waiting.old ≡ ends_of net.now }
    requires boxed { b < boxes_of net.now }
    requires ports { All (λ sent. sent.port < ports_of net.now (box_at net.now b)) outputs.now }
    ensures ok { OnOk result ((packets : List ℕ) → slice_get waiting.old from ≡ Some packets →
        PutsOutAllThere net.now b (map emission_of outputs.now) (slice_set waiting.old from (remove packets place))
        waiting.new) }
    ensures err { OnErr result (waiting.new ≡ waiting.old) }
{
    let mut shorter = copy_of(alloc, waiting.as_slice()[from as usize].as_slice())?;
    shorter.remove(place);
    let whole = waiting.replace(from as usize, shorter);
    match put_out_all(alloc, net, waiting, b, outputs) {
        Ok(()) => Ok(()),
        Err(NoMemory) => {
            waiting.replace(from as usize, whole);
            Err(NoMemory)
        }
    }
}

fn copy_of(alloc: Global, packets: &[u32]) -> Result<List<u32>, NoMemory>
    ensures { IfOk result (λ copy. copy ≡ packets.now) }
{
    let mut copy = List::new(alloc);
    for packet in packets {
        copy.push(*packet)?;
    }
    Ok(copy)
}

// Packets are put out at ports of a box, one after another. After want of memory the channels are as before.
fn put_out_all(
    alloc: Global,
    net: &Network,
    waiting: &mut List<List<u32>>,
    b: u32,
    outputs: &[Emission],
) -> Result<(), NoMemory>
    requires channels { length waiting.old ≡ ends_of net.now }
    requires boxed { b < boxes_of net.now }
    requires ports { All (λ sent. sent.port < ports_of net.now (box_at net.now b)) outputs.now }
    ensures ok { OnOk result
        (PutsOutAllThere net.now b (map emission_of outputs.now) waiting.old waiting.new) }
    ensures channels { length waiting.new ≡ length waiting.old }
    ensures err { OnErr result (waiting.new ≡ waiting.old) }
{
    match outputs {
        [] => Ok(()),
        [first, rest @ ..] => {
            let end = net.end_of_port(b, first.port);
            put_out(alloc, net, waiting, end, first.packet)?;
            match put_out_all(alloc, net, waiting, b, rest) {
                Ok(()) => Ok(()),
                Err(NoMemory) => {
                    take_back(alloc, net, waiting, end);
                    Err(NoMemory)
                }
            }
        }
    }
}

// The packet that was put out last at an end is taken back.

fn take_back(alloc: Global, net: &Network, waiting: &mut List<List<u32>>, end: u32)
    requires end { end < ends_of net.now }
    requires channels { length waiting.old ≡ ends_of net.now }
    requires some { (other : ℕ) (packets : List ℕ) → IsLinked net.now end other →
        slice_get waiting.old end ≡ Some packets → 0 < length packets }
    ensures { (packet : ℕ) (before : List (List ℕ)) → end < length before →
        PutsOutThere net.now end packet before waiting.old → waiting.new ≡ before }
{
    match net.partner(end) {
        Some(_) => take_last(alloc, waiting, end),
        None => {}
    }
}

// The packet that waits last in the channel out of an end is taken out.
#[tactic(auto, using(crate::proofs::OutputLemmas::last_out))]
fn take_last(alloc: Global, waiting: &mut List<List<u32>>, end: u32)
    requires end { end < length waiting.old }
    requires some { (packets : List ℕ) → slice_get waiting.old end ≡ Some packets → 0 < length packets }
    ensures { (packets : List ℕ) → slice_get waiting.old end ≡ Some packets →
        waiting.new ≡ slice_set waiting.old end (remove packets (length packets - 1)) }
{
    let mut channel = waiting.replace(end as usize, List::new(alloc));
    let last = channel.as_slice().len() - 1;
    channel.remove(last);
    waiting.replace(end as usize, channel);
}
