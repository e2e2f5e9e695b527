//! What is taken out of channels.
ghost use Rattle.std.specs.Prelude.{◌≡◌, ℕ, ◌<◌, List, Some, length, nat_eq, slice_get, slice_set, MatchOption};
ghost use Rattle.std.specs.Prelude.{MatchResult};
ghost use Rattle.std.specs.List.{Contains, position_from, remove};
ghost use Rattle.concrete_net.specs.Taking.{IsFirstCopy, IsNextAt, MissesNext};

use crate::refusal::StepRefusal;
use amdl_tree::List;
use net_runs::Mode;
use std::alloc::Global;

/// The place of the copy of the packet that may be taken out of a channel next.
#[tactic(auto, using(crate::proofs::TakeLemmas::copy_there, crate::proofs::TakeLemmas::not_at_head, crate::proofs::TakeLemmas::next_anywhere, crate::proofs::TakeLemmas::next_at_head))]
pub(crate) fn next_place(mode: Mode, packets: &[u32], packet: u32) -> Result<usize, StepRefusal>
    ensures { MatchResult result (IsNextAt mode packet packets.now) (MissesNext mode packet packets.now) }
{
    match first_copy(packets, packet) {
        Some(0) => Ok(0),
        Some(place) => match mode {
            Mode::Ordered => Err(StepRefusal::NotHead),
            Mode::Unordered => Ok(place),
        },
        None => Err(StepRefusal::NoCopy),
    }
}

#[tactic(auto, using(crate::proofs::TakeLemmas::first_copy))]
fn first_copy(packets: &[u32], packet: u32) -> Option<usize>
    ensures { MatchOption result (Contains packets.now packet → ⊥) (IsFirstCopy packet packets.now) }
{
    place_of(packets, packet)
}

fn place_of(packets: &[u32], packet: u32) -> Option<usize>
    ensures { result ≡ position_from (λ other. nat_eq other packet) 0 packets.now }
{
    packets.iter().position(|other| *other == packet)
}

/// Takes what stands at a place out of the channel of an end. It takes no memory.
#[tactic(auto, using(crate::proofs::TakeLemmas::shortened))]
pub(crate) fn take_at(alloc: Global, waiting: &mut List<List<u32>>, from: u32, place: usize)
    requires from { from < length waiting.old }
    requires place { (packets : List ℕ) → slice_get waiting.old from ≡ Some packets → place < length packets }
    ensures { (packets : List ℕ) → slice_get waiting.old from ≡ Some packets →
        waiting.new ≡ slice_set waiting.old from (remove packets place) }
{
    let mut channel = waiting.replace(from as usize, List::new(alloc));
    channel.remove(place);
    waiting.replace(from as usize, channel);
}
