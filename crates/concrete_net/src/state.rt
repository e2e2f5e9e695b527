ghost use Rattle.std.specs.Prelude.{◌≡◌, ◌<◌, length, IfOk};
ghost use Rattle.net_runs.specs.World.{Waits, HasContents};
ghost use Rattle.concrete_net.specs.Seen.{first_seen};

use crate::tables::{empty_channels, first_contents};
use amdl_tree::{List, NoMemory};
use box_contents::Contents;
use net_plan::Network;
use net_runs::Mode;
use std::alloc::Global;
use std::marker::Model;

/// The state of a simulated network: the packets that wait in its channels, and the contents of its boxes.
///
/// Contracts see it as its mode and its world. It is a state of one network, which each call that makes a step is
/// given.
#[derive(Drop)]
pub struct State {
    pub(crate) mode: Mode,
    // the packets that wait in the channel out of each end
    pub(crate) waiting: List<List<u32>>,
    // the contents of each box
    pub(crate) contents: List<Contents>,
}

impl Model for State {
    ghost use Rattle.concrete_net.specs.Seen.{Seen};

    ghost Value = { Seen };

    ghost view = { λ state. record {
      mode = state.mode;
      world = record { waiting = state.waiting; contents = state.contents };
    } };
}

impl State {
    /// The first state of a network: all channels are empty, and each box has its first contents. Linear in the ends,
    /// and for each first entry a search among those before it.
    pub fn new(alloc: Global, net: &Network, mode: Mode) -> Result<State, NoMemory>
        ensures { IfOk result (λ state. state ≡ first_seen net.now mode) }
    {
        Ok(State {
            mode,
            waiting: empty_channels(alloc, net)?,
            contents: first_contents(alloc, net)?,
        })
    }

    /// How channels hand packets on.
    pub fn mode(&self) -> Mode
        ensures { result ≡ self.now.mode }
    {
        self.mode
    }

    /// The contents of a box.
    pub fn contents(&self, b: u32) -> &Contents
        requires { b < length self.now.world.contents }
        ensures { HasContents self.now.world b result.now }
    {
        &self.contents.as_slice()[b as usize]
    }

    /// The packets that wait in the channel out of an end, in their order.
    pub fn waiting(&self, end: u32) -> &[u32]
        requires { end < length self.now.world.waiting }
        ensures { Waits self.now.world end result.now }
    {
        self.waiting.as_slice()[end as usize].as_slice()
    }
}
