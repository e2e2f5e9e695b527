ghost use Rattle.std.specs.Prelude.{◌≡◌, ◌<◌, ◌≤◌, [], length, IfOk};
ghost use Rattle.std.specs.Vec.{vec_capacity};
ghost use Rattle.net_plan.specs.Plan.{packets_of, boxes_of, box_at, ports_of};
ghost use Rattle.box_masks.specs.Writes.{IsMaskOf};
ghost use Rattle.abstract_step.specs.Fire.{HasLists};
ghost use Rattle.abstract_step.specs.Step.{AreResults, result_at};

use crate::found::Found;
use crate::paths::{fire_now, reserved};
use crate::put::Put;
use crate::trail::Trail;
use amdl_tree::NoMemory;
use box_contents::Entry;
use box_masks::Write;
use net_plan::Network;
use std::alloc::Global;
use std::marker::Model;

/// The results of one `fire`, which stand until the next one. Contracts see it as the list of results.
#[derive(Drop)]
pub struct Fired {
    found: Found,
}

impl Model for Fired {
    ghost use Rattle.std.specs.Prelude.{List};
    ghost use Rattle.std.specs.Coded.{coded_list};
    ghost use Rattle.abstract_step.specs.Step.{Result};
    ghost use Rattle.abstract_step.specs.Coded.{result_code};
    ghost use Rattle.abstract_step.specs.Found.{results_of};
    ghost use Rattle.abstract_step.specs.Fire.{IsSpacious};

    ghost Value = { List Result };

    ghost coded = { coded_list result_code };

    ghost view = { λ fired. results_of fired.found };

    ghost invariant = { λ fired. IsSpacious fired.found };
}

impl Fired {
    /// No results, with room for those of any handler: of 1,024 paths of 1,024 statements each.
    pub(crate) fn new(alloc: Global) -> Result<Fired, NoMemory>
        ensures { IfOk result (λ fired. fired ≡ []) }
    {
        Ok(Fired {
            found: Found {
                endings: reserved(alloc, 1024)?,
                writes: reserved(alloc, 1048576)?,
                puts: reserved(alloc, 1048576)?,
            },
        })
    }

    /// The results of a handler in place of those from before, with lists for a walk.
    pub(crate) fn refill<'a>(
        &mut self,
        net: &'a Network,
        b: u32,
        port: u32,
        p: u32,
        v: u16,
        tuples: &mut Vec<Entry>,
        trail: &mut Trail<'a>,
    )
        requires boxed { b < boxes_of net.now }
        requires port { port < ports_of net.now (box_at net.now b) }
        requires packet { p < packets_of net.now }
        requires mask { IsMaskOf net.now b v }
        requires room { 12 ≤ vec_capacity tuples.old }
        requires lists { HasLists trail.old }
        ensures room { 12 ≤ vec_capacity tuples.new }
        ensures same { trail.new ≡ trail.old }
        ensures fired { AreResults net.now b port p v self.new }
    {
        fire_now(net, b, port, p, v, tuples, trail, &mut self.found);
    }

    /// The number of results, at most 1,024.
    pub fn len(&self) -> usize
        ensures { result ≡ length self.now }
    {
        self.found.endings.len()
    }

    /// Whether the result of a number aborts. Then it has no writes and no puts.
    pub fn aborted(&self, i: usize) -> bool
        requires { i < length self.now }
        ensures { result ≡ (result_at self.now i).aborted }
    {
        self.found.endings[i].aborted
    }

    /// The writes of the result of a number, in their order.
    pub fn update(&self, i: usize) -> &[Write]
        requires { i < length self.now }
        ensures { result.now ≡ (result_at self.now i).writes }
    {
        let ending = self.found.endings[i];
        &self.found.writes.as_slice()[ending.writes_from..ending.writes_to]
    }

    /// What the result of a number puts out, in its order.
    pub fn outs(&self, i: usize) -> &[Put]
        requires { i < length self.now }
        ensures { result.now ≡ (result_at self.now i).puts }
    {
        let ending = self.found.endings[i];
        &self.found.puts.as_slice()[ending.puts_from..ending.puts_to]
    }
}
