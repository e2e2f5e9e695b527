ghost use Rattle.std.specs.Prelude.{◌≡◌, ℕ, ◌+◌, ◌<◌, ◌≤◌, [], length, map, IfOk};
ghost use Rattle.std.specs.Vec.{vec_capacity};
ghost use Rattle.net_plan.specs.Plan.{packets_of, boxes_of, box_at, ports_of};
ghost use Rattle.net_plan.specs.Reading.{tuple_at};
ghost use Rattle.box_masks.specs.Writes.{IsMaskOf};
ghost use Rattle.abstract_step.specs.Found.{results_of};
ghost use Rattle.abstract_step.specs.Fire.{IsSpacious, HasLists, AreLaws};
ghost use Rattle.abstract_step.specs.Step.{AreResults};
ghost use Rattle.abstract_step.specs.Walk.{IsPlace, class_at};

use crate::fired::Fired;
use crate::found::Found;
use crate::masks::is_consistent;
use crate::place::{Place, entry_of, read_fields};
use crate::put::Put;
use crate::trail::{Frame, Spot, Trail};
use crate::walk::block;
use amdl_tree::{List, NoMemory};
use box_contents::{
    Entry, held_is_member, held_with, held_without, with_keeps_rising, without_keeps_rising,
};
use box_executions::outcome_is_in_range;
use box_handlers::{filled_has_same_tuple, queries_fit, queries_hold_all_asked};
use box_masks::Write;
use header_set::MOST_FIELDS;
use header_set::laws::{fields_are_below_sizes, fields_determine_packet};
use net_plan::Network;
use std::alloc::Global;
use std::marker::Model;
use std::sync::ledger::Ledger;
use step_count::Steps;

/// The paths through the handlers of a network, with room for the results of any one of them. Contracts see it as the
/// plan of its network.
#[derive(Drop)]
pub struct Paths<'a> {
    net: &'a Network,
    // the tuples of the queries of the box at the packet
    tuples: Vec<Entry>,
    trail: Trail<'a>,
    fired: Fired,
}

impl<'a> Model for Paths<'a> {
    ghost use Rattle.std.specs.Vec.{vec_capacity};
    ghost use Rattle.net_plan.specs.declared.plan.Plan.{Plan};
    ghost use Rattle.net_plan.specs.contracts.network.Network as network;
    ghost use Rattle.abstract_step.specs.Fire.{IsPrepared};

    ghost Value = { Plan };

    ghost coded = { network.the_row.coded };

    ghost view = { λ paths. paths.net.now };

    ghost invariant = { λ paths. IsPrepared (vec_capacity paths.tuples) paths.trail };
}

impl<'a> Paths<'a> {
    ghost use Rattle.std.specs.Borrow.{sem};
    ghost use Rattle.abstract_step.specs.Lent.{LeavesPlan};

    /// The paths of a network. It reserves the memory for the results of any handler: those of 1,024 paths of 1,024
    /// statements each, about 21 MB, of which only what is used is touched.
    pub fn new(alloc: Global, net: &'a Network) -> Result<Paths<'a>, NoMemory>
        ensures { IfOk result (λ paths. paths ≡ net.now) }
    {
        Ok(Paths {
            net,
            tuples: reserved(alloc, 12)?,
            trail: no_trail(alloc)?,
            fired: Fired::new(alloc)?,
        })
    }

    /// Fires the handler of a port of a box on packet `p`, from all contents that answer with the mask `v` at it. The
    /// results stand until the next `fire`. It takes no memory, and one step.
    ///
    /// It takes time linear in the statements on the paths and in the guards that are tried, and quadratic in the
    /// queries of the box.
    pub fn fire<L: Ledger>(
        &mut self,
        net: &Network,
        b: u32,
        port: u32,
        p: u32,
        v: u16,
        steps: &mut Steps<L>,
    ) -> &Fired
        requires made { self.old ≡ net.now }
        requires boxed { b < boxes_of net.now }
        requires port { port < ports_of net.now (box_at net.now b) }
        requires packet { p < packets_of net.now }
        requires mask { IsMaskOf net.now b v }
        ensures* same { sem 𝓛 (LeavesPlan self.entry) }
        ensures ticks { steps.new ≡ steps.old + 1 }
        ensures fired { AreResults net.now b port p v result.now }
    {
        let _net = net;
        steps.tick();
        self.fired
            .refill(self.net, b, port, p, v, &mut self.tuples, &mut self.trail);
        &self.fired
    }
}

/// No items, with room for so many.
pub(crate) fn reserved<T: Drop>(alloc: Global, room: usize) -> Result<Vec<T>, NoMemory>
    ensures { IfOk result (λ items. (items.items ≡ []) × (room ≤ vec_capacity items)) }
{
    match Vec::with_capacity(alloc, room) {
        Ok(items) => Ok(items),
        Err(_) => Err(NoMemory),
    }
}

// So many times the same item.
fn repeated<T: Copy + Drop>(alloc: Global, item: T, many: usize) -> Result<List<T>, NoMemory>
    ensures { IfOk result (λ items. length items ≡ many) }
{
    let mut items = List::new(alloc);
    for _ in 0..many {
        items.push(item)?;
    }
    Ok(items)
}

// A trail whose lists are long enough.
fn no_trail<'a>(alloc: Global) -> Result<Trail<'a>, NoMemory>
    ensures { IfOk result (λ trail. HasLists trail) }
{
    let entry = Entry {
        relation: 0,
        tuple: 0,
    };
    Ok(Trail {
        frames: repeated(
            alloc,
            Frame {
                acts: &[],
                depth: 0,
            },
            2049,
        )?,
        slots: repeated(alloc, 0, 2049)?,
        writes: repeated(alloc, Write { entry, add: false }, 2049)?,
        puts: repeated(alloc, Put { port: 0, packet: 0 }, 2049)?,
    })
}

// The tuples of the queries of a box at a packet.
#[tactic(auto, using(crate::proofs::MemberLemmas::mapped_more, crate::proofs::MemberLemmas::mapped_all))]
fn read_tuples(place: &Place<'_>, tuples: &mut Vec<Entry>)
    requires place { IsPlace place.now }
    requires room { 12 ≤ vec_capacity tuples.old }
    ensures tuples { tuples.new.items
        ≡ map (tuple_at place.now.net.now (class_at place.now) place.now.p []) (class_at place.now).queries }
    ensures room { vec_capacity tuples.old ≤ vec_capacity tuples.new }
{
    tuples.clear();
    for query in place.net.queries(place.b) {
        tuples.push_reserved(entry_of(place, &[], query));
    }
}

/// The results of a handler in place of those from before.
pub(crate) fn fire_now<'a>(
    net: &'a Network,
    b: u32,
    port: u32,
    p: u32,
    v: u16,
    tuples: &mut Vec<Entry>,
    trail: &mut Trail<'a>,
    found: &mut Found,
)
    requires boxed { b < boxes_of net.now }
    requires port { port < ports_of net.now (box_at net.now b) }
    requires packet { p < packets_of net.now }
    requires mask { IsMaskOf net.now b v }
    requires room { 12 ≤ vec_capacity tuples.old }
    requires lists { HasLists trail.old }
    requires spacious { IsSpacious found.old }
    ensures room { 12 ≤ vec_capacity tuples.new }
    ensures same { trail.new ≡ trail.old }
    ensures spacious { IsSpacious found.new }
    ensures fired { AreResults net.now b port p v (results_of found.new) }
{
    laws();
    net.sound();
    found.endings.clear();
    found.writes.clear();
    found.puts.clear();
    let mut numbers = [0; MOST_FIELDS];
    let fields = &mut numbers[..net.headers().fields()];
    read_fields(net.headers(), p, fields);
    let place = Place {
        net,
        b,
        p,
        fields,
        tuples: &[],
    };
    read_tuples(&place, tuples);
    let tuples = tuples.as_slice();
    if !is_consistent(tuples, v) {
        return;
    }
    let place = Place { tuples, ..place };
    let spot = Spot {
        depth: 0,
        top: 0,
        writes: 0,
        puts: 0,
        mask: v,
    };
    block(&place, net.handler(b, port), &spot, trail, found);
}

// The laws that a fire stands on.
fn laws()
    ensures { AreLaws }
{
    fields_are_below_sizes();
    fields_determine_packet();
    held_is_member();
    held_with();
    held_without();
    with_keeps_rising();
    without_keeps_rising();
    queries_hold_all_asked();
    filled_has_same_tuple();
    queries_fit();
    outcome_is_in_range();
}
