//! All executions of the handlers of a box, from all of its contents.
ghost use Rattle.std.specs.Prelude.{◌≡◌, ◌<◌, ◌≤◌, length, map, All, IsTrue, IfOk};
ghost use Rattle.box_contents.specs.declared.entry.Entry.{Entry};
ghost use Rattle.box_executions.specs.Shape.{IsTuple};
ghost use Rattle.box_masks.specs.Writes.{AreContentsOf};
ghost use Rattle.net_plan.specs.Plan.{packets_of, boxes_of, box_at, ports_of, kind_at, arguments_of};
ghost use Rattle.net_plan.specs.Sound.{IsClass, IsSound};
ghost use Rattle.net_runs.specs.World.{relations_of};
ghost use Rattle.packet_state.specs.Answers.{class_of_box};

use amdl_tree::{List, NoMemory};
use box_contents::{Contents, Entry};
use handler_runs::{Ending, ExecuteRefusal, execute};
use net_plan::{ClassPlan, Network, Plan, RelationPlan};
use std::alloc::Global;

// An execution makes fewer choices than these.
const ROUNDS: usize = 7;

// Each choice is below this. No handler takes the last of these, so that none takes a greater one.
const CHOICES: u32 = 5;

// Of how many tuples all contents are tried.
const MOST_TUPLES: usize = 4;

/// All contents of a box of few tuples.
pub(crate) fn all_contents(alloc: Global, net: &Network, b: u32) -> Result<List<Contents>, NoMemory>
    requires { b < boxes_of net.now }
{
    let mut all = List::new(alloc);
    let entries = all_tuples(alloc, net, b)?;
    if entries.as_slice().len() > MOST_TUPLES {
        return Ok(all);
    }
    all.push(Contents::new(alloc))?;
    for entry in entries.as_slice() {
        put_also(&mut all, *entry)?;
    }
    Ok(all)
}

// The tuples of all relations of a box.
fn all_tuples(alloc: Global, net: &Network, b: u32) -> Result<List<Entry>, NoMemory>
    requires { b < boxes_of net.now }
{
    let mut entries = List::new(alloc);
    for relation in 0..net.relations(b) {
        for tuple in 0..net.tuples(b, relation) {
            entries.push(Entry { relation, tuple })?;
        }
    }
    Ok(entries)
}

// Each of the contents once more, with the entry.
fn put_also(all: &mut List<Contents>, entry: Entry) -> Result<(), NoMemory> {
    let many = all.as_slice().len();
    for i in 0..many {
        if let Some(contents) = all.as_slice().get(i) {
            let mut more = contents.copy()?;
            more.put(entry)?;
            all.push(more)?;
        }
    }
    Ok(())
}

/// How many values each argument of each relation of a box has.
pub(crate) fn sizes_of_box(alloc: Global, plan: &Plan, b: u32) -> Result<List<List<u32>>, NoMemory>
    requires sound { IsSound plan.now }
    requires boxed { b < boxes_of plan.now }
    ensures { IfOk result (λ sizes. sizes ≡ relations_of plan.now (class_of_box plan.now b)) }
{
    let class = class_of_box(plan, b);
    let mut sizes = List::new(alloc);
    for relation in class.relations.as_slice() {
        sizes.push(sizes_of_relation(alloc, plan, relation)?)?;
    }
    Ok(sizes)
}

// The class of a box.
fn class_of_box(plan: &Plan, b: u32) -> &ClassPlan
    requires sound { IsSound plan.now }
    requires boxed { b < boxes_of plan.now }
    ensures class { result.now ≡ class_of_box plan.now b }
    ensures sound { IsClass plan.now result.now }
{
    let class = plan.boxes.as_slice()[b as usize].class;
    &plan.classes.as_slice()[class as usize]
}

fn sizes_of_relation(
    alloc: Global,
    plan: &Plan,
    relation: &RelationPlan,
) -> Result<List<u32>, NoMemory>
    requires sound { IsSound plan.now }
    requires kinds { All (λ kind. kind < length plan.now.kinds) relation.now.kinds }
    ensures { IfOk result (λ sizes. sizes ≡ arguments_of plan.now relation.now) }
{
    let mut sizes = List::new(alloc);
    for kind in relation.kinds.as_slice() {
        sizes.push(values_of(plan, *kind))?;
    }
    Ok(sizes)
}

// The number of values of a type.
fn values_of(plan: &Plan, kind: u32) -> u32
    requires sound { IsSound plan.now }
    requires kind { kind < length plan.now.kinds }
    ensures { result ≡ length (kind_at plan.now kind).values }
{
    let kinds = plan.kinds.as_slice();
    kinds[kind as usize].values.as_slice().len() as u32
}

/// Whether these are contents of a box.
pub(crate) fn are_contents(net: &Network, b: u32, contents: &Contents) -> bool
    requires { b < boxes_of net.now }
    ensures { IsTrue result → AreContentsOf net.now b contents.now }
{
    are_tuples(net, b, contents.entries())
}

fn are_tuples(net: &Network, b: u32, entries: &[Entry]) -> bool
    requires { b < boxes_of net.now }
    ensures { IsTrue result → All (IsTuple (relations_of net.now (class_of_box net.now b))) entries.now }
{
    entries.iter().all(|entry| is_tuple(net, b, *entry))
}

#[tactic(auto, using(crate::proofs::Executing::tuple_there))]
fn is_tuple(net: &Network, b: u32, entry: Entry) -> bool
    requires { b < boxes_of net.now }
    ensures { IsTrue result → IsTuple (relations_of net.now (class_of_box net.now b)) entry }
{
    entry.relation < net.relations(b) && entry.tuple < net.tuples(b, entry.relation)
}

// What is known of the executions of a handler.
#[derive(Drop)]
struct Search {
    // how those end that were found
    endings: List<Ending>,
    // the choices with which others begin
    open: List<List<u32>>,
    // a choice is made that may not be the greatest one
    is_narrow: bool,
}

/// How all executions of the handler of a port on a packet end that begin with these contents. None comes where some
/// make more choices, or greater ones, than are tried, or where these are no contents of the box.
pub(crate) fn all_endings(
    alloc: Global,
    net: &Network,
    sizes: &[List<u32>],
    b: u32,
    port: u32,
    p: u32,
    contents: &Contents,
) -> Result<Option<List<Ending>>, NoMemory>
    requires sizes { sizes.now ≡ relations_of net.now (class_of_box net.now b) }
    requires boxed { b < boxes_of net.now }
    requires port { port < ports_of net.now (box_at net.now b) }
    requires packet { p < packets_of net.now }
{
    if !are_contents(net, b, contents) {
        return Ok(None);
    }
    let mut search = Search {
        endings: List::new(alloc),
        open: List::new(alloc),
        is_narrow: false,
    };
    search.open.push(List::new(alloc))?;
    for _ in 0..ROUNDS {
        go_further(alloc, net, sizes, b, port, p, contents, &mut search)?;
    }
    if search.is_narrow || !search.open.as_slice().is_empty() {
        return Ok(None);
    }
    Ok(Some(search.endings))
}

// Tries each of the choices that are open, and leaves those open with one choice more.
fn go_further(
    alloc: Global,
    net: &Network,
    sizes: &[List<u32>],
    b: u32,
    port: u32,
    p: u32,
    contents: &Contents,
    search: &mut Search,
) -> Result<(), NoMemory>
    requires sizes { sizes.now ≡ relations_of net.now (class_of_box net.now b) }
    requires boxed { b < boxes_of net.now }
    requires port { port < ports_of net.now (box_at net.now b) }
    requires packet { p < packets_of net.now }
    requires contents { AreContentsOf net.now b contents.now }
{
    let open = std::mem::replace(&mut search.open, List::new(alloc));
    for choices in open.as_slice() {
        let choices = choices.as_slice();
        match executed(alloc, net, sizes, b, port, p, contents, choices) {
            Ok(ending) => {
                search.mark(choices);
                search.endings.push(ending)?;
            }
            Err(ExecuteRefusal::BadChoice(k)) => search.extend(alloc, choices, k)?,
            Err(ExecuteRefusal::NoMemory) => return Err(NoMemory),
        }
    }
    Ok(())
}

impl Search {
    // These choices are made.
    fn mark(&mut self, choices: &[u32]) {
        if let Some(last) = choices.last() {
            self.is_narrow |= *last == CHOICES - 1;
        }
    }

    // Each list of one choice more is open, if the choices are refused for want of one.
    fn extend(&mut self, alloc: Global, choices: &[u32], bad: usize) -> Result<(), NoMemory> {
        if bad < choices.len() {
            return Ok(());
        }
        self.mark(choices);
        for choice in 0..CHOICES {
            let mut more = List::new(alloc);
            for other in choices {
                more.push(*other)?;
            }
            more.push(choice)?;
            self.open.push(more)?;
        }
        Ok(())
    }
}

// What the choices come to.
#[tactic(auto, using(crate::proofs::Executing::executable))]
fn executed(
    alloc: Global,
    net: &Network,
    sizes: &[List<u32>],
    b: u32,
    port: u32,
    p: u32,
    contents: &Contents,
    choices: &[u32],
) -> Result<Ending, ExecuteRefusal>
    requires sizes { sizes.now ≡ relations_of net.now (class_of_box net.now b) }
    requires boxed { b < boxes_of net.now }
    requires port { port < ports_of net.now (box_at net.now b) }
    requires packet { p < packets_of net.now }
    requires contents { AreContentsOf net.now b contents.now }
{
    net.sound();
    execute(
        alloc,
        net.headers(),
        sizes,
        net.handler(b, port),
        contents,
        p,
        choices,
    )
}
