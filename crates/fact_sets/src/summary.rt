//! The facts of a set, counted in one walk over it.
ghost use Rattle.std.specs.Prelude.{◌≡◌, ℕ, ◌+◌, ◌<◌, ◌≤◌, ◌^◌, ◌-◌, List, [], ◌∷◌, ◌++◌, length, IfOk, OnOk};
ghost use Rattle.std.specs.List.{All};
ghost use Rattle.net_plan.specs.declared.fact.Fact.{Fact};
ghost use Rattle.net_plan.specs.declared.fact.Fact.TheVariants.{State};
ghost use Rattle.net_plan.specs.Cells.{IsInRange, cells_of};
ghost use Rattle.plan_text.specs.Found.{Summarises};
ghost use Rattle.plan_text.specs.Text.{HasLine};
ghost use Rattle.fact_sets.specs.Summary.{AreFindings, AreAtMost, Adds, AddsCell, AreStateCells};

use amdl_tree::{List, NoMemory};
use cell_sets::CellSet;
use net_plan::laws::cells_are_facts;
use net_plan::{Fact, Network};
use plan_text::Findings;
use std::alloc::Global;

/// The most bad facts that are listed.
const MOST_LISTED: u32 = 1000;

// Cells from one number up to another, without that one.
#[derive(Clone, Copy)]
struct Stretch {
    from: u32,
    to: u32,
}

/// What a set of cells says of the facts of a network. It takes one walk over the set, for each fact but the answers of
/// boxes in the time of `fact_at` and of `bad`, and memory for the bad facts that are listed.
pub fn findings_of<S: CellSet>(
    alloc: Global,
    network: &Network,
    set: &S,
) -> Result<Findings, NoMemory>
    requires { length (S.marks set.now) ≡ cells_of network.now }
    ensures { IfOk result (AreFindings network.now (S.marks set.now)) }
{
    cells_are_facts();
    let _cells = network.cells();
    let states = states_of(network);
    let mut findings = Findings {
        outs: 0,
        states: 0,
        aborts: 0,
        bad: 0,
        listed: List::new(alloc),
    };
    let mut from = 0;
    while let Some(cell) = set.next_from(from) {
        add_cell(network, states, cell, &mut findings)?;
        from = cell + 1;
    }
    Ok(findings)
}

// The cells of answers of boxes. They stand behind those of what comes out and before those of aborts.
fn states_of(network: &Network) -> Stretch
    ensures { AreStateCells network.now result.from result.to }
{
    cells_are_facts();
    network.sound();
    let _packets = network.headers().count();
    if 0 < network.boxes() {
        return Stretch {
            from: network.cell_of(Fact::State(0, 0, 0)),
            to: network.cell_of(Fact::Abort(0, 0)),
        };
    }
    Stretch { from: 0, to: 0 }
}

// The fact of a cell more. Answers of a box are never bad, so they are counted by their cell alone.
fn add_cell(
    network: &Network,
    states: Stretch,
    cell: u32,
    findings: &mut Findings,
) -> Result<(), NoMemory>
    requires cell { cell < cells_of network.now }
    requires states { AreStateCells network.now states.from states.to }
    requires few { (most : ℕ) × (most < 2 ^ 32 - 1) × AreAtMost most findings.old }
    requires lines { All (HasLine network.now) findings.old.listed }
    ensures adds { OnOk result (AddsCell network.now cell findings.old findings.new) }
    ensures few { OnOk result ((most : ℕ) → AreAtMost most findings.old → AreAtMost (most + 1) findings.new) }
{
    if states.from <= cell && cell < states.to {
        count_state(findings);
        return Ok(());
    }
    add(network, network.fact_at(cell), findings)
}

// Answers of a box more, whichever they are.
fn count_state(findings: &mut Findings)
    requires { (most : ℕ) × (most < 2 ^ 32 - 1) × AreAtMost most findings.old }
    ensures counted { (box packet mask : ℕ) (facts bad : List Fact) → Summarises findings.old facts bad →
        Summarises findings.new (facts ++ State box packet mask ∷ []) bad }
    ensures few { (most : ℕ) → AreAtMost most findings.old → AreAtMost (most + 1) findings.new }
    ensures listed { findings.new.listed ≡ findings.old.listed }
{
    findings.states += 1;
}

// One fact more.
fn add(network: &Network, fact: Fact, findings: &mut Findings) -> Result<(), NoMemory>
    requires in_range { IsInRange network.now fact }
    requires few { (most : ℕ) × (most < 2 ^ 32 - 1) × AreAtMost most findings.old }
    requires lines { All (HasLine network.now) findings.old.listed }
    ensures adds { OnOk result (Adds network.now fact findings.old findings.new) }
    ensures few { OnOk result ((most : ℕ) → AreAtMost most findings.old → AreAtMost (most + 1) findings.new) }
{
    count(fact, findings);
    if network.bad(fact) {
        return list(network, fact, findings);
    }
    Ok(())
}

// One fact more, in the numbers by kind.
fn count(fact: Fact, findings: &mut Findings)
    requires { (most : ℕ) × (most < 2 ^ 32 - 1) × AreAtMost most findings.old }
    ensures counted { (facts bad : List Fact) → Summarises findings.old facts bad →
        Summarises findings.new (facts ++ fact ∷ []) bad }
    ensures few { (most : ℕ) → AreAtMost most findings.old → AreAtMost (most + 1) findings.new }
    ensures bad { findings.new.bad ≡ findings.old.bad }
    ensures listed { findings.new.listed ≡ findings.old.listed }
{
    match fact {
        Fact::Out(..) => findings.outs += 1,
        Fact::State(..) => findings.states += 1,
        Fact::Abort(..) => findings.aborts += 1,
    }
}

// One bad fact more, of those that are counted.
fn list(network: &Network, fact: Fact, findings: &mut Findings) -> Result<(), NoMemory>
    requires few { findings.old.bad < 2 ^ 32 - 1 }
    requires line { HasLine network.now fact }
    requires lines { All (HasLine network.now) findings.old.listed }
    ensures summarises { OnOk result ((facts bad : List Fact) → Summarises findings.old facts bad →
        Summarises findings.new facts (bad ++ fact ∷ [])) }
    ensures lines { OnOk result (All (HasLine network.now) findings.new.listed) }
    ensures bad { OnOk result (findings.new.bad ≡ findings.old.bad + 1) }
    ensures kinds { (findings.new.outs ≡ findings.old.outs) × (findings.new.states ≡ findings.old.states)
        × (findings.new.aborts ≡ findings.old.aborts) }
{
    if findings.bad < MOST_LISTED {
        findings.listed.push(fact)?;
    }
    findings.bad += 1;
    Ok(())
}
