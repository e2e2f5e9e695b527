//! Runs of statements.
ghost use Rattle.std.specs.Prelude.{◌≡◌, [], ◌∷◌, ◌++◌, true, false, nat_lt, drop, IfOk};
ghost use Rattle.box_handlers.specs.Body.{Stop, Writes, Emit, Fork, Each, body_of, branches_of, formula_of};
ghost use Rattle.handler_runs.specs.Code.{scene_by, standing, course_is};
ghost use Rattle.handler_runs.specs.Reading.{with_value, holds_by};
ghost use Rattle.handler_runs.specs.Run.{with_left, by_choice, where_true, run, run_branch};

use crate::guards::{any_holds, test_holds};
use crate::progress::{Course, Progress, goes_on};
use crate::setting::Setting;
use crate::terms::{entry_of, packet_of};
use amdl_tree::{List, NoMemory};
use box_handlers::{Act, Branch, Change, Query};
use std::alloc::Global;

/// Runs a block by the choices that are left.
#[tactic(auto, using(crate::proofs::ActLemmas::act_goes, crate::proofs::ActLemmas::act_ends, crate::proofs::ActLemmas::acts_done))]
#[cycle(acts)]
pub(crate) fn block_runs(
    alloc: Global,
    setting: &Setting<'_>,
    picked: &[u32],
    acts: &[Act],
    progress: &mut Progress<'_>,
) -> Result<Course, NoMemory>
    ensures { IfOk result (λ course.
        run (body_of acts.now) (scene_by setting.now picked.now) (standing progress.old)
        ≡ course_is course (standing progress.new)) }
{
    for act in acts {
        let course = act_runs(alloc, setting, picked, act, progress)?;
        if !goes_on(course) {
            return Ok(course);
        }
    }
    Ok(Course::Goes)
}

#[tactic(auto, using(crate::proofs::ActLemmas::insert_is, crate::proofs::ActLemmas::remove_is, crate::proofs::ActLemmas::output_is, crate::proofs::ActLemmas::abort_is, crate::proofs::ActLemmas::choose_is, crate::proofs::ActLemmas::pick_is))]
#[cycle(acts)]
fn act_runs(
    alloc: Global,
    setting: &Setting<'_>,
    picked: &[u32],
    act: &Act,
    progress: &mut Progress<'_>,
) -> Result<Course, NoMemory>
    ensures { IfOk result (λ course.
        run (body_of (act.now ∷ [])) (scene_by setting.now picked.now) (standing progress.old)
        ≡ course_is course (standing progress.new)) }
{
    match act {
        Act::Insert(query) => insert_runs(alloc, setting, picked, query, progress),
        Act::Remove(query) => remove_runs(alloc, setting, picked, query, progress),
        Act::Output(port, changes) => output_runs(
            alloc,
            setting,
            picked,
            *port,
            changes.as_slice(),
            progress,
        ),
        Act::Abort => Ok(Course::Aborts),
        Act::Choose(branches) => choice_runs(alloc, setting, picked, branches.as_slice(), progress),
        Act::Pick(values, body) => pick_runs(
            alloc,
            setting,
            picked,
            *values,
            body.as_slice(),
            progress,
        ),
    }
}

fn insert_runs(
    alloc: Global,
    setting: &Setting<'_>,
    picked: &[u32],
    query: &Query,
    progress: &mut Progress<'_>,
) -> Result<Course, NoMemory>
    ensures { IfOk result (λ course.
        run (Writes query.now true Stop) (scene_by setting.now picked.now) (standing progress.old)
        ≡ course_is course (standing progress.new)) }
{
    let entry = entry_of(alloc, setting, picked, query)?;
    progress.contents.put(entry)?;
    Ok(Course::Goes)
}

fn remove_runs(
    alloc: Global,
    setting: &Setting<'_>,
    picked: &[u32],
    query: &Query,
    progress: &mut Progress<'_>,
) -> Result<Course, NoMemory>
    ensures { IfOk result (λ course.
        run (Writes query.now false Stop) (scene_by setting.now picked.now) (standing progress.old)
        ≡ course_is course (standing progress.new)) }
{
    let entry = entry_of(alloc, setting, picked, query)?;
    progress.contents.take_out(entry);
    Ok(Course::Goes)
}

fn output_runs(
    alloc: Global,
    setting: &Setting<'_>,
    picked: &[u32],
    port: u32,
    changes: &[Change],
    progress: &mut Progress<'_>,
) -> Result<Course, NoMemory>
    ensures { IfOk result (λ course.
        run (Emit port changes.now Stop) (scene_by setting.now picked.now) (standing progress.old)
        ≡ course_is course (standing progress.new)) }
{
    let packet = packet_of(alloc, setting, picked, changes)?;
    progress.put_out(port, packet)?;
    Ok(Course::Goes)
}

// A choice uses a choice where one of the guards is true.
#[tactic(auto, using(crate::proofs::ActLemmas::fork_shut, crate::proofs::ActLemmas::fork_open))]
#[cycle(acts)]
fn choice_runs(
    alloc: Global,
    setting: &Setting<'_>,
    picked: &[u32],
    branches: &[Branch],
    progress: &mut Progress<'_>,
) -> Result<Course, NoMemory>
    ensures { IfOk result (λ course.
        run (Fork (branches_of branches.now) Stop) (scene_by setting.now picked.now) (standing progress.old)
        ≡ course_is course (standing progress.new)) }
{
    if !any_holds(alloc, setting, picked, &progress.contents, branches)? {
        return Ok(Course::Goes);
    }
    chosen_runs(alloc, setting, picked, branches, progress)
}

// The branch that the next choice says.
#[tactic(auto, using(crate::proofs::ActLemmas::choice_made, crate::proofs::ActLemmas::no_choice))]
#[cycle(acts)]
fn chosen_runs(
    alloc: Global,
    setting: &Setting<'_>,
    picked: &[u32],
    branches: &[Branch],
    progress: &mut Progress<'_>,
) -> Result<Course, NoMemory>
    ensures { IfOk result (λ course.
        by_choice (run_branch (branches_of branches.now) (scene_by setting.now picked.now)) (standing progress.old)
        progress.old.left.now
        ≡ course_is course (standing progress.new)) }
{
    let left = progress.left;
    match left.first() {
        Some(choice) => numbered_runs(alloc, setting, picked, branches, *choice, progress),
        None => Ok(Course::Stuck),
    }
}

// The branch of a number, if there is one.
#[tactic(auto, using(crate::proofs::ActLemmas::branch_there, crate::proofs::ActLemmas::no_branch))]
#[cycle(acts)]
fn numbered_runs(
    alloc: Global,
    setting: &Setting<'_>,
    picked: &[u32],
    branches: &[Branch],
    number: u32,
    progress: &mut Progress<'_>,
) -> Result<Course, NoMemory>
    ensures { IfOk result (λ course.
        run_branch (branches_of branches.now) (scene_by setting.now picked.now) number progress.old.left.now
        (with_left (standing progress.old) (drop 1 progress.old.left.now))
        ≡ course_is course (standing progress.new)) }
{
    match branches.get(number as usize) {
        Some(branch) => branch_runs(alloc, setting, picked, branch, progress),
        None => Ok(Course::Stuck),
    }
}

// The block of a branch whose guard is true.
#[tactic(auto, using(crate::proofs::ActLemmas::test_fails, crate::proofs::ActLemmas::test_passes))]
#[cycle(acts)]
fn branch_runs(
    alloc: Global,
    setting: &Setting<'_>,
    picked: &[u32],
    branch: &Branch,
    progress: &mut Progress<'_>,
) -> Result<Course, NoMemory>
    ensures { IfOk result (λ course.
        where_true (holds_by (scene_by setting.now picked.now) progress.old.contents (formula_of branch.now.guard))
        progress.old.left.now
        (run (body_of branch.now.body) (scene_by setting.now picked.now)
        (with_left (standing progress.old) (drop 1 progress.old.left.now)))
        ≡ course_is course (standing progress.new)) }
{
    if !test_holds(alloc, setting, picked, &progress.contents, &branch.guard)? {
        return Ok(Course::Stuck);
    }
    progress.use_choice();
    block_runs(alloc, setting, picked, branch.body.as_slice(), progress)
}

// The block of a pick, with the value that the next choice says.
#[tactic(auto, using(crate::proofs::ActLemmas::value_made, crate::proofs::ActLemmas::no_value))]
#[cycle(acts)]
fn pick_runs(
    alloc: Global,
    setting: &Setting<'_>,
    picked: &[u32],
    values: u32,
    body: &[Act],
    progress: &mut Progress<'_>,
) -> Result<Course, NoMemory>
    ensures { IfOk result (λ course.
        run (Each values (body_of body.now) Stop) (scene_by setting.now picked.now) (standing progress.old)
        ≡ course_is course (standing progress.new)) }
{
    let left = progress.left;
    match left.first() {
        Some(value) => value_runs(alloc, setting, picked, values, *value, body, progress),
        None => Ok(Course::Stuck),
    }
}

// The block with a value, which is one of so many.
#[tactic(auto, using(crate::proofs::ActLemmas::test_fails, crate::proofs::ActLemmas::test_passes))]
#[cycle(acts)]
fn value_runs(
    alloc: Global,
    setting: &Setting<'_>,
    picked: &[u32],
    values: u32,
    value: u32,
    body: &[Act],
    progress: &mut Progress<'_>,
) -> Result<Course, NoMemory>
    ensures { IfOk result (λ course.
        where_true (nat_lt value values) progress.old.left.now
        (run (body_of body.now) (with_value (scene_by setting.now picked.now) value)
        (with_left (standing progress.old) (drop 1 progress.old.left.now)))
        ≡ course_is course (standing progress.new)) }
{
    let there = value < values;
    if !there {
        return Ok(Course::Stuck);
    }
    let within = with_value(alloc, picked, value)?;
    progress.use_choice();
    block_runs(alloc, setting, within.as_slice(), body, progress)
}

fn with_value(alloc: Global, picked: &[u32], value: u32) -> Result<List<u32>, NoMemory>
    ensures { IfOk result (λ within. within ≡ picked.now ++ value ∷ []) }
{
    let mut within = List::new(alloc);
    for other in picked {
        within.push(*other)?;
    }
    within.push(value)?;
    Ok(within)
}
