//! The walk through a handler, path by path.
ghost use Rattle.std.specs.Prelude.{◌≡◌, ◌≤◌, [], ◌∷◌, ◌++◌, length};
ghost use Rattle.box_handlers.specs.Body.{Stop, Writes, Emit, Fork, Each, body_of, branches_of, formula_of};
ghost use Rattle.box_handlers.specs.Size.{statements_of, statements_of_branches};
ghost use Rattle.handler_runs.specs.Reading.{holds_by, any_holds};
ghost use Rattle.abstract_step.specs.Masks.{marked};
ghost use Rattle.abstract_step.specs.Paths.{ended};
ghost use Rattle.abstract_step.specs.Walk.{Stands, StandsWithin, HasRoom, Gains, CanWalk, FormulaFitsAt, BranchesFitAt};
ghost use Rattle.abstract_step.specs.Walk.{FitsAt, FitsEach, scene_at, picked_at, behind_at, so_far, paths_at};
ghost use Rattle.abstract_step.specs.Walk.{chosen_at, branch_at, value_at, values_from};

use crate::found::{Found, add_aborted, add_ending};
use crate::guards::test_holds;
use crate::masks::written;
use crate::place::{Place, entry_of, front, packet_of};
use crate::put::Put;
use crate::trail::{Frame, Spot, Trail};
use box_handlers::{Act, Branch, Change, Query};
use box_masks::Write;

/// Goes through a block and what stands behind it. Each path is a result more; the trail is left as it was.
#[cycle(walk)]
pub(crate) fn block<'a>(
    place: &Place<'_>,
    acts: &'a [Act],
    spot: &Spot,
    trail: &mut Trail<'a>,
    found: &mut Found,
)
    requires { CanWalk place.now trail.old spot.now found.old (body_of acts.now) }
    ensures same { trail.new ≡ trail.old }
    ensures gains { Gains found.old found.new (paths_at place.now trail.old spot.now (body_of acts.now)) }
{
    match acts.split_first() {
        Some((act, more)) => statement(place, act, more, spot, trail, found),
        None => go_on(place, spot, trail, found),
    }
}

// What stands behind a block that is done.
#[cycle(walk)]
fn go_on<'a>(place: &Place<'_>, spot: &Spot, trail: &mut Trail<'a>, found: &mut Found)
    requires stands { Stands place.now trail.old spot.now 0 }
    requires room { HasRoom found.old (behind_at place.now trail.old spot.now (so_far trail.old spot.now)) }
    ensures same { trail.new ≡ trail.old }
    ensures gains { Gains found.old found.new (behind_at place.now trail.old spot.now (so_far trail.old spot.now)) }
{
    if spot.top == 0 {
        finish(spot, trail, found);
    } else {
        let top = spot.top - 1;
        let frame = trail.frames.as_slice()[top];
        let behind = Spot {
            depth: frame.depth,
            top,
            ..*spot
        };
        block(place, frame.acts, &behind, trail, found);
    }
}

// A path that is at its end.
fn finish(spot: &Spot, trail: &Trail<'_>, found: &mut Found)
    requires writes { spot.now.writes ≤ length trail.now.writes }
    requires puts { spot.now.puts ≤ length trail.now.puts }
    requires room { HasRoom found.old (ended (so_far trail.now spot.now)) }
    ensures { Gains found.old found.new (ended (so_far trail.now spot.now)) }
{
    let writes = &trail.writes.as_slice()[..spot.writes];
    let puts = &trail.puts.as_slice()[..spot.puts];
    add_ending(found, writes, puts);
}

#[cycle(walk)]
fn statement<'a>(
    place: &Place<'_>,
    act: &'a Act,
    more: &'a [Act],
    spot: &Spot,
    trail: &mut Trail<'a>,
    found: &mut Found,
)
    requires { CanWalk place.now trail.old spot.now found.old (body_of (act.now ∷ more.now)) }
    ensures same { trail.new ≡ trail.old }
    ensures gains { Gains found.old found.new (paths_at place.now trail.old spot.now (body_of (act.now ∷ more.now))) }
{
    match act {
        Act::Insert(query) => change(place, query, true, more, spot, trail, found),
        Act::Remove(query) => change(place, query, false, more, spot, trail, found),
        Act::Output(port, changes) => {
            output(place, *port, changes.as_slice(), more, spot, trail, found)
        }
        Act::Abort => add_aborted(found),
        Act::Choose(branches) => choice(place, branches.as_slice(), more, spot, trail, found),
        Act::Pick(values, body) => pick(place, *values, body.as_slice(), more, spot, trail, found),
    }
}

#[cycle(walk)]
fn change<'a>(
    place: &Place<'_>,
    query: &Query,
    add: bool,
    more: &'a [Act],
    spot: &Spot,
    trail: &mut Trail<'a>,
    found: &mut Found,
)
    requires { CanWalk place.now trail.old spot.now found.old (Writes query.now add (body_of more.now)) }
    ensures same { trail.new ≡ trail.old }
    ensures gains { Gains found.old found.new
        (paths_at place.now trail.old spot.now (Writes query.now add (body_of more.now))) }
{
    let entry = entry_of(place, front(trail.slots.as_slice(), spot.depth), query);
    let mask = written(place.tuples, spot.mask, entry, add);
    let kept = trail.writes.replace(spot.writes, Write { entry, add });
    let next = Spot {
        writes: spot.writes + 1,
        mask,
        ..*spot
    };
    block(place, more, &next, trail, found);
    trail.writes.replace(spot.writes, kept);
}

#[cycle(walk)]
fn output<'a>(
    place: &Place<'_>,
    port: u32,
    changes: &[Change],
    more: &'a [Act],
    spot: &Spot,
    trail: &mut Trail<'a>,
    found: &mut Found,
)
    requires { CanWalk place.now trail.old spot.now found.old (Emit port changes.now (body_of more.now)) }
    ensures same { trail.new ≡ trail.old }
    ensures gains { Gains found.old found.new
        (paths_at place.now trail.old spot.now (Emit port changes.now (body_of more.now))) }
{
    let packet = packet_of(place, front(trail.slots.as_slice(), spot.depth), changes);
    let kept = trail.puts.replace(spot.puts, Put { port, packet });
    let next = Spot {
        puts: spot.puts + 1,
        ..*spot
    };
    block(place, more, &next, trail, found);
    trail.puts.replace(spot.puts, kept);
}

#[cycle(walk)]
fn choice<'a>(
    place: &Place<'_>,
    branches: &'a [Branch],
    more: &'a [Act],
    spot: &Spot,
    trail: &mut Trail<'a>,
    found: &mut Found,
)
    requires { CanWalk place.now trail.old spot.now found.old (Fork (branches_of branches.now) (body_of more.now)) }
    ensures same { trail.new ≡ trail.old }
    ensures gains { Gains found.old found.new
        (paths_at place.now trail.old spot.now (Fork (branches_of branches.now) (body_of more.now))) }
{
    if more.is_empty() {
        last_choice(place, branches, spot, trail, found);
        return;
    }
    let frame = Frame {
        acts: more,
        depth: spot.depth,
    };
    let kept = trail.frames.replace(spot.top, frame);
    let inner = Spot {
        top: spot.top + 1,
        ..*spot
    };
    let taken = alternatives(place, branches, &inner, trail, found);
    trail.frames.replace(spot.top, kept);
    if !taken {
        block(place, more, spot, trail, found);
    }
}

// A choice at the end of a block, which needs no frame.
#[cycle(walk)]
fn last_choice<'a>(
    place: &Place<'_>,
    branches: &'a [Branch],
    spot: &Spot,
    trail: &mut Trail<'a>,
    found: &mut Found,
)
    requires { CanWalk place.now trail.old spot.now found.old (Fork (branches_of branches.now) Stop) }
    ensures same { trail.new ≡ trail.old }
    ensures gains { Gains found.old found.new
        (paths_at place.now trail.old spot.now (Fork (branches_of branches.now) Stop)) }
{
    let taken = alternatives(place, branches, spot, trail, found);
    if !taken {
        go_on(place, spot, trail, found);
    }
}

// Goes through the branches whose guards are true, and answers whether there are any.
#[cycle(walk)]
fn alternatives<'a>(
    place: &Place<'_>,
    branches: &'a [Branch],
    spot: &Spot,
    trail: &mut Trail<'a>,
    found: &mut Found,
) -> bool
    requires stands { Stands place.now trail.old spot.now (statements_of_branches (branches_of branches.now)) }
    requires fits { BranchesFitAt place.now (picked_at trail.old spot.now) (branches_of branches.now) }
    requires room { HasRoom found.old (chosen_at place.now trail.old spot.now (branches_of branches.now)) }
    ensures same { trail.new ≡ trail.old }
    ensures gains { Gains found.old found.new (chosen_at place.now trail.old spot.now (branches_of branches.now)) }
    ensures taken { result ≡ any_holds (scene_at place.now (picked_at trail.old spot.now))
        (marked place.now.tuples.now spot.now.mask) (branches_of branches.now) }
{
    let mut taken = false;
    for branch in branches {
        taken |= alternative(place, branch, spot, trail, found);
    }
    taken
}

#[cycle(walk)]
fn alternative<'a>(
    place: &Place<'_>,
    branch: &'a Branch,
    spot: &Spot,
    trail: &mut Trail<'a>,
    found: &mut Found,
) -> bool
    requires stands { Stands place.now trail.old spot.now (statements_of (body_of branch.now.body)) }
    requires guard { FormulaFitsAt place.now (picked_at trail.old spot.now) (formula_of branch.now.guard) }
    requires fits { FitsAt place.now (picked_at trail.old spot.now) (body_of branch.now.body) }
    requires room { HasRoom found.old (branch_at place.now trail.old spot.now branch.now) }
    ensures same { trail.new ≡ trail.old }
    ensures gains { Gains found.old found.new (branch_at place.now trail.old spot.now branch.now) }
    ensures taken { result ≡ holds_by (scene_at place.now (picked_at trail.old spot.now))
        (marked place.now.tuples.now spot.now.mask) (formula_of branch.now.guard) }
{
    let picked = front(trail.slots.as_slice(), spot.depth);
    if !test_holds(place, picked, spot.mask, &branch.guard) {
        return false;
    }
    block(place, branch.body.as_slice(), spot, trail, found);
    true
}

#[cycle(walk)]
fn pick<'a>(
    place: &Place<'_>,
    values: u32,
    body: &'a [Act],
    more: &'a [Act],
    spot: &Spot,
    trail: &mut Trail<'a>,
    found: &mut Found,
)
    requires { CanWalk place.now trail.old spot.now found.old (Each values (body_of body.now) (body_of more.now)) }
    ensures same { trail.new ≡ trail.old }
    ensures gains { Gains found.old found.new
        (paths_at place.now trail.old spot.now (Each values (body_of body.now) (body_of more.now))) }
{
    let frame = Frame {
        acts: more,
        depth: spot.depth,
    };
    let kept = trail.frames.replace(spot.top, frame);
    let inner = Spot {
        top: spot.top + 1,
        ..*spot
    };
    each_value(place, values, body, &inner, trail, found);
    trail.frames.replace(spot.top, kept);
}

// Goes through the block of a pick with each value.
#[cycle(walk)]
fn each_value<'a>(
    place: &Place<'_>,
    values: u32,
    body: &'a [Act],
    spot: &Spot,
    trail: &mut Trail<'a>,
    found: &mut Found,
)
    requires stands { StandsWithin place.now trail.old spot.now (statements_of (body_of body.now)) }
    requires fits { FitsEach place.now (picked_at trail.old spot.now) values (body_of body.now) }
    requires room { HasRoom found.old (values_from place.now trail.old spot.now (body_of body.now) 0 values) }
    ensures same { trail.new ≡ trail.old }
    ensures gains { Gains found.old found.new (values_from place.now trail.old spot.now (body_of body.now) 0 values) }
{
    for value in 0..values {
        with_value(place, value, body, spot, trail, found);
    }
}

// Goes through the block of a pick with one value.
#[cycle(walk)]
fn with_value<'a>(
    place: &Place<'_>,
    value: u32,
    body: &'a [Act],
    spot: &Spot,
    trail: &mut Trail<'a>,
    found: &mut Found,
)
    requires stands { StandsWithin place.now trail.old spot.now (statements_of (body_of body.now)) }
    requires fits { FitsAt place.now (picked_at trail.old spot.now ++ value ∷ []) (body_of body.now) }
    requires room { HasRoom found.old (value_at place.now trail.old spot.now (body_of body.now) value) }
    ensures same { trail.new ≡ trail.old }
    ensures gains { Gains found.old found.new (value_at place.now trail.old spot.now (body_of body.now) value) }
{
    let kept = trail.slots.replace(spot.depth, value);
    let inner = Spot {
        depth: spot.depth + 1,
        ..*spot
    };
    block(place, body, &inner, trail, found);
    trail.slots.replace(spot.depth, kept);
}
