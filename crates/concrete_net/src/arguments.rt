ghost use Rattle.std.specs.Prelude.{◌≡◌, ◌<◌, [], length, map, slice_index_or, All, IfOk};
ghost use Rattle.net_plan.specs.Plan.{kind_at, arguments_of, class_of};
ghost use Rattle.net_plan.specs.Sound.{IsClass, IsSound};
ghost use Rattle.net_runs.specs.World.{relations_of};
ghost use Rattle.concrete_net.specs.Sizes.{argument_sizes};

use amdl_tree::{List, NoMemory};
use net_plan::{BoxPlan, ClassPlan, Plan, RelationPlan};
use std::alloc::Global;
use std::marker::Model;

/// How many values each argument of each relation of each box of a network has. Steps at boxes read tuples by it.
#[derive(Drop)]
pub struct Arguments {
    sizes: List<List<List<u32>>>,
}

impl Model for Arguments {
    ghost use Rattle.std.specs.Prelude.{ℕ, List};

    ghost Value = { List (List (List ℕ)) };

    ghost view = { λ arguments. arguments.sizes };
}

impl Arguments {
    /// Those of a sound plan. Linear in the boxes, each with the arguments of its relations.
    pub fn new(alloc: Global, plan: &Plan) -> Result<Arguments, NoMemory>
        requires { IsSound plan.now }
        ensures { IfOk result (λ arguments. arguments ≡ argument_sizes plan.now) }
    {
        Ok(Arguments {
            sizes: sizes_of_boxes(alloc, plan)?,
        })
    }

    /// Those of a box.
    pub(crate) fn of_box(&self, b: u32) -> &[List<u32>]
        requires { b < length self.now }
        ensures { result.now ≡ slice_index_or self.now b [] }
    {
        self.sizes.as_slice()[b as usize].as_slice()
    }
}

fn sizes_of_boxes(alloc: Global, plan: &Plan) -> Result<List<List<List<u32>>>, NoMemory>
    requires { IsSound plan.now }
    ensures { IfOk result (λ sizes. sizes ≡ argument_sizes plan.now) }
{
    let mut sizes = List::new(alloc);
    for boxed in plan.boxes.as_slice() {
        sizes.push(sizes_of_box(alloc, plan, boxed)?)?;
    }
    Ok(sizes)
}

fn sizes_of_box(alloc: Global, plan: &Plan, boxed: &BoxPlan) -> Result<List<List<u32>>, NoMemory>
    requires sound { IsSound plan.now }
    requires class { boxed.now.class < length plan.now.classes }
    ensures { IfOk result (λ sizes. sizes ≡ relations_of plan.now (class_of plan.now boxed.now)) }
{
    let class = &plan.classes.as_slice()[boxed.class as usize];
    sizes_of_class(alloc, plan, class)
}

fn sizes_of_class(
    alloc: Global,
    plan: &Plan,
    class: &ClassPlan,
) -> Result<List<List<u32>>, NoMemory>
    requires sound { IsSound plan.now }
    requires class { IsClass plan.now class.now }
    ensures { IfOk result (λ sizes. sizes ≡ relations_of plan.now class.now) }
{
    let mut sizes = List::new(alloc);
    for relation in class.relations.as_slice() {
        sizes.push(sizes_of_relation(alloc, plan, relation)?)?;
    }
    Ok(sizes)
}

fn sizes_of_relation(
    alloc: Global,
    plan: &Plan,
    relation: &RelationPlan,
) -> Result<List<u32>, NoMemory>
    requires sound { IsSound plan.now }
    requires kinds { All (λ kind. kind < length plan.now.kinds) relation.now.kinds }
    ensures { IfOk result (λ sizes. sizes ≡ arguments_of plan.now relation.now) }
{
    let mut sizes = List::new(alloc);
    for kind in relation.kinds.as_slice() {
        sizes.push(values_of(plan, *kind))?;
    }
    Ok(sizes)
}

// The number of values of a type.
fn values_of(plan: &Plan, kind: u32) -> u32
    requires sound { IsSound plan.now }
    requires kind { kind < length plan.now.kinds }
    ensures { result ≡ length (kind_at plan.now kind).values }
{
    let kinds = plan.kinds.as_slice();
    kinds[kind as usize].values.as_slice().len() as u32
}
