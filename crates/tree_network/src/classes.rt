ghost use Rattle.std.specs.Prelude.{◌≡◌, IfOk};
ghost use Rattle.tree_plan.specs.Names.{all_some, kind_number};
ghost use Rattle.tree_plan.specs.Handlers.{handlers_of};
ghost use Rattle.tree_plan.specs.Net.{relation_of, relation_names, class_with, class_by};
ghost use Rattle.tree_plan.specs.Tables.{kinds_back, known_by};
ghost use Rattle.tree_network.specs.Reads.{classes_back};

use crate::names::copied;
use amdl_tree::{Class, List, Name, NoMemory, Relation};
use net_plan::{ClassPlan, KindPlan, RelationPlan};
use std::alloc::Global;
use tree_plan::{Kinds, Numbered, Tables, handlers_of, kind_number, queries_of};

/// The classes with numbers in place of names. None comes exactly where a name stands for nothing.
///
/// The time is that of the numbered handlers and of their queries, and for each argument of a relation linear in the
/// types.
#[tactic(auto, using(crate::proofs::PassLemmas::mapped_begun, crate::proofs::PassLemmas::mapped_more, crate::proofs::PassLemmas::mapped_lost, crate::proofs::PassLemmas::mapped_came))]
pub(crate) fn classes_of(
    alloc: Global,
    kinds: &Kinds,
    fields: &[Name],
    classes: &[&Class],
) -> Result<Option<List<ClassPlan>>, NoMemory>
    ensures { IfOk result (λ found. found ≡
        all_some (class_by (kinds_back kinds.now) fields.now) (classes_back classes.now)) }
{
    let mut plans = List::new(alloc);
    for class in classes {
        match class_of(alloc, kinds, fields, class)? {
            Some(plan) => plans.push(plan)?,
            None => return Ok(None),
        }
    }
    Ok(Some(plans))
}

/// A class with numbers in place of names. None comes exactly where a name stands for nothing.
pub(crate) fn class_of(
    alloc: Global,
    kinds: &Kinds,
    fields: &[Name],
    class: &Class,
) -> Result<Option<ClassPlan>, NoMemory>
    ensures { IfOk result (λ found. found ≡ class_by (kinds_back kinds.now) fields.now class.now) }
{
    let relations = Numbered::new(alloc, relation_names(alloc, class)?)?;
    let ports = Numbered::new(alloc, copied(alloc, class.ports.as_slice())?)?;
    let tables = Tables {
        kinds,
        fields,
        relations: &relations,
        ports: &ports,
    };
    class_with(alloc, &tables, class)
}

fn class_with(alloc: Global, tables: &Tables, class: &Class) -> Result<Option<ClassPlan>, NoMemory>
    ensures { IfOk result (λ found. found ≡
        class_with (kinds_back tables.now.kinds.now) class.now (handlers_of (known_by tables.now) class.now.handlers)) }
{
    let Some(relations) = relations_of(alloc, tables.kinds.plans(), class.relations.as_slice())?
    else {
        return Ok(None);
    };
    let Some(handlers) = handlers_of(alloc, tables, class.handlers.as_slice())? else {
        return Ok(None);
    };
    let ports = copied(alloc, class.ports.as_slice())?;
    let queries = queries_of(alloc, handlers.as_slice())?;
    Ok(Some(ClassPlan {
        ports,
        relations,
        handlers,
        queries,
    }))
}

fn relation_names(alloc: Global, class: &Class) -> Result<List<Name>, NoMemory>
    ensures { IfOk result (λ names. names ≡ relation_names class.now) }
{
    let mut names = List::new(alloc);
    for relation in class.relations.as_slice() {
        names.push(relation.name)?;
    }
    Ok(names)
}

#[tactic(auto, using(tree_plan::proofs::StepLemmas::all_begun, tree_plan::proofs::StepLemmas::all_more, tree_plan::proofs::StepLemmas::all_lost, tree_plan::proofs::StepLemmas::all_came))]
fn relations_of(
    alloc: Global,
    kinds: &[KindPlan],
    relations: &[Relation],
) -> Result<Option<List<RelationPlan>>, NoMemory>
    ensures { IfOk result (λ found. found ≡ all_some (relation_of (kinds_back kinds.now)) relations.now) }
{
    let mut plans = List::new(alloc);
    for relation in relations {
        match relation_of(alloc, kinds, relation)? {
            Some(plan) => plans.push(plan)?,
            None => return Ok(None),
        }
    }
    Ok(Some(plans))
}

fn relation_of(
    alloc: Global,
    kinds: &[KindPlan],
    relation: &Relation,
) -> Result<Option<RelationPlan>, NoMemory>
    ensures { IfOk result (λ found. found ≡ relation_of (kinds_back kinds.now) relation.now) }
{
    match kind_numbers(alloc, kinds, relation.kinds.as_slice())? {
        Some(numbers) => Ok(Some(RelationPlan {
            name: relation.name,
            kinds: numbers,
        })),
        None => Ok(None),
    }
}

#[tactic(auto, using(tree_plan::proofs::StepLemmas::all_begun, tree_plan::proofs::StepLemmas::all_more, tree_plan::proofs::StepLemmas::all_lost, tree_plan::proofs::StepLemmas::all_came))]
fn kind_numbers(
    alloc: Global,
    kinds: &[KindPlan],
    names: &[Name],
) -> Result<Option<List<u32>>, NoMemory>
    ensures { IfOk result (λ found. found ≡ all_some (kind_number (kinds_back kinds.now)) names.now) }
{
    let mut numbers = List::new(alloc);
    for name in names {
        match kind_number(kinds, *name)? {
            Some(number) => numbers.push(number)?,
            None => return Ok(None),
        }
    }
    Ok(Some(numbers))
}
