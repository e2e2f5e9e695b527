ghost use Rattle.std.specs.Prelude.{◌≡◌, IfOk};
ghost use Rattle.std.specs.List.{position_from};
ghost use Rattle.amdl_tree.specs.Items.{field_items};
ghost use Rattle.tree_plan.specs.Names.{same_name, number_of, all_some};
ghost use Rattle.tree_plan.specs.Net.{field_of, field_names, value_of_field, equation_of};
ghost use Rattle.tree_plan.specs.Tables.{kinds_back};
ghost use Rattle.tree_network.specs.Reads.{field_back, fields_back};

use crate::items::{FieldItem, field_items};
use amdl_tree::{Equal, Item, List, Name, NoMemory};
use net_plan::{FieldPlan, KindPlan};
use std::alloc::Global;
use tree_plan::{kind_number, value_in};

/// The fields with the numbers of their types. None comes exactly where a type isn't declared.
///
/// For each field linear in the types.
#[tactic(auto, using(crate::proofs::PassLemmas::mapped_begun, crate::proofs::PassLemmas::mapped_more, crate::proofs::PassLemmas::mapped_lost, crate::proofs::PassLemmas::mapped_came))]
pub(crate) fn fields_of(
    alloc: Global,
    kinds: &[KindPlan],
    fields: &[FieldItem],
) -> Result<Option<List<FieldPlan>>, NoMemory>
    ensures { IfOk result (λ found. found ≡ all_some (field_of (kinds_back kinds.now)) (fields_back fields.now)) }
{
    let mut plans = List::new(alloc);
    for field in fields {
        match field_of(kinds, *field)? {
            Some(plan) => plans.push(plan)?,
            None => return Ok(None),
        }
    }
    Ok(Some(plans))
}

fn field_of(kinds: &[KindPlan], field: FieldItem) -> Result<Option<FieldPlan>, NoMemory>
    ensures { IfOk result (λ found. found ≡ field_of (kinds_back kinds.now) (field_back field)) }
{
    match kind_number(kinds, field.kind)? {
        Some(kind) => Ok(Some(FieldPlan {
            name: field.name,
            kind,
        })),
        None => Ok(None),
    }
}

/// The names of the fields in their order.
pub(crate) fn names_of(alloc: Global, fields: &[FieldItem]) -> Result<List<Name>, NoMemory>
    ensures { IfOk result (λ names. names ≡ field_names (fields_back fields.now)) }
{
    let mut names = List::new(alloc);
    for field in fields {
        names.push(field.name)?;
    }
    Ok(names)
}

/// The names of the fields of the items in their order. Linear in the items.
pub fn field_names(alloc: Global, items: &[Item]) -> Result<List<Name>, NoMemory>
    ensures { IfOk result (λ names. names ≡ field_names (field_items items.now)) }
{
    let fields = field_items(alloc, items)?;
    names_of(alloc, fields.as_slice())
}

/// An equation of a pattern: the number of its field, and the number of its value among those of the field's type.
/// None comes exactly where a name stands for nothing.
///
/// Linear in the fields, the types and the values of the one type.
pub(crate) fn equation_of(
    kinds: &[KindPlan],
    fields: &[FieldItem],
    equal: Equal,
) -> Result<Option<(usize, u32)>, NoMemory>
    ensures { IfOk result (λ found. found ≡ equation_of (kinds_back kinds.now) (fields_back fields.now) equal) }
{
    let Some(field) = field_number(fields, equal.field) else {
        return Ok(None);
    };
    match value_of_field(kinds, fields, equal.value, field)? {
        Some(value) => Ok(Some((field, value))),
        None => Ok(None),
    }
}

#[tactic(auto, using(crate::proofs::FieldLemmas::field_here))]
fn value_of_field(
    kinds: &[KindPlan],
    fields: &[FieldItem],
    value: Name,
    field: usize,
) -> Result<Option<u32>, NoMemory>
    ensures { IfOk result (λ found. found ≡
        value_of_field (kinds_back kinds.now) (fields_back fields.now) value field) }
{
    match fields.get(field) {
        Some(found) => value_in(kinds, found.kind, value),
        None => Ok(None),
    }
}

#[tactic(auto, using(crate::proofs::FieldLemmas::field_found))]
fn field_number(fields: &[FieldItem], name: Name) -> Option<usize>
    ensures { result ≡ number_of (field_names (fields_back fields.now)) name }
{
    field_place(fields, name)
}

fn field_place(fields: &[FieldItem], name: Name) -> Option<usize>
    ensures { result ≡ position_from (λ field. same_name name field.name) 0 fields.now }
{
    fields.iter().position(|field| name == field.name)
}
