//! What terms, queries and changes come to.
ghost use Rattle.std.specs.Prelude.{◌≡◌, [], map, slice_index, slice_index_or, slice_set, IfOk};
ghost use Rattle.handler_runs.specs.Code.{scene_by};
ghost use Rattle.handler_runs.specs.Reading.{number_by, value_by, entry_by, packet_by};

use crate::setting::Setting;
use amdl_tree::{List, NoMemory};
use box_contents::Entry;
use box_handlers::{Change, Query, Term};
use std::alloc::Global;

// The number at a place, and 0 where there is none.
fn number_at(numbers: &[u32], place: u32) -> u32
    ensures { result ≡ slice_index numbers.now place }
{
    match numbers.get(place as usize) {
        Some(number) => *number,
        None => 0,
    }
}

/// The value of a term.
pub(crate) fn value_of(setting: &Setting<'_>, picked: &[u32], term: Term) -> u32
    ensures { result ≡ value_by (scene_by setting.now picked.now) term }
{
    match term {
        Term::Field(k) => number_at(setting.fields, k),
        Term::Value(x) => x,
        Term::Picked(i) => number_at(picked, i),
    }
}

// The values of terms.
#[tactic(auto, using(crate::proofs::CodeLemmas::mapped_more, crate::proofs::CodeLemmas::mapped_all))]
fn values_of(
    alloc: Global,
    setting: &Setting<'_>,
    picked: &[u32],
    terms: &[Term],
) -> Result<List<u32>, NoMemory>
    ensures { IfOk result (λ values. values ≡ map (value_by (scene_by setting.now picked.now)) terms.now) }
{
    let mut values = List::new(alloc);
    for term in terms {
        values.push(value_of(setting, picked, *term))?;
    }
    Ok(values)
}

// The mixed radix of values over sizes, the first one most significant. Numbers that don't fit saturate.
#[tactic(auto, using(crate::proofs::CodeLemmas::digit_more, crate::proofs::CodeLemmas::no_digit, crate::proofs::CodeLemmas::no_size))]
fn number_of(sizes: &[u32], values: &[u32]) -> u32
    ensures { result ≡ number_by 0 sizes.now values.now }
{
    let mut number = 0u32;
    for (place, size) in sizes.iter().enumerate() {
        match values.get(place) {
            Some(value) => number = number.saturating_mul(*size).saturating_add(*value),
            None => return number,
        }
    }
    number
}

// The sizes of the arguments of a relation.
fn sizes_of(relations: &[List<u32>], relation: u32) -> &[u32]
    ensures { result.now ≡ slice_index_or relations.now relation [] }
{
    match relations.get(relation as usize) {
        Some(sizes) => sizes.as_slice(),
        None => &[],
    }
}

/// The tuple of a query. Linear in its arguments.
pub(crate) fn entry_of(
    alloc: Global,
    setting: &Setting<'_>,
    picked: &[u32],
    query: &Query,
) -> Result<Entry, NoMemory>
    ensures { IfOk result (λ entry. entry ≡ entry_by (scene_by setting.now picked.now) query.now) }
{
    let values = values_of(alloc, setting, picked, query.args.as_slice())?;
    let sizes = sizes_of(setting.relations, query.relation);
    Ok(Entry {
        relation: query.relation,
        tuple: number_of(sizes, values.as_slice()),
    })
}

fn copy_of(alloc: Global, numbers: &[u32]) -> Result<List<u32>, NoMemory>
    ensures { IfOk result (λ copy. copy ≡ numbers.now) }
{
    let mut copy = List::new(alloc);
    for number in numbers {
        copy.push(*number)?;
    }
    Ok(copy)
}

// The number at a place is another one, if there is one.
#[tactic(auto, using(crate::proofs::CodeLemmas::set_past))]
fn set_number(numbers: &mut List<u32>, place: u32, number: u32)
    ensures { numbers.new ≡ slice_set numbers.old place number }
{
    if (place as usize) < numbers.as_slice().len() {
        numbers.replace(place as usize, number);
    }
}

/// The packet after some changes, all of whose new values are read from the packet as it was received. Linear in the
/// fields and the changes.
pub(crate) fn packet_of(
    alloc: Global,
    setting: &Setting<'_>,
    picked: &[u32],
    changes: &[Change],
) -> Result<u32, NoMemory>
    ensures { IfOk result (λ packet. packet ≡ packet_by (scene_by setting.now picked.now) changes.now) }
{
    let mut values = copy_of(alloc, setting.fields)?;
    for change in changes {
        set_number(
            &mut values,
            change.field,
            value_of(setting, picked, change.to),
        );
    }
    Ok(number_of(setting.sizes, values.as_slice()))
}
