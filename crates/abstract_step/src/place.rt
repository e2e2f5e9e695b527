//! What is read off at a place: tuples, packets and values.
ghost use Rattle.std.specs.Prelude.{◌≡◌, ◌<◌, ◌≤◌, ◌+◌, ◌*◌, ℕ, List, length, take, slice_index, MatchOption};
ghost use Rattle.header_set.specs.Headers.{product};
ghost use Rattle.box_handlers.specs.Fits.{ArePicked, ChangesFit};
ghost use Rattle.box_executions.specs.Environment.{fields_of};
ghost use Rattle.net_plan.specs.Plan.{sizes_of, surroundings_of};
ghost use Rattle.net_plan.specs.Reading.{QueryFitsAt, tuple_at};
ghost use Rattle.handler_runs.specs.Reading.{capped, entry_by, packet_by, value_by};
ghost use Rattle.abstract_step.specs.Walk.{IsPlace, HasSize, class_at, scene_at};

use box_contents::Entry;
use box_handlers::{Change, Query, Term};
use header_set::Headers;
use header_set::laws::{fields_are_below_sizes, fields_determine_packet};
use net_plan::Network;

/// Where a walk goes: a box, and a packet with the values of its fields and the tuples that the queries of the box have
/// at it.
#[derive(Clone, Copy)]
pub(crate) struct Place<'a> {
    pub(crate) net: &'a Network,
    pub(crate) b: u32,
    pub(crate) p: u32,
    pub(crate) fields: &'a [u32],
    pub(crate) tuples: &'a [Entry],
}

/// The values of the fields of a packet, each at its place. Linear in the fields.
pub(crate) fn read_fields(headers: &Headers, p: u32, fields: &mut [u32])
    requires packet { p < product headers.now }
    requires long { length fields.old ≡ length headers.now }
    ensures { fields.new ≡ fields_of headers.now p }
{
    headers.valid();
    let mut rest = p;
    let mut k = headers.fields();
    while k > 0 {
        k -= 1;
        let size = headers.size(k);
        fields[k] = rest % size;
        rest /= size;
    }
}

/// The first of some numbers.
pub(crate) fn front(numbers: &[u32], many: usize) -> &[u32]
    requires { many ≤ length numbers.now }
    ensures { result.now ≡ take many numbers.now }
{
    &numbers[..many]
}

// The number at a place, and 0 where there is none.
fn number_at(numbers: &[u32], place: u32) -> u32
    ensures { result ≡ slice_index numbers.now place }
{
    match numbers.get(place as usize) {
        Some(number) => *number,
        None => 0,
    }
}

/// The value of a term.
pub(crate) fn value_of(place: &Place<'_>, picked: &[u32], term: Term) -> u32
    requires { IsPlace place.now }
    ensures { result ≡ value_by (scene_at place.now picked.now) term }
{
    match term {
        Term::Field(k) => number_at(place.fields, k),
        Term::Value(x) => x,
        Term::Picked(i) => number_at(picked, i),
    }
}

// The number with a digit more, which is the value of a term, where it is known: how many values the type of the term
// has is needed unless the number is 0, and only a field shows it.
fn with_digit(place: &Place<'_>, number: u32, term: Term, value: u32) -> Option<u32>
    ensures { MatchOption result (Unit {0}) (λ n. (size : ℕ) → HasSize (sizes_of place.now.net.now) size term →
        n ≡ capped (capped (number * size) + value)) }
{
    if number == 0 {
        return Some(value);
    }
    let headers = place.net.headers();
    match term {
        Term::Field(k) if (k as usize) < headers.fields() => {
            let size = headers.size(k as usize);
            Some(number.saturating_mul(size).saturating_add(value))
        }
        _ => None,
    }
}

/// The tuple of a query. Linear in its arguments, where no constant and no pick stands behind a field or a value other
/// than 0; the network answers for those.
pub(crate) fn entry_of(place: &Place<'_>, picked: &[u32], query: &Query) -> Entry
    requires place { IsPlace place.now }
    requires fits { QueryFitsAt place.now.net.now (class_at place.now) picked.now query.now }
    ensures entry { result ≡ entry_by (scene_at place.now picked.now) query.now }
    ensures tuple { result ≡ tuple_at place.now.net.now (class_at place.now) place.now.p picked.now query.now }
{
    fields_are_below_sizes();
    place.net.sound();
    let mut tuple = 0;
    for term in query.args.as_slice() {
        let value = value_of(place, picked, *term);
        match with_digit(place, tuple, *term, value) {
            Some(longer) => tuple = longer,
            None => return place.net.tuple_at(place.b, query, place.p, picked),
        }
    }
    Entry {
        relation: query.relation,
        tuple,
    }
}

/// The packet after some changes.
pub(crate) fn packet_of(place: &Place<'_>, picked: &[u32], changes: &[Change]) -> u32
    requires place { IsPlace place.now }
    requires fits { (picks : List ℕ) × ArePicked picks picked.now
        × ChangesFit (surroundings_of place.now.net.now (class_at place.now)) picks changes.now }
    ensures { result ≡ packet_by (scene_at place.now picked.now) changes.now }
{
    fields_are_below_sizes();
    fields_determine_packet();
    place.net.sound();
    place.net.changed(place.p, changes, picked)
}
