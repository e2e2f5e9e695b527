//! Relations, first contents, handlers and queries of boxes, and what queries and changes come to at a packet.
ghost use Rattle.std.specs.Prelude.{◌≡◌, ℕ, ◌<◌, ◌≤◌, [], length, map, slice_index_or, All};
ghost use Rattle.box_contents.specs.Contents.{IsRising, holds_entry};
ghost use Rattle.box_handlers.specs.Tuple.{tuples_over, tuple_number, value_of};
ghost use Rattle.net_plan.specs.Plan.{packets_of, boxes_of, box_at, class_of, ports_of, values_of, relation_at};
ghost use Rattle.net_plan.specs.Plan.{tuples_of, fields_at};
ghost use Rattle.net_plan.specs.Reading.{IsRead, TermsFitAt, QueryFitsAt, ChangesFitAt, tuple_at, changed_at};

use super::Network;
use crate::plan::RelationPlan;
use box_contents::{Entry, is_among};
use box_handlers::{Act, Change, Query, Term, queries_fit};

impl Network {
    /// The number of relations of a box, at most 16.
    pub fn relations(&self, b: u32) -> u32
        requires { b < boxes_of self.now }
        ensures relations { result ≡ length (class_of self.now (box_at self.now b)).relations }
        ensures few { result ≤ 16 }
    {
        self.class(b).relations.as_slice().len() as u32
    }

    /// The number of tuples of a relation of a box, at most 65,536. Linear in the arguments of the relation.
    pub fn tuples(&self, b: u32, relation: u32) -> u32
        requires boxed { b < boxes_of self.now }
        requires relation { relation < length (class_of self.now (box_at self.now b)).relations }
        ensures tuples { result ≡ tuples_of self.now (relation_at (class_of self.now (box_at self.now b)) relation) }
        ensures few { result ≤ 65536 }
    {
        self.product_of(self.relation(b, relation).kinds.as_slice())
    }

    /// The first contents of a box in rising order, by `sound` at most 1,024 entries.
    pub fn first_entries(&self, b: u32) -> &[Entry]
        requires { b < boxes_of self.now }
        ensures entries { result.now ≡ (box_at self.now b).first }
        ensures rising { IsRising result.now }
    {
        self.sound();
        self.boxed(b).first.as_slice()
    }

    /// Whether an entry is among the first contents of a box. Logarithmic in these.
    pub fn first(&self, b: u32, entry: Entry) -> bool
        requires { b < boxes_of self.now }
        ensures { result ≡ holds_entry (box_at self.now b).first entry }
    {
        is_among(self.first_entries(b), entry)
    }

    /// The handler of a port of a box.
    pub fn handler(&self, b: u32, port: u32) -> &[Act]
        requires boxed { b < boxes_of self.now }
        requires port { port < ports_of self.now (box_at self.now b) }
        ensures { result.now ≡ slice_index_or (class_of self.now (box_at self.now b)).handlers port [] }
    {
        self.class(b).handlers.as_slice()[port as usize].as_slice()
    }

    /// The queries of a box, at most 12. Each of them fits with no pick around it, so that its tuple is read with no
    /// picked value.
    pub fn queries(&self, b: u32) -> &[Query]
        requires { b < boxes_of self.now }
        ensures queries { result.now ≡ (class_of self.now (box_at self.now b)).queries }
        ensures few { length result.now ≤ 12 }
        ensures fit { All (QueryFitsAt self.now (class_of self.now (box_at self.now b)) []) result.now }
    {
        queries_fit();
        self.class(b).queries.as_slice()
    }

    /// The tuple of a query of a box at a packet. The query is one of `queries`, or stands in a handler of the box
    /// within picks of which `picked` has the values, the outermost first. Linear in the arguments of the query, each
    /// in the time of a field.
    pub fn tuple_at(&self, b: u32, q: &Query, p: u32, picked: &[u32]) -> Entry
        requires boxed { b < boxes_of self.now }
        requires packet { p < packets_of self.now }
        requires fits { QueryFitsAt self.now (class_of self.now (box_at self.now b)) picked.now q.now }
        ensures { result ≡ tuple_at self.now (class_of self.now (box_at self.now b)) p picked.now q.now }
    {
        let kinds = self.relation(b, q.relation).kinds.as_slice();
        Entry {
            relation: q.relation,
            tuple: self.number_of(kinds, q.args.as_slice(), p, picked),
        }
    }

    /// The packet after some changes, each of whose new values is read from the packet as it came. The changes stand
    /// within picks of which `picked` has the values, the outermost first. Linear in the changes, each in the time of
    /// a field.
    pub fn changed(&self, p: u32, changes: &[Change], picked: &[u32]) -> u32
        requires packet { p < packets_of self.now }
        requires fit { ChangesFitAt self.now picked.now changes.now }
        ensures fields { fields_at self.now result ≡ changed_at self.now p picked.now changes.now }
        ensures in_range { result < packets_of self.now }
    {
        self.sound();
        let mut changed = p;
        for change in changes {
            let value = self.value_at(change.to, p, picked);
            changed = self
                .headers()
                .with_field(changed, change.field as usize, value);
        }
        changed
    }

    // The number of the tuple of some terms over these types.
    fn number_of(&self, kinds: &[u32], terms: &[Term], p: u32, picked: &[u32]) -> u32
        requires packet { p < packets_of self.now }
        requires kinds { All (λ kind. kind < length self.now.kinds) kinds.now }
        requires few { tuples_over (map (values_of self.now) kinds.now) ≤ 65536 }
        requires fit { TermsFitAt self.now picked.now kinds.now terms.now }
        ensures { result
            ≡ tuple_number (map (values_of self.now) kinds.now) (map (value_of (fields_at self.now p) picked.now) terms.now) }
    {
        self.sound();
        let mut tuple = 0;
        for (place, term) in terms.iter().enumerate() {
            tuple = tuple * self.values(kinds[place]) + self.value_at(*term, p, picked);
        }
        tuple
    }

    // The number of the tuples over these types.
    fn product_of(&self, kinds: &[u32]) -> u32
        requires kinds { All (λ kind. kind < length self.now.kinds) kinds.now }
        requires few { tuples_over (map (values_of self.now) kinds.now) ≤ 65536 }
        ensures { result ≡ tuples_over (map (values_of self.now) kinds.now) }
    {
        self.sound();
        let mut tuples = 1;
        for kind in kinds {
            tuples *= self.values(*kind);
        }
        tuples
    }

    // The value of a term at a packet.
    fn value_at(&self, term: Term, p: u32, picked: &[u32]) -> u32
        requires packet { p < packets_of self.now }
        requires read { IsRead self.now picked.now term }
        ensures { result ≡ value_of (fields_at self.now p) picked.now term }
    {
        match term {
            Term::Field(k) => self.headers().field(p, k as usize),
            Term::Value(x) => x,
            Term::Picked(i) => picked[i as usize],
        }
    }

    // A relation of a box.
    fn relation(&self, b: u32, relation: u32) -> &RelationPlan
        requires boxed { b < boxes_of self.now }
        requires relation { relation < length (class_of self.now (box_at self.now b)).relations }
        ensures relation { result.now ≡ relation_at (class_of self.now (box_at self.now b)) relation }
        ensures kinds { All (λ kind. kind < length self.now.kinds) result.now.kinds }
        ensures few { tuples_of self.now result.now ≤ 65536 }
    {
        self.sound();
        &self.class(b).relations.as_slice()[relation as usize]
    }
}
