//! Packets as numbers. A packet has a value for each of one to eight fields, and stands as the mixed-radix
//! number of these values, of which the first declared field is the most significant one.
#![tactic(auto)]

ghost use Rattle.std.specs.Prelude.{◌≡◌, ℕ, ◌≤◌, ◌<◌, ◌+◌, ◌-◌, ◌↔◌, List, Option, Some, None, [], ◌∷◌, length, take};
ghost use Rattle.std.specs.Prelude.{slice_index, slice_set, IsTrue, IsOk, IfOk, IsErrOf};
ghost use Rattle.header_set.specs.Headers.{product, field_of, HasFieldCount, IsHeaders, IsFirstUnfit};
ghost use Rattle.header_set.specs.Headers.{HasTooManyPackets, IsWith};
ghost use Rattle.header_set.specs.Pattern.{any_pattern, fixed_at, Matches};

pub mod laws;
mod mixed_radix;

use std::marker::Model;

/// The most fields that a packet can have.
pub const MOST_FIELDS: usize = 8;

/// The most values that a field can have.
const MOST_VALUES: u32 = 256;

/// The most packets that headers can have.
const MOST_PACKETS: u32 = 65_536;

/// Why sizes are no headers. The variants are tried in this order.
#[derive(Clone, Copy, PartialEq, Eq, Debug)]
pub enum HeaderRefusal {
    /// There is no field.
    NoField,
    /// There are more than eight fields.
    TooManyFields,
    /// The first size that doesn't fit is that of this field, and it is 0.
    EmptyField(u32),
    /// The first size that doesn't fit is that of this field, and it is over 256.
    TooManyValues(u32),
    /// There are more than 65,536 packets.
    TooManyPackets,
}

/// The field sizes of a network's packets: one to eight of them, each from 1 to 256, whose product is
/// at most 65,536. Contracts see the list of the sizes.
#[derive(Clone, Copy, PartialEq, Eq, Debug)]
pub struct Headers {
    sizes: [u32; MOST_FIELDS],
    count: usize,
}

impl Model for Headers {
    ghost use Rattle.std.specs.Prelude.{ℕ, List, ◌++◌, ◌-◌, take, length, replicate};
    ghost use Rattle.header_set.specs.Stored.{IsStored, sizes_again, count_again};

    ghost Value = { List ℕ };

    ghost view = { λ h. take h.count h.sizes };

    ghost invariant = { λ h. IsStored h.sizes h.count };

    ghost inverse = { λ sizes. record { sizes = sizes ++ replicate (8 - length sizes) 0; count = length sizes } };

    ghost inverse_ok = { λ h stored i. record {
      sizes = sizes_again h.sizes h.count stored i;
      count = count_again h.sizes h.count stored i;
    } };
}

impl Headers {
    /// The headers of these sizes. It takes no memory, and the first refusal that fits is answered.
    pub fn new(sizes: &[u32]) -> Result<Headers, HeaderRefusal>
        ensures headers { IsOk result ↔ IsHeaders sizes.now }
        ensures value { IfOk result (λ h. h ≡ sizes.now) }

        ensures no_field { IsErrOf result HeaderRefusal.NoField ↔ (length sizes.now ≡ 0) }
        ensures too_many_fields { IsErrOf result HeaderRefusal.TooManyFields ↔ (8 < length sizes.now) }
        ensures empty_field { (k : ℕ) → IsErrOf result (HeaderRefusal.EmptyField k)
            ↔ (IsFirstUnfit sizes.now k × (slice_index sizes.now k ≡ 0)) }
        ensures too_many_values { (k : ℕ) → IsErrOf result (HeaderRefusal.TooManyValues k)
            ↔ (IsFirstUnfit sizes.now k × (256 < slice_index sizes.now k)) }
        ensures too_many_packets { IsErrOf result HeaderRefusal.TooManyPackets ↔ HasTooManyPackets sizes.now }
    {
        if sizes.is_empty() {
            return Err(HeaderRefusal::NoField);
        }
        if sizes.len() > MOST_FIELDS {
            return Err(HeaderRefusal::TooManyFields);
        }
        if let Some(k) = mixed_radix::first_unfit(sizes) {
            let place = k as u32;
            return Err(if sizes[k] == 0 {
                HeaderRefusal::EmptyField(place)
            } else {
                HeaderRefusal::TooManyValues(place)
            });
        }
        if mixed_radix::bounded_product(sizes).is_none() {
            return Err(HeaderRefusal::TooManyPackets);
        }
        Ok(Headers::stored(sizes))
    }

    fn stored(sizes: &[u32]) -> Headers
        requires { IsHeaders sizes.now }
        ensures { result ≡ sizes.now }
    {
        let count = sizes.len();
        let mut kept = [0; MOST_FIELDS];
        kept[..count].copy_from_slice(sizes);
        Headers { sizes: kept, count }
    }

    /// The sizes in the order of the fields.
    fn sizes(&self) -> &[u32]
        ensures sizes { result.now ≡ self.now }
        ensures headers { IsHeaders self.now }
    {
        &self.sizes[..self.count]
    }

    /// That the sizes are headers, for a caller that only has the value.
    pub fn valid(&self)
        ensures { IsHeaders self.now }
    {
        let _sizes = &self.sizes;
    }

    /// The number of packets, from 1 to 65,536. It takes time in the number of fields.
    pub fn count(&self) -> u32
        ensures product { result ≡ product self.now }
        ensures positive { 1 ≤ result }
        ensures bounded { result ≤ 65536 }
    {
        mixed_radix::product_of(self.sizes())
    }

    /// The number of fields, from 1 to 8.
    pub fn fields(&self) -> usize
        ensures length { result ≡ length self.now }
        ensures positive { 1 ≤ result }
        ensures bounded { result ≤ 8 }
    {
        self.count
    }

    /// The number of values of field k, from 1 to 256.
    pub fn size(&self, k: usize) -> u32
        requires { k < length self.now }
        ensures size { result ≡ slice_index self.now k }
        ensures positive { 1 ≤ result }
        ensures bounded { result ≤ 256 }
    {
        self.sizes()[k]
    }

    /// The value of field k in packet p, below the size of the field. It takes time in the number of fields.
    pub fn field(&self, p: u32, k: usize) -> u32
        requires packet { p < product self.now }
        requires in_range { k < length self.now }
        ensures value { result ≡ field_of self.now p k }
        ensures below { result < slice_index self.now k }
    {
        mixed_radix::value_at(self.sizes(), p, k)
    }

    /// The packet p with field k replaced by x, which is below the size of the field. It takes time in the
    /// number of fields.
    pub fn with_field(&self, p: u32, k: usize, x: u32) -> u32
        requires packet { p < product self.now }
        requires in_range { k < length self.now }
        requires value { x < slice_index self.now k }
        ensures { IsWith self.now p k x result }
    {
        mixed_radix::replaced(self.sizes(), p, k, x)
    }
}

/// Perhaps one value for each of eight fields, as what a host may send or must never get. Contracts see
/// the list of the eight optional values.
#[derive(Clone, Copy, PartialEq, Eq, Debug)]
pub struct Pattern {
    values: [Option<u32>; MOST_FIELDS],
}

impl Model for Pattern {
    ghost use Rattle.std.specs.Prelude.{◌≡◌, ℕ, List, Option, length};

    ghost Value = { List (Option ℕ) };

    ghost view = { λ p. p.values };

    ghost invariant = { λ p. length p.values ≡ 8 };

    ghost inverse = { λ values. record { values = values } };
}

impl Pattern {
    /// The pattern that leaves all fields free.
    pub fn any() -> Pattern
        ensures { result ≡ any_pattern }
    {
        Pattern {
            values: [None; MOST_FIELDS],
        }
    }

    /// That there are eight places, for a caller that only has the value.
    pub fn valid(&self)
        ensures { length self.now ≡ 8 }
    {
        let _values = &self.values;
    }

    /// Fixes field k, one of the first eight, to x. A value that was fixed for it before is forgotten.
    pub fn set(&mut self, k: usize, x: u32)
        requires { k < 8 }
        ensures { self.new ≡ slice_set self.old k (Some x) }
    {
        self.values[k] = Some(x);
    }

    /// The value that is fixed for field k, one of the first eight.
    pub fn fixed(&self, k: usize) -> Option<u32>
        requires { k < 8 }
        ensures { result ≡ fixed_at self.now k }
    {
        self.values[k]
    }

    /// Whether packet p has each value that is fixed for one of its fields. It takes time in the square of
    /// the number of fields.
    pub fn matches(&self, headers: &Headers, p: u32) -> bool
        requires { p < product headers.now }
        ensures { IsTrue result ↔ Matches headers.now self.now p }
    {
        for k in 0..headers.fields() {
            if !self.agrees(headers, p, k) {
                return false;
            }
        }
        true
    }

    /// Whether packet p has the value that is fixed for field k, if one is.
    fn agrees(&self, headers: &Headers, p: u32, k: usize) -> bool
        requires packet { p < product headers.now }
        requires in_range { k < length headers.now }
        requires place { k < 8 }
        ensures { IsTrue result ↔ ((x : ℕ) → fixed_at self.now k ≡ Some x → field_of headers.now p k ≡ x) }
    {
        match self.fixed(k) {
            Some(x) => headers.field(p, k) == x,
            None => true,
        }
    }
}
