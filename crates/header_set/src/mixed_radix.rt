//! The arithmetic, as functions over the list of the sizes.

ghost use Rattle.std.specs.Prelude.{◌≡◌, ℕ, ◌≤◌, ◌<◌, ◌+◌, ◌*◌, length, slice_index, MatchOption};
ghost use Rattle.header_set.specs.Headers.{product, weight, field_of, IsSize, FirstSizesFit, IsHeaders, IsWith};

use crate::{MOST_PACKETS, MOST_VALUES};

/// The first place whose size no field may have.
pub(crate) fn first_unfit(sizes: &[u32]) -> Option<usize>
    ensures { MatchOption result
        (FirstSizesFit sizes.now (length sizes.now))
        (λ k. (k < length sizes.now) × (¬ IsSize (slice_index sizes.now k)) × FirstSizesFit sizes.now k) }
{
    sizes
        .iter()
        .position(|&size| size == 0 || size > MOST_VALUES)
}

/// The product of the sizes, or None where it is over the limit.
pub(crate) fn bounded_product(sizes: &[u32]) -> Option<u32>
    requires { FirstSizesFit sizes.now (length sizes.now) }
    ensures { MatchOption result
        (65536 < product sizes.now)
        (λ total. (total ≡ product sizes.now) × (total ≤ 65536)) }
{
    let mut total = 1;
    for size in sizes {
        total *= *size;
        if total > MOST_PACKETS {
            return None;
        }
    }
    Some(total)
}

/// The product of sizes whose product is known to be within the limit.
pub(crate) fn product_of(sizes: &[u32]) -> u32
    requires fit { FirstSizesFit sizes.now (length sizes.now) }
    requires few_packets { product sizes.now ≤ 65536 }
    ensures { result ≡ product sizes.now }
{
    let mut total = 1;
    for size in sizes {
        total *= *size;
    }
    total
}

/// What one step of field k counts for.
pub(crate) fn weight_of(sizes: &[u32], k: usize) -> u32
    requires headers { IsHeaders sizes.now }
    requires in_range { k < length sizes.now }
    ensures weight { result ≡ weight sizes.now k }
    ensures positive { 1 ≤ result }
    ensures bounded { slice_index sizes.now k * result ≤ 65536 }
{
    product_of(&sizes[k + 1..])
}

/// The value of field k in packet p.
pub(crate) fn value_at(sizes: &[u32], p: u32, k: usize) -> u32
    requires headers { IsHeaders sizes.now }
    requires in_range { k < length sizes.now }
    ensures value { result ≡ field_of sizes.now p k }
    ensures below { result < slice_index sizes.now k }
{
    p / weight_of(sizes, k) % sizes[k]
}

/// The packet p with field k replaced by x.
pub(crate) fn replaced(sizes: &[u32], p: u32, k: usize, x: u32) -> u32
    requires headers { IsHeaders sizes.now }
    requires packet { p < product sizes.now }
    requires in_range { k < length sizes.now }
    requires value { x < slice_index sizes.now k }
    ensures { IsWith sizes.now p k x result }
{
    let weight = weight_of(sizes, k);
    let rest = p - value_at(sizes, p, k) * weight;
    rest + x * weight
}
