// Searches among sites in the order of their tuples, and among rising numbers.
ghost use Rattle.std.specs.Prelude.{◌≡◌, ℕ, ◌<◌, ◌≤◌, ◌^◌, length, slice_index_or, MatchOption};
ghost use Rattle.std.specs.List.{Contains};
ghost use Rattle.std.specs.List.Sorted.{IsNonDecreasing, IsNonDecreasingBy};
ghost use Rattle.query_tables.specs.Search.{HasNone, HasNoneFrom, IsInBoth};
ghost use Rattle.query_tables.specs.Tables.{key_of, key_seen};

use crate::sites::{Site, SiteNumbers};
use crate::spots::key_of;
use box_contents::Entry;

/// The numbers of the sites of the tuple. Logarithmic in the sites.
pub fn numbers_of(sites: &[Site], entry: Entry) -> SiteNumbers
    requires rising { IsNonDecreasingBy key_seen sites.now }
    requires few { length sites.now < 2 ^ 32 }
    ensures within { result.to ≤ length sites.now }
    ensures all { (number : ℕ) (d : Site) → number < length sites.now →
        key_seen (slice_index_or sites.now number d) ≡ key_of entry →
        (result.from ≤ number) × (number < result.to) }
{
    SiteNumbers {
        from: place_of(sites, entry) as u32,
        to: place_behind(sites, entry) as u32,
    }
}

// How many sites come before those of the tuple.
fn place_of(sites: &[Site], entry: Entry) -> usize
    requires { IsNonDecreasingBy key_seen sites.now }
    ensures within { result ≤ length sites.now }
    ensures before { (k : ℕ) (d : Site) → k < result → key_seen (slice_index_or sites.now k d) < key_of entry }
{
    let key = key_of(entry);
    sites.partition_point(|site| key_of(site.entry) < key)
}

// How many sites come before those of later tuples.
fn place_behind(sites: &[Site], entry: Entry) -> usize
    requires { IsNonDecreasingBy key_seen sites.now }
    ensures within { result ≤ length sites.now }
    ensures behind { (k : ℕ) (d : Site) → result ≤ k → k < length sites.now →
        key_of entry < key_seen (slice_index_or sites.now k d) }
{
    let key = key_of(entry);
    sites.partition_point(|site| key_of(site.entry) <= key)
}

/// The least number from one on that both lists have. It leaps from the one to the other by binary searches.
pub fn common_from(one: &[u32], other: &[u32], from: u32) -> Option<u32>
    requires one { IsNonDecreasing one.now }
    requires other { IsNonDecreasing other.now }
    ensures { MatchOption result (HasNoneFrom (IsInBoth one.now other.now) from)
        (λ k. (from ≤ k) × IsInBoth one.now other.now k × HasNone (IsInBoth one.now other.now) from k) }
{
    let mut low = from;
    while let Some(first) = least_from(one, low) {
        let second = least_from(other, first)?;
        if second == first {
            return Some(first);
        }
        low = second;
    }
    None
}

// The least of the numbers from one on.
fn least_from(numbers: &[u32], from: u32) -> Option<u32>
    requires { IsNonDecreasing numbers.now }
    ensures { MatchOption result (HasNoneFrom (Contains numbers.now) from)
        (λ k. (from ≤ k) × Contains numbers.now k × HasNone (Contains numbers.now) from k) }
{
    numbers.get(place_from(numbers, from)).copied()
}

// How many of the numbers are below one.
fn place_from(numbers: &[u32], from: u32) -> usize
    requires { IsNonDecreasing numbers.now }
    ensures within { result ≤ length numbers.now }
    ensures before { (k : ℕ) (d : ℕ) → k < result → slice_index_or numbers.now k d < from }
    ensures behind { (k : ℕ) (d : ℕ) → result ≤ k → k < length numbers.now → from ≤ slice_index_or numbers.now k d }
{
    numbers.partition_point(|number| *number < from)
}
