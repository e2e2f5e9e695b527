ghost use Rattle.std.specs.Prelude.{◌≡◌, ◌↔◌, ◌≤◌, length, IsSome, IfSome, IsTrue, Some, refl, nat_eq};
ghost use Rattle.std.specs.Ordering.{nat_cmp};
ghost use Rattle.std.specs.Cmp.{partial_equiv_from_equiv};
ghost use Rattle.std.specs.Cmp.Lexicographic.{pointwise, slice_cmp, nat_list_eq_equiv, nat_list_cmp_total, texts_ties};
ghost use Rattle.std.specs.Cmp.Lexicographic.{texts_po};
ghost use Rattle.std.specs.List.{list_all};
ghost use Rattle.amdl_tree.specs.Word.{IsName, IsWord, starts_word, goes_on_with_word};

use crate::reserved::Reserved;
use std::cmp::Ordering;
use std::marker::Model;

/// The name of a network, type, value, field, host or box, which contracts see as its bytes.
///
/// Names are ordered by their bytes. A name is copied at no cost in memory.
#[derive(Clone, Copy, Debug)]
pub struct Name {
    bytes: [u8; 24],
    len: u8,
}

impl Model for Name {
    ghost use Rattle.std.specs.Prelude.{List, ℕ, take};

    ghost Value = { List ℕ };

    ghost use Rattle.amdl_tree.specs.NameBytes.{IsPadded, padded, padded_back};

    ghost view = { λ name. take name.len name.bytes };

    ghost invariant = { IsPadded };

    ghost inverse = { padded };

    ghost inverse_ok = { padded_back };
}

impl PartialEq for Name {
    ghost eq = { λ name other. pointwise nat_eq name other };

    ghost laws = { partial_equiv_from_equiv nat_list_eq_equiv };

    fn eq(&self, other: &Name) -> bool {
        self.bytes() == other.bytes()
    }
}

impl Eq for Name {
    ghost laws = { nat_list_eq_equiv };
}

impl PartialOrd for Name {
    ghost partial_cmp = { λ name other. Some (slice_cmp nat_cmp name other) };

    ghost laws = { texts_po };

    fn partial_cmp(&self, other: &Name) -> Option<Ordering> {
        Some(self.cmp(other))
    }
}

impl Ord for Name {
    ghost cmp = { λ name other. slice_cmp nat_cmp name other };

    ghost total = { nat_list_cmp_total };

    ghost matches_partial_cmp = { λ name other. refl };

    ghost matches_eq = { texts_ties };

    fn cmp(&self, other: &Name) -> Ordering {
        self.bytes().cmp(other.bytes())
    }
}

impl Name {
    /// The name with this spelling. None comes exactly where the bytes are no word, are more than 24, or are a
    /// reserved word. It takes no memory, and time linear in the bytes.
    pub fn new(bytes: &[u8]) -> Option<Name>
        ensures name { IsSome result ↔ IsName bytes.now }
        ensures spelled { IfSome result (λ name. name ≡ bytes.now) }
    {
        if !is_name(bytes) {
            return None;
        }
        let mut kept = [0u8; 24];
        kept[..bytes.len()].copy_from_slice(bytes);
        Some(Name {
            bytes: kept,
            len: bytes.len() as u8,
        })
    }

    /// The spelling, 1 to 24 bytes.
    pub fn bytes(&self) -> &[u8]
        ensures spelled { result.now ≡ self.now }
        ensures name { IsName self.now }
    {
        &self.bytes[..self.len as usize]
    }
}

fn is_name(bytes: &[u8]) -> bool
    ensures { IsTrue result ↔ IsName bytes.now }
{
    bytes.len() <= 24 && is_word(bytes) && Reserved::of(bytes).is_none()
}

fn is_word(bytes: &[u8]) -> bool
    ensures { IsTrue result ↔ IsWord bytes.now }
{
    match bytes {
        [] => false,
        [first, others @ ..] => starts_a_word(*first) && all_go_on(others),
    }
}

fn all_go_on(bytes: &[u8]) -> bool
    ensures { result ≡ list_all goes_on_with_word bytes.now }
{
    bytes.iter().all(|byte| goes_on_with_a_word(*byte))
}

/// Whether a byte starts a word: an ASCII letter or an underscore.
pub fn starts_a_word(byte: u8) -> bool
    ensures { result ≡ starts_word byte }
{
    byte.is_ascii_alphabetic() || byte == b'_'
}

/// Whether a byte goes on with a word that was begun: one that starts a word, or a decimal digit.
pub fn goes_on_with_a_word(byte: u8) -> bool
    ensures { result ≡ goes_on_with_word byte }
{
    starts_a_word(byte) || byte.is_ascii_digit()
}
