// Marks kept as the bits of words of 64.
ghost use Rattle.std.specs.Prelude.{◌≡◌, ◌≢◌, ℕ, ◌+◌, ◌*◌, ◌/◌, ◌%◌, ◌<◌, ◌≤◌, true, length, slice_set};
ghost use Rattle.std.specs.Prelude.{MatchOption, if◌then◌else◌};
ghost use Rattle.std.specs.Int.{bit_at};
ghost use Rattle.std.specs.Vec.{vec_len};
ghost use Rattle.cell_sets.specs.Words.{is_marked, marks_of, HasNoBit, HasNoMark};

/// Whether the cell is marked.
pub fn read_mark(words: &[u64], cell: u32) -> bool
    requires { cell / 64 < length words.now }
    ensures { result ≡ is_marked words.now cell }
{
    (words[(cell / 64) as usize] >> (cell % 64)) & 1 == 1
}

/// Marks the cell, or takes its mark away.
pub fn write_mark(words: &mut Vec<u64>, cell: u32, mark: bool)
    requires { cell / 64 < length words.old.items }
    ensures len { length words.new.items ≡ length words.old.items }
    ensures marks { (cells : ℕ) →
        marks_of words.new.items cells ≡ slice_set (marks_of words.old.items cells) cell mark }
{
    let at = (cell / 64) as usize;
    words[at] = with_bit(words[at], cell % 64, mark);
}

// The word with this bit at the place.
fn with_bit(word: u64, place: u32, bit: bool) -> u64
    requires { place < 64 }
    ensures bit { bit_at result place ≡ (if bit then 1 else 0) }
    ensures others { (i : ℕ) → i < 64 → i ≢ place → bit_at result i ≡ bit_at word i }
{
    if bit {
        word | (1 << place)
    } else {
        word & !(1 << place)
    }
}

/// The least marked cell that is `from` or more and below `to`, where there is one.
///
/// It passes over a word without marks in one step, and looks at no word behind `to`.
pub fn next_mark(words: &[u64], from: u32, to: u32) -> Option<u32>
    requires { to ≤ 64 * length words.now }
    ensures { MatchOption result
        (HasNoMark words.now from to)
        (λ cell. (from ≤ cell) × (cell < to) × (is_marked words.now cell ≡ true) × HasNoMark words.now from cell) }
{
    for at in from / 64..to.div_ceil(64) {
        let low = from.saturating_sub(64 * at);
        if let Some(bit) = next_bit(words[at as usize], low) {
            let cell = 64 * at + bit;
            return if cell < to { Some(cell) } else { None };
        }
    }
    None
}

// The least place from `low` on at which the word's bit is 1, where there is one.
fn next_bit(word: u64, low: u32) -> Option<u32>
    requires { low < 64 }
    ensures { MatchOption result
        (HasNoBit word low 64)
        (λ place. (low ≤ place) × (place < 64) × (bit_at word place ≡ 1) × HasNoBit word low place) }
{
    let rest = word >> low;
    if rest == 0 {
        None
    } else {
        Some(low + rest.trailing_zeros())
    }
}
