ghost use Rattle.std.specs.Prelude.{◌≡◌, decimal};

use std::marker::Model;

/// The most digits of a number of 64 bits.
const MOST_DIGITS: usize = 20;

/// The decimal digits of a number, which contracts see as the list of their bytes. They take no memory.
#[derive(Drop)]
pub struct Digits {
    bytes: [u8; MOST_DIGITS],
    start: usize,
}

impl Model for Digits {
    ghost use Rattle.std.specs.Prelude.{◌≡◌, ◌≤◌, ℕ, List, length, drop};

    ghost Value = { List ℕ };

    ghost view = { λ digits. drop digits.start digits.bytes };

    ghost invariant = { λ digits. (digits.start ≤ 20) × (length digits.bytes ≡ 20) };
}

impl Digits {
    /// The digits of a number, with no leading zero, and `0` alone for 0.
    pub fn of(n: u64) -> Digits
        ensures { result ≡ decimal n }
    {
        let mut bytes = [0u8; MOST_DIGITS];
        let mut start = MOST_DIGITS;
        let mut left = n;
        while left >= 10 {
            start -= 1;
            bytes[start] = b'0' + (left % 10) as u8;
            left /= 10;
        }
        start -= 1;
        bytes[start] = b'0' + left as u8;
        Digits { bytes, start }
    }

    /// The digits as bytes, 1 to 20 of them.
    pub fn bytes(&self) -> &[u8]
        ensures { result.now ≡ self.now }
    {
        &self.bytes[self.start..]
    }
}
