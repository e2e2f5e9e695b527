//! Numbers that look as if they were thrown, the same in each run.

/// A linear congruential generator.
#[derive(Drop)]
pub(crate) struct Dice {
    state: u32,
}

impl Dice {
    /// The generator of a seed.
    pub(crate) fn new(seed: u32) -> Dice {
        Dice {
            state: seed.wrapping_mul(2_654_435_761),
        }
    }

    /// The next number.
    pub(crate) fn roll(&mut self) -> u32 {
        self.state = self
            .state
            .wrapping_mul(1_664_525)
            .wrapping_add(1_013_904_223);
        self.state >> 16
    }

    /// One of four texts.
    pub(crate) fn of_four(&mut self, texts: &[&'static str; 4]) -> &'static str {
        let place = (self.roll() % 4) as usize;
        texts[place]
    }

    /// One of eight texts.
    pub(crate) fn of_eight(&mut self, texts: &[&'static str; 8]) -> &'static str {
        let place = (self.roll() % 8) as usize;
        texts[place]
    }
}
