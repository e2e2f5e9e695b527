use concrete_net::StepRefusal;

/// What came of steps that are a run.
#[derive(Clone, Copy, PartialEq, Eq, Debug)]
pub struct Replayed {
    /// How many steps there were.
    pub steps: u32,
    /// How many of their events are bad.
    pub bad: u32,
}

/// Why steps aren't replayed. Steps are counted from 0.
#[derive(Clone, Copy, PartialEq, Eq, Debug)]
pub enum ReplayRefusal {
    /// The steps before the one of this number are a run, and that one is refused.
    Refused(u32, StepRefusal),
    /// Want of memory.
    NoMemory,
}
