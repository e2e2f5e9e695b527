use box_contents::Entry;

/// That a tuple is put in, or taken out.
#[derive(Clone, Copy, PartialEq, Eq, Debug)]
pub struct Write {
    pub entry: Entry,
    /// Whether it is put in.
    pub add: bool,
}
