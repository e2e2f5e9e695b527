/// A tuple of a relation, each by its number. Entries are ordered by relation and then by tuple.
#[derive(Clone, Copy, PartialEq, Eq, PartialOrd, Ord, Debug)]
pub struct Entry {
    pub relation: u32,
    pub tuple: u32,
}
