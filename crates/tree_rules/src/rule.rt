/// A rule that the items of a network text keep, in the order in which rules are tried.
#[derive(Clone, Copy, PartialEq, Eq, Debug)]
pub enum Rule {
    /// A name is declared a second time, or a pattern or an output names a field twice.
    NameTaken,
    /// A name isn't declared as what its place asks.
    UnknownName,
    /// There is more of something than there may be.
    TooMany,
    /// There are over 65,536 packets.
    HeaderTooLarge,
    /// A field stands behind an item that isn't a type or a field.
    FieldLate,
    /// A relation has another number of arguments than it is used with.
    Arity,
    /// Two things that must be of one type are of two.
    KindMismatch,
    /// A relation has over 65,536 tuples.
    RelationTooLarge,
    /// Two handlers of a class are for one port.
    HandlerTwice,
    /// A handler has over 1,024 paths.
    TooManyPaths,
    /// A class has over 12 queries.
    TooManyQueries,
    /// A link leads from an end to itself.
    EndToItself,
    /// An end has a link already.
    EndTaken,
    /// The same item stands before.
    SameItem,
    /// There are over 4,194,304 cells.
    TooManyCells,
    /// No item is a field. Said of all items together.
    NoField,
}
