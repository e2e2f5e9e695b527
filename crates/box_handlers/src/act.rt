use amdl_tree::{Boxed, List};

/// One statement of a handler, with numbers in place of names.
#[cycle(acts)]
#[derive(PartialEq, Eq, Debug, Drop)]
pub enum Act {
    /// Puts the tuple of a query into its relation.
    Insert(Query),
    /// Takes the tuple of a query out of its relation.
    Remove(Query),
    /// Puts the packet out at a port, with these fields changed.
    Output(u32, List<Change>),
    /// Ends the handling in an abort.
    Abort,
    /// Takes one of the branches whose guard holds, if there is one.
    Choose(List<Branch>),
    /// A block for some value of a type with this many values.
    Pick(u32, List<Act>),
}

/// One branch of a choice: the block may be taken where the guard holds.
#[cycle(acts)]
#[derive(PartialEq, Eq, Debug, Drop)]
pub struct Branch {
    pub guard: Test,
    pub body: List<Act>,
}

/// What a guard asks: that all probes of one of these lists hold.
#[cycle(tests)]
#[derive(PartialEq, Eq, Debug, Drop)]
pub struct Test {
    pub any: List<List<Probe>>,
}

/// One part of a guard.
#[cycle(tests)]
#[derive(PartialEq, Eq, Debug, Drop)]
pub enum Probe {
    /// Always holds.
    True,
    /// The tuple of the query is in its relation.
    Has(Query),
    /// Two terms have the same value.
    Same(Term, Term),
    /// Two terms have different values.
    Differ(Term, Term),
    /// The probe doesn't hold.
    Not(Boxed<Probe>),
    /// A test in parentheses.
    Group(Test),
}

/// A relation of the class with a term for each argument.
#[derive(PartialEq, Eq, Debug, Drop)]
pub struct Query {
    pub relation: u32,
    pub args: List<Term>,
}

/// What an argument or a changed field is read from.
#[derive(Clone, Copy, PartialEq, Eq, Debug)]
pub enum Term {
    /// The value that the packet has in this field.
    Field(u32),
    /// The value of this number.
    Value(u32),
    /// The value of an enclosing pick, counted from the outermost.
    Picked(u32),
}

/// A field with what its new value is.
#[derive(Clone, Copy, PartialEq, Eq, Debug)]
pub struct Change {
    pub field: u32,
    pub to: Term,
}
