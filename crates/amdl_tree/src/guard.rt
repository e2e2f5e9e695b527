use crate::boxed::Boxed;
use crate::list::List;
use crate::name::Name;

/// A relation with its arguments in order, of which there is at least one.
#[derive(PartialEq, Eq, Debug, Drop)]
pub struct Atom {
    pub relation: Name,
    pub args: List<Name>,
}

/// What an alternative asks: that all literals of one of these lists hold. There is at least one list, and each has at
/// least one literal.
#[cycle(guards)]
#[derive(PartialEq, Eq, Debug, Drop)]
pub struct Guard {
    pub any: List<List<Lit>>,
}

/// One literal of a guard.
#[cycle(guards)]
#[derive(PartialEq, Eq, Debug, Drop)]
pub enum Lit {
    /// Always holds.
    True,
    /// The tuple is in the relation.
    Has(Atom),
    /// Two expressions have the same value.
    Same(Name, Name),
    /// Two expressions have different values.
    Differ(Name, Name),
    /// The literal does not hold.
    Not(Boxed<Lit>),
    /// A guard in parentheses.
    Group(Guard),
}
