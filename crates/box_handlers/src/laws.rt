//! Laws over the definitions, each the contract of a function that does nothing.
ghost use Rattle.box_handlers.specs.Body.{BodiesAreRead, FormulasAreRead};
ghost use Rattle.box_handlers.specs.Example.{NestedQueries, NestedSizes, TuplesByHand};
ghost use Rattle.box_handlers.specs.Laws.{SameQueryIsEqual, QueriesDiffer, QueriesHoldAllAsked, FilledHasSameTuple};
ghost use Rattle.box_handlers.specs.Laws.{QueriesNameNoPick, QueriesFit};

/// How each statement, each branch and the end of a block are read.
pub fn bodies_are_read()
    ensures { BodiesAreRead }
{}

/// How each probe, and the lists of a test, are read.
pub fn formulas_are_read()
    ensures { FormulasAreRead }
{}

/// Two queries are told apart exactly where they differ.
pub fn same_query_is_equal()
    ensures { SameQueryIsEqual }
{}

/// No two queries of a class are equal.
pub fn queries_differ()
    ensures { QueriesDiffer }
{}

/// What a guard asks while some values are picked is a query of the class, with these values in place of the picks.
pub fn queries_hold_all_asked()
    ensures { QueriesHoldAllAsked }
{}

/// A query has the same tuple once the values of the open picks stand in place of the picks.
pub fn filled_has_same_tuple()
    ensures { FilledHasSameTuple }
{}

/// The queries of handlers that fit name no pick.
pub fn queries_name_no_pick()
    ensures { QueriesNameNoPick }
{}

/// The queries of handlers that fit do fit where no pick is open.
pub fn queries_fit()
    ensures { QueriesFit }
{}

/// What a class asks whose handlers have picks within picks.
pub fn nested_queries()
    ensures { NestedQueries }
{}

/// How large these handlers are.
pub fn nested_sizes()
    ensures { NestedSizes }
{}

/// Tuples and changed packets by hand.
pub fn tuples_by_hand()
    ensures { TuplesByHand }
{}
