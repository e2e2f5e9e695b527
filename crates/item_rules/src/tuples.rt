ghost use Rattle.std.specs.Prelude.{◌≡◌, ◌||◌, Some, is_none};
ghost use Rattle.std.specs.List.{list_any, zip};
ghost use Rattle.name_tables.specs.Names.{told};
ghost use Rattle.tree_rules.specs.Kinds.{differ, relation_named};
ghost use Rattle.tree_rules.specs.Rules.{arity_differs};
ghost use Rattle.item_rules.specs.ByTables.{tuple_unknown, tuple_mismatch};

use crate::lookups::relation_named;
use amdl_tree::{Atom, Name, Relation};
use declared_names::Declared;

/// Whether a tuple is of none of these relations, or has something that is no value. Linear in the tuples, and for
/// each in the relations.
pub(crate) fn any_unknown(declared: &Declared, relations: &[Relation], first: &[Atom]) -> bool
    ensures { result ≡ list_any (tuple_unknown declared.now relations.now) first.now }
{
    first
        .iter()
        .any(|atom| tuple_unknown(declared, relations, atom))
}

fn tuple_unknown(declared: &Declared, relations: &[Relation], atom: &Atom) -> bool
    ensures { result ≡ tuple_unknown declared.now relations.now atom.now }
{
    relation_unknown(relations, atom.relation) || any_no_value(declared, atom.args.as_slice())
}

fn relation_unknown(relations: &[Relation], name: Name) -> bool
    ensures { result ≡ is_none (relation_named relations.now name) }
{
    relation_named(relations, name).is_none()
}

fn any_no_value(declared: &Declared, args: &[Name]) -> bool
    ensures { result ≡ list_any (λ arg. is_none (told declared.now.values arg)) args.now }
{
    args.iter().any(|arg| declared.values.get(*arg).is_none())
}

/// Whether a tuple has another number of values than its relation has argument types. Linear as above.
pub(crate) fn any_arity(relations: &[Relation], first: &[Atom]) -> bool
    ensures { result ≡ list_any (arity_differs relations.now) first.now }
{
    first.iter().any(|atom| arity_differs(relations, atom))
}

fn arity_differs(relations: &[Relation], atom: &Atom) -> bool
    ensures { result ≡ arity_differs relations.now atom.now }
{
    match relation_named(relations, atom.relation) {
        Some(relation) => atom.args.as_slice().len() != relation.kinds.as_slice().len(),
        None => false,
    }
}

/// Whether a tuple has a value of another type than its relation asks. Linear as above.
pub(crate) fn any_mismatch(declared: &Declared, relations: &[Relation], first: &[Atom]) -> bool
    ensures { result ≡ list_any (tuple_mismatch declared.now relations.now) first.now }
{
    first
        .iter()
        .any(|atom| tuple_mismatch(declared, relations, atom))
}

fn tuple_mismatch(declared: &Declared, relations: &[Relation], atom: &Atom) -> bool
    ensures { result ≡ tuple_mismatch declared.now relations.now atom.now }
{
    match relation_named(relations, atom.relation) {
        Some(relation) => {
            values_mismatch(declared, relation.kinds.as_slice(), atom.args.as_slice())
        }
        None => false,
    }
}

fn values_mismatch(declared: &Declared, kinds: &[Name], args: &[Name]) -> bool
    ensures { result ≡
        list_any (λ pair. differ (Some pair.0) (told declared.now.values pair.1)) (zip kinds.now args.now) }
{
    kinds
        .iter()
        .zip(args)
        .any(|(kind, arg)| is_of_other(declared, *kind, *arg))
}

/// Whether a value is declared with another type than this one.
pub(crate) fn is_of_other(declared: &Declared, kind: Name, arg: Name) -> bool
    ensures { result ≡ differ (Some kind) (told declared.now.values arg) }
{
    match declared.values.get(arg) {
        Some(other) => kind != other,
        None => false,
    }
}
