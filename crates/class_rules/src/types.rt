ghost use Rattle.std.specs.Prelude.{◌≡◌, Some, Option, List, ℕ, IfOk};
ghost use Rattle.std.specs.List.{find, list_any, zip};
ghost use Rattle.amdl_tree.specs.declared.tree.Item.TheVariants.{Class as OfClass};
ghost use Rattle.name_tables.specs.Names.{same_name};
ghost use Rattle.tree_rules.specs.Kinds.{kind_of_pick, differ};
ghost use Rattle.tree_rules.specs.Rules.{args_mismatch, kind_mismatch};
ghost use Rattle.tree_rules.specs.Uses.{uses_of_handlers};
ghost use Rattle.class_rules.specs.ByTables.{kind_by, change_differs, differs};
ghost use Rattle.class_rules.specs.Reads.{IsRead};

use crate::read::ReadClass;
use crate::relations::relation_named;
use amdl_tree::{Atom, Equal, Handler, Name, NoMemory, Relation};
use declared_names::Declared;
use std::alloc::Global;
use tree_rules::{Opened, UseTest, any_use};

/// Whether two types differ in a class where they must be one. Linear in the class but for its relations, among which
/// each atom's is looked up, and for the picks that are open around each name.
#[tactic(auto, using(crate::proofs::TypeLemmas::types_differ))]
pub(crate) fn kind_mismatch(alloc: Global, read: &ReadClass<'_>) -> Result<bool, NoMemory>
    requires { IsRead read.now }
    ensures { IfOk result (λ found. found ≡ kind_mismatch read.now.before.now (OfClass read.now.class.now)) }
{
    any_differs(
        alloc,
        read.declared,
        read.class.relations.as_slice(),
        read.class.handlers.as_slice(),
    )
}

fn any_differs(
    alloc: Global,
    declared: &Declared,
    relations: &[Relation],
    handlers: &[Handler],
) -> Result<bool, NoMemory>
    ensures { IfOk result
        (λ found. found ≡ list_any (differs declared.now relations.now) (uses_of_handlers handlers.now)) }
{
    let differing = Differing {
        declared,
        relations,
    };
    any_use(alloc, &differing, handlers)
}

/// The test whether two types differ where they must be one.
#[derive(Clone, Copy)]
struct Differing<'a> {
    declared: &'a Declared,
    relations: &'a [Relation],
}

impl UseTest for Differing<'_> {
    ghost test = { λ differing used. differs differing.declared.now differing.relations.now used };

    fn atom(&self, alloc: Global, opened: &[Opened], atom: &Atom) -> Result<bool, NoMemory> {
        Ok(atom_differs(self.declared, self.relations, opened, atom))
    }

    fn pair(
        &self,
        alloc: Global,
        opened: &[Opened],
        one: Name,
        two: Name,
    ) -> Result<bool, NoMemory> {
        let first = kind_by(self.declared, opened, one);
        let second = kind_by(self.declared, opened, two);
        Ok(differ(first, second))
    }

    fn output(
        &self,
        alloc: Global,
        opened: &[Opened],
        port: Name,
        changes: &[Equal],
    ) -> Result<bool, NoMemory> {
        Ok(any_change_differs(self.declared, opened, changes))
    }

    fn pick(
        &self,
        alloc: Global,
        opened: &[Opened],
        name: Name,
        kind: Name,
    ) -> Result<bool, NoMemory> {
        Ok(false)
    }
}

fn atom_differs(declared: &Declared, relations: &[Relation], opened: &[Opened], atom: &Atom) -> bool
    ensures { result ≡ args_mismatch (kind_by declared.now opened.now) relations.now atom.now }
{
    match relation_named(relations, atom.relation) {
        Some(relation) => {
            args_differ(
                declared,
                opened,
                relation.kinds.as_slice(),
                atom.args.as_slice(),
            )
        }
        None => false,
    }
}

// Whether an argument has another type than the one at its place.
fn args_differ(declared: &Declared, opened: &[Opened], kinds: &[Name], args: &[Name]) -> bool
    ensures { result ≡ list_any (λ pair. differ (Some pair.0) (kind_by declared.now opened.now pair.1))
        (zip kinds.now args.now) }
{
    kinds
        .iter()
        .zip(args)
        .any(|(kind, arg)| arg_differs(declared, opened, *kind, *arg))
}

fn arg_differs(declared: &Declared, opened: &[Opened], kind: Name, arg: Name) -> bool
    ensures { result ≡ differ (Some kind) (kind_by declared.now opened.now arg) }
{
    differ(Some(kind), kind_by(declared, opened, arg))
}

fn any_change_differs(declared: &Declared, opened: &[Opened], changes: &[Equal]) -> bool
    ensures { result ≡ list_any (change_differs declared.now opened.now) changes.now }
{
    changes
        .iter()
        .any(|change| change_differs(declared, opened, *change))
}

fn change_differs(declared: &Declared, opened: &[Opened], change: Equal) -> bool
    ensures { result ≡ change_differs declared.now opened.now change }
{
    let field = declared.fields.get(change.field);
    differ(field, kind_by(declared, opened, change.value))
}

// Whether there are two types, which differ.
fn differ(one: Option<Name>, two: Option<Name>) -> bool
    ensures { result ≡ differ one two }
{
    match one {
        Some(first) => differs_from(two, first),
        None => false,
    }
}

fn differs_from(kind: Option<Name>, other: Name) -> bool
    ensures { result ≡ differ (Some other) kind }
{
    match kind {
        Some(found) => other != found,
        None => false,
    }
}

// The type of an expression. None comes exactly where its name stands for nothing. Linear in the picks.
fn kind_by(declared: &Declared, opened: &[Opened], name: Name) -> Option<Name>
    ensures { result ≡ kind_by declared.now opened.now name }
{
    if let Some(kind) = kind_of_pick(opened, name) {
        return Some(kind);
    }
    if let Some(kind) = declared.fields.get(name) {
        return Some(kind);
    }
    declared.values.get(name)
}

fn kind_of_pick(opened: &[Opened], name: Name) -> Option<Name>
    ensures { result ≡ kind_of_pick opened.now name }
{
    match pick_named(opened, name) {
        Some(pick) => Some(pick.kind),
        None => None,
    }
}

fn pick_named(opened: &[Opened], name: Name) -> Option<Opened>
    ensures { result ≡ find (λ pick. same_name name pick.name) opened.now }
{
    opened.iter().copied().find(|pick| name == pick.name)
}
