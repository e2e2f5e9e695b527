ghost use Rattle.std.specs.Prelude.{◌≡◌, not, nat_eq, length, IfOk};
ghost use Rattle.amdl_tree.specs.declared.tree.Item.TheVariants.{Class as OfClass};
ghost use Rattle.tree_rules.specs.Kinds.{relation_named};
ghost use Rattle.tree_rules.specs.Rules.{passes, arity, arity_differs, use_arity};

use crate::read::ReadClass;
use crate::relations::relation_named;
use amdl_tree::{Atom, Equal, Name, NoMemory, Relation};
use std::alloc::Global;
use tree_rules::{Opened, UseTest, any_use};

/// Whether an atom in a class has another number of arguments than its relation. Linear in the class but for its
/// relations, among which each atom's is looked up, and for the picks that are open around each pick.
pub(crate) fn any_arity_differs(alloc: Global, read: &ReadClass<'_>) -> Result<bool, NoMemory>
    ensures { IfOk result (λ found. found ≡ arity read.now.before.now (OfClass read.now.class.now)) }
{
    let counting = Counting {
        relations: read.class.relations.as_slice(),
    };
    any_use(alloc, &counting, read.class.handlers.as_slice())
}

/// The test whether an atom has another number of arguments than its relation.
#[derive(Clone, Copy)]
struct Counting<'a> {
    relations: &'a [Relation],
}

impl UseTest for Counting<'_> {
    ghost test = { λ counting used. use_arity counting.relations.now used };

    fn atom(&self, alloc: Global, opened: &[Opened], atom: &Atom) -> Result<bool, NoMemory> {
        Ok(atom_differs(self.relations, atom))
    }

    fn pair(
        &self,
        alloc: Global,
        opened: &[Opened],
        one: Name,
        two: Name,
    ) -> Result<bool, NoMemory> {
        Ok(false)
    }

    fn output(
        &self,
        alloc: Global,
        opened: &[Opened],
        port: Name,
        changes: &[Equal],
    ) -> Result<bool, NoMemory> {
        Ok(false)
    }

    fn pick(
        &self,
        alloc: Global,
        opened: &[Opened],
        name: Name,
        kind: Name,
    ) -> Result<bool, NoMemory> {
        Ok(false)
    }
}

fn atom_differs(relations: &[Relation], atom: &Atom) -> bool
    ensures { result ≡ arity_differs relations.now atom.now }
{
    match relation_named(relations, atom.relation) {
        Some(relation) => atom.args.as_slice().len() != relation.kinds.as_slice().len(),
        None => false,
    }
}
