ghost use Rattle.std.specs.Prelude.{◌≡◌};
ghost use Rattle.std.specs.Option.{option_map};
ghost use Rattle.tree_rules.specs.Kinds.{relation_named};
ghost use Rattle.class_rules.specs.ByTables.{relation_lent};

use amdl_tree::{Name, Relation};

/// The relation of this name. None comes exactly where there is none. Linear in the relations.
pub(crate) fn relation_named(relations: &[Relation], name: Name) -> Option<&Relation>
    ensures { option_map relation_lent result ≡ relation_named relations.now name }
{
    relations.iter().find(|relation| name == relation.name)
}
