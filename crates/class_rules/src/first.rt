ghost use Rattle.std.specs.Prelude.{◌≡◌, IfOk};
ghost use Rattle.amdl_tree.specs.declared.tree.Item.TheVariants.{Class as OfClass};
ghost use Rattle.tree_plan.specs.Net.{known_of};
ghost use Rattle.tree_plan.specs.Tables.{known_by};
ghost use Rattle.tree_rules.specs.Checked.{first_rule};
ghost use Rattle.declared_names.specs.Declares.{Declares};
ghost use Rattle.class_rules.specs.FirstRules.{first_among, later_rules, type_rules, handler_rules};
ghost use Rattle.class_rules.specs.Reads.{IsRead};

use crate::arguments::any_arity_differs;
use crate::class_names::{class_takes, port_twice, relation_names};
use crate::counts::class_too_many;
use crate::expansion::{too_many_paths, too_many_queries};
use crate::read::ReadClass;
use crate::sizes::relation_too_large;
use crate::types::kind_mismatch;
use crate::unknown::class_unknown;
use amdl_tree::{Class, Item, List, Name, NoMemory};
use declared_names::Declared;
use std::alloc::Global;
use tree_network::{field_names, kind_table};
use tree_plan::{Numbered, Tables, bodies_of};
use tree_rules::Rule;

/// The first rule that a class breaks behind these items, whose tables of declared names are given. None comes exactly
/// where it breaks none.
///
/// Each rule is tried where the class keeps those before it, the one on queries last, for which picks are expanded: so
/// only handlers whose paths are few are expanded. Up to there the time is linear in the items and the class but for
/// logarithms and for what a name in a handler is looked up among: the picks around it, the fields, for a pick the
/// types, and the relations once they are few.
pub fn class_rule(
    alloc: Global,
    declared: &Declared,
    before: &[Item],
    class: &Class,
) -> Result<Option<Rule>, NoMemory>
    requires { Declares before.now declared.now }
    ensures { IfOk result (λ found. found ≡ first_rule before.now (OfClass class.now)) }
{
    if class_takes(alloc, declared, before, class)? {
        return Ok(Some(Rule::NameTaken));
    }
    later_rule(alloc, declared, before, class)
}

// The first rule but for the one on names that are taken.
fn later_rule(
    alloc: Global,
    declared: &Declared,
    before: &[Item],
    class: &Class,
) -> Result<Option<Rule>, NoMemory>
    requires { Declares before.now declared.now }
    ensures { IfOk result (λ found. found ≡ first_among later_rules before.now class.now) }
{
    let kinds = kind_table(alloc, before)?;
    let fields = field_names(alloc, before)?;
    let relations = Numbered::new(alloc, relation_names(alloc, class.relations.as_slice())?)?;
    let ports = Numbered::new(alloc, copied(alloc, class.ports.as_slice())?)?;
    let tables = Tables {
        kinds: &kinds,
        fields: fields.as_slice(),
        relations: &relations,
        ports: &ports,
    };
    rule_by_tables(alloc, declared, before, class, &tables)
}

fn copied(alloc: Global, names: &[Name]) -> Result<List<Name>, NoMemory>
    ensures { IfOk result (λ copied. copied ≡ names.now) }
{
    let mut copied = List::new(alloc);
    for name in names {
        copied.push(*name)?;
    }
    Ok(copied)
}

fn rule_by_tables(
    alloc: Global,
    declared: &Declared,
    before: &[Item],
    class: &Class,
    tables: &Tables<'_>,
) -> Result<Option<Rule>, NoMemory>
    requires declares { Declares before.now declared.now }
    requires known { known_by tables.now ≡ known_of before.now class.now }
    ensures { IfOk result (λ found. found ≡ first_among later_rules before.now class.now) }
{
    let bodies = bodies_of(alloc, tables, class.handlers.as_slice())?;
    let read = ReadClass {
        before,
        class,
        declared,
        tables,
        bodies: &bodies,
    };
    rule_of_names(alloc, &read)
}

fn rule_of_names(alloc: Global, read: &ReadClass<'_>) -> Result<Option<Rule>, NoMemory>
    requires { IsRead read.now }
    ensures { IfOk result (λ found. found ≡ first_among later_rules read.now.before.now read.now.class.now) }
{
    if class_unknown(alloc, read)? {
        return Ok(Some(Rule::UnknownName));
    }
    if class_too_many(read) {
        return Ok(Some(Rule::TooMany));
    }
    rule_of_types(alloc, read)
}

fn rule_of_types(alloc: Global, read: &ReadClass<'_>) -> Result<Option<Rule>, NoMemory>
    requires { IsRead read.now }
    ensures { IfOk result (λ found. found ≡ first_among type_rules read.now.before.now read.now.class.now) }
{
    if any_arity_differs(alloc, read)? {
        return Ok(Some(Rule::Arity));
    }
    if kind_mismatch(alloc, read)? {
        return Ok(Some(Rule::KindMismatch));
    }
    if relation_too_large(alloc, read)? {
        return Ok(Some(Rule::RelationTooLarge));
    }
    rule_of_handlers(alloc, read)
}

fn rule_of_handlers(alloc: Global, read: &ReadClass<'_>) -> Result<Option<Rule>, NoMemory>
    requires { IsRead read.now }
    ensures { IfOk result (λ found. found ≡ first_among handler_rules read.now.before.now read.now.class.now) }
{
    if port_twice(alloc, read.class.handlers.as_slice())? {
        return Ok(Some(Rule::HandlerTwice));
    }
    if too_many_paths(read) {
        return Ok(Some(Rule::TooManyPaths));
    }
    if too_many_queries(alloc, read)? {
        return Ok(Some(Rule::TooManyQueries));
    }
    Ok(None)
}
