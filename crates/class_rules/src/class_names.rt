ghost use Rattle.std.specs.Prelude.{◌≡◌, ◌||◌, is_some, map, IfOk};
ghost use Rattle.std.specs.List.{list_any};
ghost use Rattle.amdl_tree.specs.Items.{class_item};
ghost use Rattle.name_tables.specs.Names.{same_name, is_among, repeats, told};
ghost use Rattle.tree_rules.specs.Spaces.{class_names};
ghost use Rattle.tree_rules.specs.Rules.{passes, class_takes, fields_named};
ghost use Rattle.tree_rules.specs.Uses.{OfAtom, OfPair, OfOutput, OfPick, uses_of_handlers};
ghost use Rattle.class_rules.specs.ByTables.{is_term, takes};
ghost use Rattle.declared_names.specs.Declares.{Declares};

use amdl_tree::{Atom, Class, Equal, Handler, Item, List, Name, NoMemory, Relation};
use declared_names::Declared;
use name_tables::repeats;
use std::alloc::Global;
use tree_rules::{Opened, UseTest, any_use};

/// Whether a name that a class declares is declared already, or an output in it names a field twice. Linear in the
/// items before it and the class, but for the picks that are open around each pick.
#[tactic(auto, using(crate::proofs::ClassLemmas::class_taken, crate::proofs::ClassLemmas::ports_taken, crate::proofs::ClassLemmas::relations_taken, crate::proofs::ClassLemmas::uses_taken))]
pub(crate) fn class_takes(
    alloc: Global,
    declared: &Declared,
    before: &[Item],
    class: &Class,
) -> Result<bool, NoMemory>
    requires { Declares before.now declared.now }
    ensures { IfOk result (λ found. found ≡ class_takes before.now class.now) }
{
    if is_class(before, class.name) {
        return Ok(true);
    }
    if repeats(alloc, class.ports.as_slice())? {
        return Ok(true);
    }
    if relation_twice(alloc, class.relations.as_slice())? {
        return Ok(true);
    }
    any_taken(alloc, declared, class.handlers.as_slice())
}

// Whether an item before is a class of this name.
#[tactic(auto, using(crate::proofs::ClassLemmas::class_before))]
fn is_class(before: &[Item], name: Name) -> bool
    ensures { result ≡ is_among (class_names before.now) name }
{
    any_is_class(before, name)
}

fn any_is_class(before: &[Item], name: Name) -> bool
    ensures { result ≡ list_any (λ item. passes (λ class. same_name name class.name) (class_item item)) before.now }
{
    before.iter().any(|item| has_class(item, name))
}

fn has_class(item: &Item, name: Name) -> bool
    ensures { result ≡ passes (λ class. same_name name class.name) (class_item item.now) }
{
    match item {
        Item::Class(class) => name == class.name,
        _ => false,
    }
}

fn relation_twice(alloc: Global, relations: &[Relation]) -> Result<bool, NoMemory>
    ensures { IfOk result (λ found. found ≡ repeats (map (λ relation. relation.name) relations.now)) }
{
    let names = relation_names(alloc, relations)?;
    repeats(alloc, names.as_slice())
}

pub(crate) fn relation_names(alloc: Global, relations: &[Relation]) -> Result<List<Name>, NoMemory>
    ensures { IfOk result (λ names. names ≡ map (λ relation. relation.name) relations.now) }
{
    let mut names = List::new(alloc);
    for relation in relations {
        names.push(relation.name)?;
    }
    Ok(names)
}

/// Whether two handlers are for one port. Linear in the handlers.
pub(crate) fn port_twice(alloc: Global, handlers: &[Handler]) -> Result<bool, NoMemory>
    ensures { IfOk result (λ found. found ≡ repeats (map (λ handler. handler.port) handlers.now)) }
{
    let ports = handler_ports(alloc, handlers)?;
    repeats(alloc, ports.as_slice())
}

fn handler_ports(alloc: Global, handlers: &[Handler]) -> Result<List<Name>, NoMemory>
    ensures { IfOk result (λ ports. ports ≡ map (λ handler. handler.port) handlers.now) }
{
    let mut ports = List::new(alloc);
    for handler in handlers {
        ports.push(handler.port)?;
    }
    Ok(ports)
}

fn any_taken(alloc: Global, declared: &Declared, handlers: &[Handler]) -> Result<bool, NoMemory>
    ensures { IfOk result (λ found. found ≡ list_any (takes declared.now) (uses_of_handlers handlers.now)) }
{
    let taking = Taking { declared };
    any_use(alloc, &taking, handlers)
}

/// The test whether a pick or an output takes a name that is taken.
#[derive(Clone, Copy)]
struct Taking<'a> {
    declared: &'a Declared,
}

impl UseTest for Taking<'_> {
    ghost test = { λ taking used. takes taking.declared.now used };

    fn atom(&self, alloc: Global, opened: &[Opened], atom: &Atom) -> Result<bool, NoMemory> {
        Ok(false)
    }

    fn pair(
        &self,
        alloc: Global,
        opened: &[Opened],
        one: Name,
        two: Name,
    ) -> Result<bool, NoMemory> {
        Ok(false)
    }

    fn output(
        &self,
        alloc: Global,
        opened: &[Opened],
        port: Name,
        changes: &[Equal],
    ) -> Result<bool, NoMemory> {
        field_twice(alloc, changes)
    }

    fn pick(
        &self,
        alloc: Global,
        opened: &[Opened],
        name: Name,
        kind: Name,
    ) -> Result<bool, NoMemory> {
        Ok(is_term(self.declared, name) || is_open(opened, name))
    }
}

/// Whether these equations name a field twice. Linear in them.
pub(crate) fn field_twice(alloc: Global, equals: &[Equal]) -> Result<bool, NoMemory>
    ensures { IfOk result (λ found. found ≡ repeats (fields_named equals.now)) }
{
    let names = field_names(alloc, equals)?;
    repeats(alloc, names.as_slice())
}

fn field_names(alloc: Global, equals: &[Equal]) -> Result<List<Name>, NoMemory>
    ensures { IfOk result (λ names. names ≡ map (λ equal. equal.field) equals.now) }
{
    let mut names = List::new(alloc);
    for equal in equals {
        names.push(equal.field)?;
    }
    Ok(names)
}

// Whether a value or a field has the name.
fn is_term(declared: &Declared, name: Name) -> bool
    ensures { result ≡ is_term declared.now name }
{
    declared.values.get(name).is_some() || declared.fields.get(name).is_some()
}

#[tactic(auto, using(crate::proofs::ClassLemmas::open_among))]
fn is_open(opened: &[Opened], name: Name) -> bool
    ensures { result ≡ is_among (map (λ pick. pick.name) opened.now) name }
{
    any_is_named(opened, name)
}

fn any_is_named(opened: &[Opened], name: Name) -> bool
    ensures { result ≡ list_any (λ pick. same_name name pick.name) opened.now }
{
    opened.iter().any(|pick| name == pick.name)
}
