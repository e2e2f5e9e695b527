ghost use Rattle.std.specs.Prelude.{◌≡◌, ℕ, Some, None, IfOk};
ghost use Rattle.std.specs.List.{position_from};
ghost use Rattle.std.specs.Option.{option_map};
ghost use Rattle.tree_plan.specs.Names.{same_name, number_of, kind_number, kind_named, values_named, value_in};
ghost use Rattle.tree_plan.specs.Tables.{kind_lent, kinds_back};

use amdl_tree::{Name, NoMemory};
use net_plan::KindPlan;

/// The number of a name among names, the first of which is number 0. None comes exactly where it isn't among them.
///
/// Linear in the names. A number that doesn't fit 32 bits is refused as want of memory.
pub fn number_of(names: &[Name], name: Name) -> Result<Option<u32>, NoMemory>
    ensures { IfOk result (λ found. found ≡ number_of names.now name) }
{
    match place_of(names, name) {
        Some(place) => numbered(place),
        None => Ok(None),
    }
}

fn place_of(names: &[Name], name: Name) -> Option<usize>
    ensures { result ≡ position_from (λ other. same_name name other) 0 names.now }
{
    names.iter().position(|other| name == *other)
}

/// The number of the type of this name. None comes exactly where there is none.
///
/// Linear in the types. A number that doesn't fit 32 bits is refused as want of memory.
#[tactic(auto, using(crate::proofs::NameLemmas::kind_found))]
pub fn kind_number(kinds: &[KindPlan], name: Name) -> Result<Option<u32>, NoMemory>
    ensures { IfOk result (λ found. found ≡ kind_number (kinds_back kinds.now) name) }
{
    match kind_place(kinds, name) {
        Some(place) => numbered(place),
        None => Ok(None),
    }
}

/// How many values the type of this name has. None comes exactly where there is no such type.
///
/// Linear in the types. A count that doesn't fit 32 bits is refused as want of memory.
#[tactic(auto, using(crate::proofs::NameLemmas::values_none, crate::proofs::NameLemmas::values_lost, crate::proofs::NameLemmas::values_found))]
pub fn values_named(kinds: &[KindPlan], name: Name) -> Result<Option<u32>, NoMemory>
    ensures { IfOk result (λ found. found ≡ values_named (kinds_back kinds.now) name) }
{
    let Some(place) = kind_place(kinds, name) else {
        return Ok(None);
    };
    match kinds.get(place) {
        Some(kind) => numbered(kind.values.as_slice().len()),
        None => Ok(None),
    }
}

/// The type of this name. None comes exactly where there is none. Linear in the types.
#[tactic(auto, using(crate::proofs::NameLemmas::kind_none, crate::proofs::NameLemmas::kind_here))]
pub fn kind_named(kinds: &[KindPlan], name: Name) -> Option<&KindPlan>
    ensures { option_map kind_lent result ≡ kind_named (kinds_back kinds.now) name }
{
    match kind_place(kinds, name) {
        Some(place) => kinds.get(place),
        None => None,
    }
}

/// The number of a value in the type of this name. None comes exactly where there is no such type, or no such value
/// in it.
///
/// Linear in the types and the values of the one type. A number that doesn't fit 32 bits is refused as want of memory.
pub fn value_in(kinds: &[KindPlan], kind: Name, value: Name) -> Result<Option<u32>, NoMemory>
    ensures { IfOk result (λ found. found ≡ value_in (kinds_back kinds.now) kind value) }
{
    match kind_named(kinds, kind) {
        Some(found) => number_of(found.values.as_slice(), value),
        None => Ok(None),
    }
}

fn kind_place(kinds: &[KindPlan], name: Name) -> Option<usize>
    ensures { result ≡ position_from (λ kind. same_name name kind.name) 0 kinds.now }
{
    kinds.iter().position(|kind| name == kind.name)
}

// A number of 32 bits, where it fits them.
fn numbered(number: usize) -> Result<Option<u32>, NoMemory>
    ensures { IfOk result (λ found. found ≡ Some number) }
{
    match u32::try_from(number) {
        Ok(short) => Ok(Some(short)),
        Err(_) => Err(NoMemory),
    }
}
