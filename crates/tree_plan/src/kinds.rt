ghost use Rattle.std.specs.Prelude.{◌≡◌, ℕ, List, Some, None, IfOk, OnOk, if◌then◌else◌};
ghost use Rattle.std.specs.Option.{option_or};
ghost use Rattle.tree_plan.specs.Names.{same_name, number_of, value_number};
ghost use Rattle.tree_plan.specs.Numbers.{kinds_back, number_at, AreNumbersOf};

use amdl_tree::{List, Name, NoMemory};
use net_plan::KindPlan;
use std::alloc::Global;
use std::collections::BTreeMap;
use std::marker::Model;

/// The types with their values, which contracts see as the list of them, with a table of the numbers of the values.
#[derive(Drop)]
pub struct Kinds {
    plans: List<KindPlan>,
    numbers: BTreeMap<Name, u32>,
}

impl Model for Kinds {
    ghost use Rattle.std.specs.Prelude.{List};
    ghost use Rattle.net_plan.specs.declared.plan.KindPlan.{KindPlan};
    ghost use Rattle.tree_plan.specs.Numbers.{AreNumbersOf};

    ghost Value = { List KindPlan };

    ghost view = { λ kinds. kinds.plans };

    ghost invariant = { λ kinds. AreNumbersOf kinds.plans kinds.numbers };
}

impl Kinds {
    /// The table of these types, in time linear in the values but for logarithms.
    pub fn new(alloc: Global, plans: List<KindPlan>) -> Result<Kinds, NoMemory>
        ensures { IfOk result (λ kinds. kinds ≡ plans) }
    {
        let numbers = numbers_of(alloc, plans.as_slice())?;
        Ok(Kinds { plans, numbers })
    }

    /// The types in their order.
    pub fn plans(&self) -> &[KindPlan]
        ensures { result.now ≡ self.now }
    {
        self.plans.as_slice()
    }

    /// The types alone.
    pub fn into_plans(self) -> List<KindPlan>
        ensures { result ≡ self }
    {
        self.plans
    }

    /// The number that a value has in the first type that has it. None comes exactly where no type has it.
    ///
    /// Logarithmic in the values.

    pub fn value_number(&self, name: Name) -> Option<u32>
        ensures { result ≡ value_number (kinds_back self.now) name }
    {
        self.numbers.get(&name).copied()
    }
}

#[tactic(auto, using(crate::proofs::NumberLemmas::kind_more, crate::proofs::NumberLemmas::all_numbered))]
fn numbers_of(alloc: Global, kinds: &[KindPlan]) -> Result<BTreeMap<Name, u32>, NoMemory>
    ensures { IfOk result (AreNumbersOf kinds.now) }
{
    let mut numbers = BTreeMap::new(alloc);
    for kind in kinds {
        number_values(kind.values.as_slice(), &mut numbers)?;
    }
    Ok(numbers)
}

/// Numbers the names that have no number yet, each by its place. Linear in the names but for logarithms.
#[tactic(auto, using(crate::proofs::NumberLemmas::value_more, crate::proofs::NumberLemmas::values_numbered))]
pub(crate) fn number_values(
    values: &[Name],
    numbers: &mut BTreeMap<Name, u32>,
) -> Result<(), NoMemory>
    ensures { OnOk result ((name : List ℕ) →
        number_at numbers.new name ≡ option_or (number_at numbers.old name) (number_of values.now name)) }
{
    for (number, value) in values.iter().enumerate() {
        number_value(*value, number, numbers)?;
    }
    Ok(())
}

// Numbers the value unless its name has a number. A number that doesn't fit 32 bits is refused as want of memory.
#[tactic(auto, using(crate::proofs::NumberLemmas::stays, crate::proofs::NumberLemmas::put))]
fn number_value(
    value: Name,
    number: usize,
    numbers: &mut BTreeMap<Name, u32>,
) -> Result<(), NoMemory>
    ensures { OnOk result ((name : List ℕ) → number_at numbers.new name ≡
        option_or (number_at numbers.old name) (if same_name name value then Some number else None)) }
{
    if numbers.contains_key(&value) {
        return Ok(());
    }
    let Ok(short) = u32::try_from(number) else {
        return Err(NoMemory);
    };
    match numbers.insert(value, short) {
        Ok(_) => Ok(()),
        Err(_) => Err(NoMemory),
    }
}
