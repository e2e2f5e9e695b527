ghost use Rattle.std.specs.Prelude.{◌≡◌, IfOk};
ghost use Rattle.tree_plan.specs.Names.{number_of};

use crate::kinds::number_values;
use amdl_tree::{List, Name, NoMemory};
use std::alloc::Global;
use std::collections::BTreeMap;
use std::marker::Model;

/// Names with a table of their numbers, which contracts see as the list of the names.
#[derive(Drop)]
pub struct Numbered {
    names: List<Name>,
    numbers: BTreeMap<Name, u32>,
}

impl Model for Numbered {
    ghost use Rattle.std.specs.Prelude.{List, ℕ};
    ghost use Rattle.tree_plan.specs.Numbers.{ArePlacesOf};

    ghost Value = { List (List ℕ) };

    ghost view = { λ numbered. numbered.names };

    ghost invariant = { λ numbered. ArePlacesOf numbered.names numbered.numbers };
}

impl Numbered {
    /// The table of these names, in time linear in them but for logarithms. A number that doesn't fit 32 bits is refused
    /// as want of memory.
    pub fn new(alloc: Global, names: List<Name>) -> Result<Numbered, NoMemory>
        ensures { IfOk result (λ numbered. numbered ≡ names) }
    {
        let mut numbers = BTreeMap::new(alloc);
        number_values(names.as_slice(), &mut numbers)?;
        Ok(Numbered { names, numbers })
    }

    /// The names in their order.
    pub fn names(&self) -> &[Name]
        ensures { result.now ≡ self.now }
    {
        self.names.as_slice()
    }

    /// The number of a name, which is that of its first place. None comes exactly where it isn't among the names.
    ///
    /// Logarithmic in the names.
    pub fn number(&self, name: Name) -> Option<u32>
        ensures { result ≡ number_of self.now name }
    {
        self.numbers.get(&name).copied()
    }
}
