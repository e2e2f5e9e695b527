ghost use Rattle.std.specs.Prelude.{◌≡◌, ◌++◌, [], ◌∷◌, List, ℕ, OnOk};
ghost use Rattle.std.specs.Option.{option_or};
ghost use Rattle.amdl_tree.specs.declared.tree.Item.TheVariants.{Kind};
ghost use Rattle.amdl_tree.specs.declared.tree.Item.{Item as AnItem};
ghost use Rattle.name_tables.specs.Names.{told};
ghost use Rattle.declared_names.specs.Declares.{Declares, told_among};

use amdl_tree::{Item, Name, NoMemory};
use name_tables::{NameMap, NameTable};
use std::alloc::Global;

/// The types, the fields and the values that items declare, each looked up in constant time.
#[derive(Drop)]
pub struct Declared {
    pub kinds: NameTable,
    // the type of each field, and of each value the first that has it
    pub fields: NameMap,
    pub values: NameMap,
}

impl Declared {
    /// The tables of no item.
    pub fn new(alloc: Global) -> Declared
        ensures { Declares [] result }
    {
        Declared {
            kinds: NameTable::new(alloc),
            fields: NameMap::new(alloc),
            values: NameMap::new(alloc),
        }
    }

    /// Adds what an item behind these declares. Linear in its values.
    #[tactic(auto, using(crate::proofs::DeclaredLemmas::field_added))]
    pub fn add(&mut self, item: &Item) -> Result<(), NoMemory>
        ensures { OnOk result
            ((before : List AnItem) → Declares before self.old → Declares (before ++ item.now ∷ []) self.new) }
    {
        match item {
            Item::Kind { name, values } => self.add_kind(*name, values.as_slice()),
            Item::Field { name, kind } => self.fields.put(*name, *kind),
            _ => Ok(()),
        }
    }

    #[tactic(auto, using(crate::proofs::DeclaredLemmas::kind_added))]
    fn add_kind(&mut self, name: Name, values: &[Name]) -> Result<(), NoMemory>
        ensures { OnOk result
            ((before : List AnItem) → Declares before self.old →
            Declares (before ++ Kind name values.now ∷ []) self.new) }
    {
        self.kinds.put(name)?;
        put_values(&mut self.values, values, name)
    }
}

// Lets each value tell its type, unless it tells one already.
#[tactic(auto, using(crate::proofs::DeclaredLemmas::values_begun, crate::proofs::DeclaredLemmas::values_more, crate::proofs::DeclaredLemmas::values_all))]
fn put_values(map: &mut NameMap, values: &[Name], kind: Name) -> Result<(), NoMemory>
    ensures { OnOk result
        ((name : List ℕ) → told map.new name ≡ option_or (told map.old name) (told_among values.now kind name)) }
{
    for value in values {
        map.put(*value, kind)?;
    }
    Ok(())
}
