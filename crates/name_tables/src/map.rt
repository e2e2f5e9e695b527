ghost use Rattle.std.specs.Prelude.{◌≡◌, ℕ, [], List, OnOk, OnErr};
ghost use Rattle.std.specs.Option.{option_or};
ghost use Rattle.name_tables.specs.Names.{told, told_by};

use crate::key::Key;
use amdl_tree::{Name, NoMemory};
use indexmap::IndexMap;
use std::alloc::Global;
use std::marker::Model;

/// Names that tell other names, each looked up in constant time. Contracts see the pairs, in the order in which they
/// were put in.
#[derive(Drop)]
pub struct NameMap {
    entries: IndexMap<Key, Name>,
}

impl Model for NameMap {
    ghost use Rattle.std.specs.Prelude.{List, ℕ};

    ghost Value = { List (List ℕ × List ℕ) };

    ghost view = { λ map. map.entries.entries };
}

impl NameMap {
    /// A map without names.
    pub fn new(alloc: Global) -> NameMap
        ensures { result ≡ [] }
    {
        NameMap {
            entries: IndexMap::new(alloc),
        }
    }

    /// Lets the first name tell the second one, unless it tells one already.
    ///
    /// Want of memory is the one refusal, and then the map stays as it was.
    pub fn put(&mut self, first: Name, second: Name) -> Result<(), NoMemory>
        ensures put { OnOk result
            ((name : List ℕ) → told self.new name ≡ option_or (told self.old name) (told_by first second name)) }
        ensures err { OnErr result (self.new ≡ self.old) }
    {
        let key = Key::new(first);
        if self.entries.contains_key(&key) {
            return Ok(());
        }
        match self.entries.insert(key, second) {
            Ok(_) => Ok(()),
            Err(_) => Err(NoMemory),
        }
    }

    /// What a name tells. None comes exactly where it tells nothing. Constant time.
    pub fn get(&self, name: Name) -> Option<Name>
        ensures { result ≡ told self.now name }
    {
        self.entries.get(&Key::new(name)).copied()
    }
}
