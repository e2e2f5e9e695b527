ghost use Rattle.std.specs.Prelude.{◌≡◌, ◌++◌, [], ◌∷◌, not, length, if◌then◌else◌, IfOk, OnOk, OnErr};
ghost use Rattle.std.specs.List.{position};
ghost use Rattle.name_tables.specs.Names.{same_name, is_among};

use crate::key::Key;
use amdl_tree::{Name, NoMemory};
use indexmap::IndexSet;
use std::alloc::Global;
use std::marker::Model;

/// Different names, in the order in which they were put in, each looked up in constant time. Contracts see the list.
#[derive(Drop)]
pub struct NameTable {
    keys: IndexSet<Key>,
}

impl Model for NameTable {
    ghost use Rattle.std.specs.Prelude.{List, ℕ};

    ghost Value = { List (List ℕ) };

    ghost view = { λ table. table.keys.keys };
}

impl NameTable {
    /// A table without names.
    pub fn new(alloc: Global) -> NameTable
        ensures { result ≡ [] }
    {
        NameTable {
            keys: IndexSet::new(alloc),
        }
    }

    /// Puts a name last where it isn't in the table, and answers whether it wasn't.
    ///
    /// Want of memory is the one refusal, and then the table stays as it was.
    pub fn put(&mut self, name: Name) -> Result<bool, NoMemory>
        ensures new { IfOk result (λ new. new ≡ not (is_among self.old name)) }
        ensures put { OnOk result (self.new ≡ (if is_among self.old name then self.old else self.old ++ name ∷ [])) }
        ensures err { OnErr result (self.new ≡ self.old) }
    {
        let new = self.keys.insert(Key::new(name)).map_err(|_| NoMemory)?;
        Ok(new)
    }

    /// Whether the name is in the table.
    pub fn has(&self, name: Name) -> bool
        ensures { result ≡ is_among self.now name }
    {
        self.keys.contains(&Key::new(name))
    }

    /// The place of a name. None comes exactly where it isn't in the table.
    pub fn place(&self, name: Name) -> Option<usize>
        ensures { result ≡ position (same_name name) self.now }
    {
        self.keys.get_index_of(&Key::new(name))
    }

    /// The number of names.
    pub fn len(&self) -> usize
        ensures { result ≡ length self.now }
    {
        self.keys.len()
    }
}
