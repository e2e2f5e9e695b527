ghost use Rattle.std.specs.Prelude.{◌≡◌, nat_eq};
ghost use Rattle.std.specs.Cmp.{partial_equiv_from_equiv};
ghost use Rattle.std.specs.Cmp.Lexicographic.{pointwise, nat_list_eq_equiv};
ghost use Rattle.std.specs.Hash as fed;
ghost use Rattle.std.specs.Cmp.Rules.{hashing};
ghost use Rattle.std.proofs.Common.{rules};

use amdl_tree::Name;
use std::hash::{Hash, Hasher};
use std::marker::Model;

/// A name as the key of a table, which contracts see as the bytes of the name.
#[derive(Clone, Copy, Debug)]
pub(crate) struct Key {
    name: Name,
}

impl Model for Key {
    ghost use Rattle.std.specs.Prelude.{List, ℕ, refl};

    ghost Value = { List ℕ };

    ghost view = { λ key. key.name };

    ghost inverse = { λ name. record { name = name } };

    ghost inverse_ok = { λ key valid. refl };
}

impl Key {
    pub(crate) fn new(name: Name) -> Key
        ensures { result ≡ name }
    {
        Key { name }
    }
}

impl PartialEq for Key {
    ghost eq = { λ key other. pointwise nat_eq key other };

    ghost laws = { partial_equiv_from_equiv nat_list_eq_equiv };

    fn eq(&self, other: &Key) -> bool {
        self.name == other.name
    }
}

impl Eq for Key {
    ghost laws = { nat_list_eq_equiv };
}

impl Hash for Key {
    ghost hash_input = { λ key. fed.slice fed.u8 key };

    ghost respects_eq = { Prim.search (hashing, rules) };

    fn hash<H: Hasher>(&self, state: &mut H) {
        self.name.bytes().hash(state);
    }
}
