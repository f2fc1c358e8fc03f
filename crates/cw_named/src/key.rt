//! Names of descriptors as keys.
use cw_word::Name;
use std::hash::{Hash, Hasher};

/// The name of a descriptor, or none where there is no such descriptor.
#[derive(Clone, Copy)]
pub struct Key {
    pub name: Option<Name>,
}

impl Key {
    ghost use Rattle.std.specs.Prelude.{◌≡◌};
    ghost use Rattle.cw_named.specs.Spelled.{spelled};

    /// The bytes of the name.
    pub fn bytes(&self) -> &[u8]
        ensures { result.now ≡ spelled self.now.name }
    {
        match &self.name {
            Some(name) => name.bytes(),
            None => &[],
        }
    }
}

impl PartialEq for Key {
    ghost use Rattle.std.specs.Prelude.{nat_eq};
    ghost use Rattle.std.specs.Cmp.{on_per, partial_equiv_from_equiv};
    ghost use Rattle.std.specs.Cmp.Lexicographic.{pointwise, nat_list_eq_equiv};
    ghost use Rattle.cw_named.specs.Spelled.{spelled};

    ghost eq = { λ a b. pointwise nat_eq (spelled a.name) (spelled b.name) };

    ghost laws = { on_per (λ k. spelled k.name) (partial_equiv_from_equiv nat_list_eq_equiv) };

    fn eq(&self, other: &Self) -> bool {
        self.bytes() == other.bytes()
    }
}

impl Eq for Key {
    ghost use Rattle.std.specs.Cmp.Lexicographic.{on_texts_equal};
    ghost use Rattle.cw_named.specs.Spelled.{spelled};

    ghost laws = { on_texts_equal (λ k. spelled k.name) };
}

impl Hash for Key {
    ghost use Rattle.std.specs.Hash as fed;
    ghost use Rattle.cw_named.specs.Spelled.{spelled, same_input};

    ghost hash_input = { λ k. fed.slice fed.u8 (spelled k.name) };

    ghost respects_eq = { λ a b. same_input (spelled a.name) (spelled b.name) };

    fn hash<H: Hasher>(&self, state: &mut H) {
        self.bytes().hash(state);
    }
}
