//! Names as keys of symbol tables.
use cw_word::Name;
use std::hash::{Hash, Hasher};

/// A name as the key of a table.
#[derive(Clone, Copy)]
pub struct Key {
    pub name: Name,
}

impl PartialEq for Key {
    ghost use Rattle.std.specs.Prelude.{nat_eq};
    ghost use Rattle.std.specs.Cmp.{on_per, partial_equiv_from_equiv};
    ghost use Rattle.std.specs.Cmp.Lexicographic.{pointwise, nat_list_eq_equiv};

    ghost eq = { λ a b. pointwise nat_eq a.name b.name };

    ghost laws = { on_per (λ k. k.name) (partial_equiv_from_equiv nat_list_eq_equiv) };

    fn eq(&self, other: &Self) -> bool {
        self.name == other.name
    }
}

impl Eq for Key {
    ghost use Rattle.std.specs.Cmp.Lexicographic.{on_texts_equal};

    ghost laws = { on_texts_equal (λ k. k.name) };
}

impl Hash for Key {
    ghost use Rattle.std.specs.Hash as fed;
    ghost use Rattle.cw_scope.specs.Hashing.{same_input};

    ghost hash_input = { λ k. fed.slice fed.u8 k.name };

    ghost respects_eq = { λ a b. same_input a.name b.name };

    fn hash<H: Hasher>(&self, state: &mut H) {
        self.name.bytes().hash(state);
    }
}
