//! Spelled specifications as keys.
use cw_word::List;
use std::hash::{Hash, Hasher};

/// A specification, spelled in numbers.
#[derive(Drop)]
pub struct Key {
    pub numbers: List<u16>,
}

impl PartialEq for Key {
    ghost use Rattle.std.specs.Prelude.{nat_eq};
    ghost use Rattle.std.specs.Cmp.{on_per, partial_equiv_from_equiv};
    ghost use Rattle.std.specs.Cmp.Lexicographic.{pointwise, nat_list_eq_equiv};

    ghost eq = { λ a b. pointwise nat_eq a.numbers b.numbers };

    ghost laws = { on_per (λ k. k.numbers) (partial_equiv_from_equiv nat_list_eq_equiv) };

    fn eq(&self, other: &Self) -> bool {
        self.numbers.as_slice() == other.numbers.as_slice()
    }
}

impl Eq for Key {
    ghost use Rattle.std.specs.Cmp.Lexicographic.{on_texts_equal};

    ghost laws = { on_texts_equal (λ k. k.numbers) };
}

impl Hash for Key {
    ghost use Rattle.std.specs.Hash as fed;
    ghost use Rattle.cw_keyed.specs.Spelling.{same_input};

    ghost hash_input = { λ k. fed.slice fed.u16 k.numbers };

    ghost respects_eq = { λ a b. same_input a.numbers b.numbers };

    fn hash<H: Hasher>(&self, state: &mut H) {
        self.numbers.as_slice().hash(state);
    }
}
