//! A tree whose children stand in a `List` and in a `Boxed`, with a value that a definition gives by recursion.
ghost use Rattle.std.specs.Prelude.{◌≡◌};
ghost use Rattle.cw_checks_front.specs.Trees.{value_of};

use cw_word::{Boxed, List, negate, sum};

/// A sum of signed words.
#[derive(Drop)]
pub enum Tree {
    Word(i16),
    Negative(Boxed<Tree>),
    Sum(List<Tree>),
}

/// The tree's value, where it and each sum on the way fits a word.
#[tactic(auto, using(crate::proofs::Exact::exact))]
pub fn value(tree: &Tree) -> Option<i16>
    ensures { result ≡ value_of tree.now }
{
    match tree {
        Tree::Word(word) => Some(*word),
        Tree::Negative(operand) => negate(value(operand.get())?).ok(),
        Tree::Sum(terms) => {
            let mut total = 0i16;
            for term in terms.as_slice() {
                total = sum(total, value(term)?).ok()?;
            }
            Some(total)
        }
    }
}
