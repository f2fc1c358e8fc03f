//! The tokens left.
ghost use Rattle.std.specs.Prelude.{◌≡◌, ◌∷◌, [], ◌<◌, length, map, List as Sequence, MatchOption, OnOk, IfOk};
ghost use Rattle.cw_lex.specs.Lexical.{view};
ghost use Rattle.cw_macro.specs.Expansion.{Leveled, of_text};
ghost use Rattle.cw_macro.specs.Views.{leveled, left_of};

use cw_lex::Token;
use cw_word::NoMemory;
use std::alloc::Global;

/// A token with the level of the calls that brought it.
#[derive(Clone, Copy)]
pub(crate) struct Item<'a> {
    pub(crate) token: Token<'a>,
    pub(crate) level: u8,
}

/// The tokens left, the last first.
#[derive(Drop)]
pub(crate) struct Left<'a> {
    items: Vec<Item<'a>>,
}

impl<'a> Left<'a> {
    /// All tokens of a text.
    pub(crate) fn of_text(alloc: Global, tokens: &[Token<'a>]) -> Result<Left<'a>, NoMemory>
        ensures { IfOk result (λ left. left_of left ≡ map of_text (map view tokens.now)) }
    {
        let items = Vec::with_capacity(alloc, tokens.len()).map_err(|_| NoMemory)?;
        let mut left = Left { items };
        let mut at = tokens.len();
        while at > 0 {
            at -= 1;
            left.put(Item {
                token: tokens[at],
                level: 0,
            })?;
        }
        Ok(left)
    }

    /// Takes the first token.
    pub(crate) fn take(&mut self) -> Option<Item<'a>>
        ensures { MatchOption result (left_of self.old ≡ []) (λ item. left_of self.old ≡ leveled item ∷ left_of self.new) }
    {
        self.items.pop()
    }

    /// Takes the first two tokens, where there are two.
    pub(crate) fn take_pair(&mut self) -> Option<(Item<'a>, Item<'a>)>
        ensures { MatchOption result (length (left_of self.old) < 2) (λ pair. left_of self.old ≡ leveled pair.0 ∷ leveled pair.1 ∷ left_of self.new) }
    {
        let first = self.take()?;
        let second = self.take()?;
        Some((first, second))
    }

    /// Puts a token in front.
    pub(crate) fn put(&mut self, item: Item<'a>) -> Result<(), NoMemory>
        ensures { OnOk result (left_of self.new ≡ leveled item.entry ∷ left_of self.old) }
    {
        self.items.push(item).map_err(|_| NoMemory)
    }

    /// The first token.
    pub(crate) fn first(&self) -> Option<Item<'a>>
        ensures { MatchOption result (left_of self.now ≡ []) (λ item. (rest : Sequence Leveled) × (left_of self.now ≡ leveled item ∷ rest)) }
    {
        self.items.last().copied()
    }
}
