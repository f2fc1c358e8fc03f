//! Vectors that contracts see as lists, also inside a type that leads back to itself.
ghost use Rattle.std.specs.Prelude.{◌≡◌, [], ◌∷◌, ◌++◌, IfOk, OnOk, OnErr};

use crate::boxed::Boxed;
use std::alloc::{AllocError, Global};
use std::marker::Model;

/// There is no memory for what was asked.
#[derive(Clone, Copy, Debug, PartialEq, Eq)]
pub struct NoMemory;

/// A vector that contracts see as the list of its items.
#[derive(Drop)]
pub struct List<T> {
    items: Vec<T>,
}

impl<T> Model for List<T> {
    ghost use Rattle.std.specs.Coded.{coded_list};
    ghost use Rattle.std.specs.Prelude.{List as Sequence};

    ghost Value = { Sequence T };

    ghost coded = { coded_list T.code };

    ghost view = { λ list. list.items.items };
}

impl<T> List<T> {
    /// An empty list, which takes its memory from `alloc` as it grows.
    pub fn new(alloc: Global) -> Self
        ensures { result ≡ [] }
    {
        List {
            items: Vec::new(alloc),
        }
    }

    /// The list of the vector's items, taken over without a copy.
    pub fn of(items: Vec<T>) -> Self
        ensures { result ≡ items.items }
    {
        List { items }
    }

    /// The items in order.
    pub fn as_slice(&self) -> &[T]
        ensures { result.now ≡ self.now }
    {
        self.items.as_slice()
    }

    /// The items, taken out.
    pub fn into_vec(self) -> Vec<T>
        ensures { result.items ≡ self }
    {
        let List { items } = self;
        items
    }
}

impl<T: Drop> List<T> {
    /// A list of one item, with room for no more until it grows. On an error the item is dropped.
    pub fn first(alloc: Global, item: T) -> Result<List<T>, NoMemory>
        ensures { IfOk result (λ list. list ≡ item ∷ []) }
    {
        match Vec::with_capacity(alloc, 1) {
            Ok(mut items) => {
                items.push_reserved(item);
                Ok(List { items })
            }
            Err(_) => Err(NoMemory),
        }
    }

    /// Appends an item, with the allocator that the list keeps. On an error the list is unchanged and the item is dropped.
    pub fn push(&mut self, item: T) -> Result<(), NoMemory>
        ensures ok { OnOk result (self.new ≡ self.old ++ item ∷ []) }
        ensures err { OnErr result (self.new ≡ self.old) }
    {
        self.make_room()?;
        self.items.push(item).map_err(|_| NoMemory)
    }

    // Most lists stay short, so the first two items ask for room one at a time.
    fn make_room(&mut self) -> Result<(), NoMemory>
        ensures { self.new ≡ self.old }
    {
        if self.items.len() >= 2 {
            return Ok(());
        }
        self.items.reserve_exact(1).map_err(|_| NoMemory)
    }
}

/// A list that is seldom long: without items it takes no block, and always two words where it stands. Contracts see the list of its items.
#[derive(Drop)]
pub struct Seldom<T> {
    items: Option<Boxed<List<T>>>,
}

impl<T> Model for Seldom<T> {
    ghost use Rattle.std.specs.Coded.{coded_list};
    ghost use Rattle.std.specs.Prelude.{List as Sequence};
    ghost use Rattle.cw_word.specs.Seldom.{items_of};

    ghost Value = { Sequence T };

    ghost coded = { coded_list T.code };

    ghost view = { λ seldom. items_of seldom.items };
}

impl<T> Seldom<T> {
    /// The items in order.
    pub fn as_slice(&self) -> &[T]
        ensures { result.now ≡ self.now }
    {
        match &self.items {
            None => &[],
            Some(items) => items.get().as_slice(),
        }
    }

    /// The same as a list that can grow, which takes its memory from `alloc`.
    pub fn into_list(self, alloc: Global) -> List<T>
        ensures { result ≡ self }
    {
        let Seldom { items } = self;
        match items {
            None => List::new(alloc),
            Some(items) => items.into_inner(),
        }
    }
}

impl<T: Drop> Seldom<T> {
    /// The same items. On an error they are dropped.
    pub fn of(alloc: Global, items: List<T>) -> Result<Seldom<T>, NoMemory>
        ensures { IfOk result (λ seldom. seldom ≡ items) }
    {
        if items.as_slice().is_empty() {
            return Ok(Seldom { items: None });
        }
        Ok(Seldom {
            items: Some(Boxed::new(alloc, items)?),
        })
    }
}

impl<T: PartialEq> PartialEq for List<T> {
    ghost use Rattle.std.specs.Cmp.Lexicographic.{pointwise, lists_per};

    ghost eq = { pointwise T.eq };

    ghost laws = { lists_per T.laws };

    fn eq(&self, other: &Self) -> bool {
        self.as_slice() == other.as_slice()
    }
}

impl<T: Eq> Eq for List<T> {
    ghost use Rattle.std.specs.Cmp.Lexicographic.{lists_equiv};

    ghost laws = { lists_equiv T.Eq.laws };
}

impl<T: Clone> Clone for List<T> {
    ghost use Rattle.std.specs.List.{AllZip};
    ghost use Rattle.std.specs.Prelude.{length};

    ghost is_clone = { λ list copy. AllZip T.is_clone list copy × (length copy ≡ length list) };

    fn clone(&self) -> Result<Self, AllocError> {
        Ok(List {
            items: self.items.clone()?,
        })
    }
}
