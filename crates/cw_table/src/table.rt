//! Things that are found by the numbers of their tokens.
ghost use Rattle.std.specs.Prelude.{◌≡◌, ◌<◌, ◌≤◌, ℕ, ◌++◌, ◌∷◌, [], length, slice_index_or, slice_set, OnOk, IfOk, option_copied};
ghost use Rattle.cw_table.specs.Rows.{place_in, place_at, item_at, NotesFirst};

use cw_word::{List, NoMemory};
use std::alloc::Global;
use std::marker::Model;

/// What is said of a token.
#[derive(Drop)]
pub struct Row<T> {
    pub token: u32,
    pub item: T,
}

/// Rows in order. Of those of one token the first is found. The numbers of tokens are small, so a table takes four bytes for
/// each number up to the greatest.
#[derive(Drop)]
pub struct Table<T> {
    rows: List<Row<T>>,
    // by token: one more than the place of its first row, 0 where there is none
    places: Vec<u32>,
}

impl<T> Model for Table<T> {
    ghost use Rattle.std.specs.Prelude.{List as Sequence};
    ghost use Rattle.cw_table.specs.declared.table.Row.{Row as Said};
    ghost use Rattle.cw_table.specs.Rows.{Finds};

    ghost Value = { Sequence (Said T) };

    ghost view = { λ t. t.rows };

    ghost invariant = { λ t. Finds t.places.items t.rows };
}

// What is noted for a token.
fn noted(places: &[u32], token: u32) -> u32
    ensures { result ≡ slice_index_or places.now token 0 }
{
    match places.get(token as usize) {
        Some(note) => *note,
        None => 0,
    }
}

// The place that is noted for a token.
fn place_in(places: &[u32], token: u32) -> Option<usize>
    ensures { result ≡ place_in places.now token }
{
    match noted(places, token) {
        0 => None,
        note => Some(note as usize - 1),
    }
}

// Notes nothing for tokens up to one more.
fn make_room(places: &mut Vec<u32>, count: usize) -> Result<(), NoMemory>
    ensures same { (token : ℕ) → place_in places.new.items token ≡ place_in places.old.items token }
    ensures room { OnOk result (count ≤ length places.new.items) }
{
    if places.len() >= count {
        return Ok(());
    }
    places.resize(count, 0).map_err(|_| NoMemory)
}

fn note(places: &mut [u32], at: usize, note: u32)
    requires { at < length places.old }
    ensures { places.new ≡ slice_set places.old at note }
{
    places[at] = note;
}

// Notes a place for a token that has none yet.
fn note_first(places: &mut Vec<u32>, token: u32, at: usize) -> Result<(), NoMemory>
    ensures { OnOk result (NotesFirst places.old.items places.new.items token at) }
{
    if place_in(places.as_slice(), token).is_some() {
        return Ok(());
    }
    if at >= 4294967295 {
        return Err(NoMemory);
    }
    let here = token as usize;
    make_room(places, here + 1)?;
    note(places.as_mut_slice(), here, at as u32 + 1);
    Ok(())
}

impl<T> Table<T> {
    pub fn new(alloc: Global) -> Table<T>
        ensures { result ≡ [] }
    {
        Table {
            rows: List::new(alloc),
            places: Vec::new(alloc),
        }
    }

    /// The rows in order.
    pub fn rows(&self) -> &[Row<T>]
        ensures { result.now ≡ self.now }
    {
        self.rows.as_slice()
    }

    /// The place of the first row of a token.
    pub fn number(&self, token: u32) -> Option<usize>
        ensures { result ≡ place_at self.now token }
    {
        place_in(self.places.as_slice(), token)
    }

    /// What the first row of a token says.
    pub fn find(&self, token: u32) -> Option<&T>
        ensures { option_copied result ≡ item_at self.now token }
    {
        match place_in(self.places.as_slice(), token) {
            Some(at) => match self.rows.as_slice().get(at) {
                Some(row) => Some(&row.item),
                None => None,
            },
            None => None,
        }
    }
}

impl<T: Drop> Table<T> {
    /// No rows, with room for so many.
    pub fn with_room(alloc: Global, count: usize) -> Result<Table<T>, NoMemory>
        ensures { IfOk result (λ t. t ≡ []) }
    {
        match Vec::with_capacity(alloc, count) {
            Ok(rows) => Ok(Table {
                rows: List::of(rows),
                places: Vec::new(alloc),
            }),
            Err(_) => Err(NoMemory),
        }
    }

    /// These rows and one more.
    pub fn with(self, token: u32, item: T) -> Result<Table<T>, NoMemory>
        ensures { IfOk result (λ t. t ≡ self ++ record { token = token; item = item } ∷ []) }
    {
        let Table {
            mut rows,
            mut places,
        } = self;
        note_first(&mut places, token, rows.as_slice().len())?;
        rows.push(Row { token, item })?;
        Ok(Table { rows, places })
    }
}
