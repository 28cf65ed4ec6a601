//! Rows in the order of their making, each with a key of its own, by which it is found.
ghost use Rattle.std.specs.Prelude.{◌≡◌, ◌≢◌, ◌<◌, ◌++◌, ◌∷◌, [], ℕ, List, Some, IfSome, OnOk, length, slice_get, slice_set};
ghost use Rattle.world.specs.Table.{IsFound};

use crate::index::{Index, Key};
use std::alloc::{AllocError, Global};
use std::marker::Model;

/// A row with a key.
pub(crate) trait Row: Copy {
    /// Its key.
    type Key: Key;

    ghost key_of: { Self → Self.Key };

    /// Its key.
    fn key(&self) -> Self::Key
        ensures { result ≡ key_of self.now };
}

/// A row that was found, with its place.
#[derive(Clone, Copy, Debug)]
pub(crate) struct Found<R> {
    pub place: usize,
    pub row: R,
}

/// Rows with different keys.
#[derive(Drop)]
pub(crate) struct Table<R: Row> {
    rows: Vec<R>,
    index: Index<R::Key>,
}

impl<R: Row> Model for Table<R> {
    ghost use Rattle.std.specs.Prelude.{◌≡◌, ◌-◌, map, min};
    ghost use Rattle.std.specs.Vec.{vec_len, vec_capacity};
    ghost use Rattle.world.specs.Table.{Rows};

    ghost Value = { Rows R };

    ghost view = { λ t. record {
      rows = t.rows.items;
      room = min (vec_capacity t.rows - vec_len t.rows) t.index.room;
    } };

    ghost invariant = { λ t. map R.key_of t.rows.items ≡ t.index.keys };
}

impl<R: Row> Table<R> {
    /// No rows.
    pub fn new(alloc: Global) -> Table<R>
        ensures { result.rows ≡ [] }
    {
        Table {
            rows: Vec::new(alloc),
            index: Index::new(alloc),
        }
    }

    /// How many rows there are.
    pub fn len(&self) -> usize
        ensures { result ≡ length self.now.rows }
    {
        self.rows.len()
    }

    /// The row at a place.
    pub fn get(&self, place: usize) -> Option<R>
        ensures { result ≡ slice_get self.now.rows place }
    {
        self.rows.get(place).copied()
    }

    /// The row with a key.
    pub fn find(&self, key: R::Key) -> Option<Found<R>>
        ensures found { IfSome result (λ found.
            slice_get self.now.rows found.place ≡ Some found.row) }
        ensures key { IfSome result (λ found. R.key_of found.row ≡ key) }
        // There is no other.
        ensures only { (place : ℕ) (row : R) → slice_get self.now.rows place ≡ Some row
            → R.key_of row ≡ key → result ≡ Some record { place = place; row = row } }
    {
        let place = self.index.find(key)?;
        let row = self.get(place)?;
        Some(Found { place, row })
    }

    /// Makes room for one row more.
    pub fn reserve(&mut self) -> Result<(), AllocError>
        ensures rows { self.new.rows ≡ self.old.rows }
        ensures room { OnOk result (0 < self.new.room) }
    {
        self.rows.reserve(1)?;
        self.index.reserve()
    }

    /// Adds a row with a new key, for which there is room.
    pub fn push(&mut self, row: R)
        requires room { 0 < self.old.room }
        requires new { (place : ℕ) (other : R) → slice_get self.old.rows place ≡ Some other
            → R.key_of other ≢ R.key_of row }
        ensures { self.new.rows ≡ self.old.rows ++ row ∷ [] }
    {
        self.index.push(row.key());
        let Ok(()) = self.rows.push(row) else {
            unreachable!()
        };
    }

    /// Puts a row in the place of one with the same key.
    pub fn set(&mut self, place: usize, row: R)
        requires same { IsFound R.key_of self.old.rows place (R.key_of row) }
        ensures rows { self.new.rows ≡ slice_set self.old.rows place row }
        ensures room { self.new.room ≡ self.old.room }
    {
        self.rows[place] = row;
    }
}
