//! Keys in the order of their coming, none twice, each with its place.
ghost use Rattle.std.specs.Prelude.{◌≡◌, ◌≢◌, ◌<◌, ◌++◌, ◌∷◌, [], true, ℕ, Some, IfSome, OnOk, slice_get};

use indexmap::IndexSet;
use std::alloc::{AllocError, Global};
use std::hash::Hash;
use std::marker::Model;

/// A key. Equal keys are the same.
pub(crate) trait Key: Copy + Eq + Hash {
    ghost exact: { (a b : Self) → Self.eq a b ≡ true → a ≡ b };
}

/// Keys, none twice.
#[derive(Drop)]
pub(crate) struct Index<K: Key> {
    keys: IndexSet<K>,
}

impl<K: Key> Model for Index<K> {
    ghost use Rattle.indexmap.specs.IndexSet.{spare, IsUnique};
    ghost use Rattle.world.specs.Table.{Keys};

    ghost Value = { Keys K };

    ghost view = { λ i. record { keys = i.keys.keys; room = spare i.keys } };

    ghost invariant = { λ i. IsUnique K.eq i.keys };
}

impl<K: Key> Index<K> {
    /// No keys.
    pub fn new(alloc: Global) -> Index<K>
        ensures { result.keys ≡ [] }
    {
        Index {
            keys: IndexSet::new(alloc),
        }
    }

    /// The place of a key.
    pub fn find(&self, key: K) -> Option<usize>
        ensures found { IfSome result (λ place. slice_get self.now.keys place ≡ Some key) }
        // There is no other.
        ensures only { (place : ℕ) → slice_get self.now.keys place ≡ Some key
            → result ≡ Some place }
    {
        self.keys.get_index_of(&key)
    }

    /// Makes room for one key more.
    pub fn reserve(&mut self) -> Result<(), AllocError>
        ensures keys { self.new.keys ≡ self.old.keys }
        ensures room { OnOk result (0 < self.new.room) }
    {
        self.keys.reserve(1)
    }

    /// Adds a new key, for which there is room.
    pub fn push(&mut self, key: K)
        requires room { 0 < self.old.room }
        requires new { (place : ℕ) → slice_get self.old.keys place ≢ Some key }
        ensures { self.new.keys ≡ self.old.keys ++ key ∷ [] }
    {
        let Ok(_) = self.keys.insert(key) else {
            unreachable!()
        };
    }
}
