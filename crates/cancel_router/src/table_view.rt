//! What a route depends on of a pooler's state.
use key_table::KeyTable;
use pg_ids::{AnyKey, LinkNo, SlotNo};

/// What the client of a slot has to do with links.
#[derive(Clone, Copy, Debug, PartialEq, Eq, Hash)]
pub enum Standing {
    /// It holds no link and waits for none.
    Without,
    /// It waits for a link.
    Waits,
    /// It holds this link.
    Holds(LinkNo),
}

/// A pooler's live slots, and how the client of each stands.
pub trait TableView {
    ghost use Rattle.std.specs.Prelude.{◌≡◌, ℕ, Some, None, if◌then◌else◌};
    ghost use Rattle.pg_ids.specs.AnyKey.{slot_of};
    ghost use Rattle.key_table.specs.Slots.{Slots, names};
    ghost use Rattle.cancel_router.specs.declared.table_view.Standing.{Standing};

    /// The slots, with their secrets.
    ghost slots: { Self → Slots };

    /// How the client of a slot stands.
    ghost standing: { Self → ℕ → Standing };

    /// The slot that the key names.
    fn find(&self, key: &AnyKey) -> Option<SlotNo>
        ensures { result ≡ (if names (slots self.now) key.now
            then Some (slot_of key.now) else None) };

    /// How the client of a live slot stands.
    fn standing(&self, slot: SlotNo) -> Standing
        ensures { result ≡ standing self.now slot };
}

/// The slots alone: no client holds a link.
impl TableView for KeyTable {
    ghost use Rattle.cancel_router.specs.declared.table_view.Standing.TheVariants.{Without};

    ghost slots = { λ table. table };

    ghost standing = { λ _ _. Without };

    fn find(&self, key: &AnyKey) -> Option<SlotNo> {
        KeyTable::find(self, key)
    }

    fn standing(&self, _slot: SlotNo) -> Standing {
        Standing::Without
    }
}
