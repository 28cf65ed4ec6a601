//! The ranges of numbers. These functions do nothing when they run: the checker knows the range of
//! a number in a type with a model only once the number is read, so they read it.
ghost use Rattle.std.specs.Prelude.{◌<◌, ◌^◌};
ghost use Rattle.pg_ids.specs.Key.{IsKey};
ghost use Rattle.key_table.specs.Slots.{first_key};

use pg_ids::{PeerNo, Secret, SlotNo};

/// A secret has 32 bits.
pub(crate) fn secret_in_range(secret: Secret)
    ensures { secret < 2 ^ 32 }
{
    secret.get();
}

/// The short key of a client with this secret in this slot has parts in their ranges.
pub(crate) fn key_in_range(node: PeerNo, slot: SlotNo, secret: Secret)
    ensures { IsKey (first_key node slot secret) }
{
    node.get();
    slot.get();
    secret.get();
}
