//! What a request has to know of a live slot.
ghost use Rattle.std.specs.Prelude.{◌≡◌};
ghost use Rattle.pg_ids.specs.AnyKey.{any_key, short_of};
ghost use Rattle.key_table.specs.Slots.{opens, entry_of};

use pg_ids::{AnyKey, Boot, ClientKey, LongPart, Secret, Serial};

/// What a request has to know of a live slot.
#[derive(Clone, Copy, Debug, PartialEq, Eq)]
pub enum Entry {
    /// The secret of a short key.
    Short(Secret),
    /// The secret, the boot and the serial of a long key.
    Long(Secret, Boot, Serial),
}

impl Entry {
    /// Whether the key is of the slot's kind, with its secret and, if it is long, its boot and
    /// serial.
    pub fn opens(self, key: &AnyKey) -> bool
        ensures { result ≡ opens self key.now }
    {
        let asked = key.short().secret;
        match self {
            Entry::Short(secret) => secret == asked && key.long_part().is_none(),
            Entry::Long(secret, boot, serial) => match key.long_part() {
                Some(part) => secret == asked && boot == part.boot && serial == part.serial,
                None => false,
            },
        }
    }
}

/// A new key and its slot's entry.
#[derive(Clone, Copy)]
pub struct Issued {
    pub entry: Entry,
    pub key: AnyKey,
}

impl Issued {
    /// The key with these first eight bytes, long if a long key's part is given, and its entry.
    pub fn new(first: ClientKey, long: Option<LongPart>) -> Issued
        ensures entry { result.entry ≡ entry_of first.secret long }
        ensures key { result.key ≡ any_key first long }
        ensures short { short_of result.key ≡ first }
    {
        let secret = first.secret;
        match long {
            Some(part) => Issued {
                entry: Entry::Long(secret, part.boot, part.serial),
                key: AnyKey::Long(first, part),
            },
            None => Issued {
                entry: Entry::Short(secret),
                key: AnyKey::Short(first),
            },
        }
    }
}
