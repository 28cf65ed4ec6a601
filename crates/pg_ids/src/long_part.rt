//! What a long key has behind the eight bytes of a short one.
ghost use Rattle.std.specs.Prelude.{◌≡◌};
ghost use Rattle.pg_ids.specs.AnyKey.{long_part_bytes, IsLongPart};

use crate::numbers::{Boot, Serial};
use byteorder::{BigEndian, ByteOrder};

/// What a long key has behind the eight bytes of a short one (own layout): the run of the pooler
/// that issued it, and its number among the long keys of that run. Every sixteen bytes are one.
#[derive(Clone, Copy, Debug, PartialEq, Eq, Hash)]
pub struct LongPart {
    /// The run of the pooler.
    pub boot: Boot,
    /// The key's number in that run.
    pub serial: Serial,
}

impl LongPart {
    /// The part of these numbers.
    pub const fn new(boot: Boot, serial: Serial) -> LongPart
        ensures { result ≡ record { boot = boot; serial = serial } }
    {
        LongPart { boot, serial }
    }

    /// The sixteen bytes: both numbers, big-endian.
    pub fn to_bytes(self) -> [u8; 16]
        ensures { result ≡ long_part_bytes self }
    {
        let mut bytes = [0; 16];
        BigEndian::write_u64(&mut bytes, self.boot.get());
        BigEndian::write_u64(&mut bytes[8..], self.serial.get());
        bytes
    }

    /// The part that these bytes are.
    pub fn from_bytes(bytes: [u8; 16]) -> LongPart
        // Every sixteen bytes are those of the part.
        ensures found { long_part_bytes result ≡ bytes }
        ensures part { IsLongPart result }
        // They are those of no other.
        ensures only { (part : LongPart) → IsLongPart part → long_part_bytes part ≡ bytes
            → part ≡ result }
    {
        let boot = BigEndian::read_u64(&bytes[..8]);
        let serial = BigEndian::read_u64(&bytes[8..]);
        LongPart::new(Boot(boot), Serial(serial))
    }
}
