//! A cancel key of either kind: its bytes and its identity.
ghost use Rattle.std.specs.Prelude.{◌≡◌, ◌↔◌, ◌++◌, IsNone, IfSome};
ghost use Rattle.pg_ids.specs.Key.{key_bytes};
ghost use Rattle.pg_ids.specs.AnyKey.{any_key, any_bytes, long_part_bytes, bytes_of, kind_of, short_of, peer_of, slot_of, long_part_of, any_identity_of, any_lowered, IsAnyKey};
ghost use Rattle.pg_ids.specs.declared.any_key.KeyBytes.TheVariants.{Short, Long};

use crate::client_key::ClientKey;
use crate::long_part::LongPart;
use crate::numbers::SlotNo;
use crate::peer_no::PeerNo;
use byteorder::{BigEndian, ByteOrder};

/// The kind of a cancel key, by the protocol version that its client asked for.
#[derive(Clone, Copy, Debug, PartialEq, Eq, Hash)]
pub enum Kind {
    /// Eight bytes, of protocol 3.0.
    Short,
    /// Twenty-four bytes, of protocol 3.2 (own).
    Long,
}

/// The key that a client gets at login, of either kind. A long key is a short one with a part
/// behind it, which no other key of its pooler has.
#[derive(Clone, Copy, Debug, PartialEq, Eq, Hash)]
pub enum AnyKey {
    /// Eight bytes.
    Short(ClientKey),
    /// Twenty-four bytes.
    Long(ClientKey, LongPart),
}

/// The bytes of a key, as BackendKeyData and CancelRequest have them.
#[derive(Clone, Copy, Debug, PartialEq, Eq, Hash)]
pub enum KeyBytes {
    /// Those of a short key.
    Short([u8; 8]),
    /// Those of a long key.
    Long([u8; 24]),
}

/// What stays of a key on its way. A short identity is never a long one.
#[derive(Clone, Copy, Debug, PartialEq, Eq, Hash)]
pub enum Identity {
    /// That of a short key.
    Short(u64),
    /// That of a long key: of its first eight bytes, and its part.
    Long(u64, LongPart),
}

impl KeyBytes {
    /// The bytes, 8 or 24.
    pub fn as_slice(&self) -> &[u8]
        ensures { result.now ≡ bytes_of self.now }
    {
        match self {
            KeyBytes::Short(bytes) => bytes.as_slice(),
            KeyBytes::Long(bytes) => bytes.as_slice(),
        }
    }
}

impl AnyKey {
    /// The key with these first eight bytes, long if it has a part behind them.
    pub const fn new(key: ClientKey, long: Option<LongPart>) -> AnyKey
        ensures key { result ≡ any_key key long }
        ensures short { short_of result ≡ key }
        ensures long { long_part_of result ≡ long }
    {
        match long {
            Some(part) => AnyKey::Long(key, part),
            None => AnyKey::Short(key),
        }
    }

    /// The short key that these bytes are.
    pub fn from_short_bytes(bytes: [u8; 8]) -> AnyKey
        ensures found { any_bytes result ≡ Short bytes }
        ensures key { IsAnyKey result }
        ensures only { (key : AnyKey) → IsAnyKey key → any_bytes key ≡ Short bytes → key ≡ result }
    {
        AnyKey::Short(ClientKey::from_bytes(bytes))
    }

    /// The long key that these bytes are.
    pub fn from_long_bytes(bytes: [u8; 24]) -> AnyKey
        ensures found { any_bytes result ≡ Long bytes }
        ensures key { IsAnyKey result }
        ensures only { (key : AnyKey) → IsAnyKey key → any_bytes key ≡ Long bytes → key ≡ result }
    {
        let mut key = [0; 8];
        let mut part = [0; 16];
        key.copy_from_slice(&bytes[..8]);
        part.copy_from_slice(&bytes[8..]);
        AnyKey::Long(ClientKey::from_bytes(key), LongPart::from_bytes(part))
    }

    /// The bytes of the key: those of a short one, and boot and serial behind them, big-endian.
    pub fn to_bytes(&self) -> KeyBytes
        ensures { result ≡ any_bytes self.now }
    {
        match *self {
            AnyKey::Short(key) => KeyBytes::Short(key.to_bytes()),
            AnyKey::Long(key, part) => KeyBytes::Long(long_bytes(key, part)),
        }
    }

    /// Whether the key is short or long.
    pub const fn kind(&self) -> Kind
        ensures { result ≡ kind_of self.now }
    {
        match self {
            AnyKey::Short(_) => Kind::Short,
            AnyKey::Long(_, _) => Kind::Long,
        }
    }

    /// The key's first eight bytes, which are a short key.
    pub const fn short(&self) -> ClientKey
        ensures { result ≡ short_of self.now }
    {
        match *self {
            AnyKey::Short(key) | AnyKey::Long(key, _) => key,
        }
    }

    /// The pooler that issued the key.
    pub const fn peer(&self) -> PeerNo
        ensures { result ≡ peer_of self.now }
    {
        self.short().peer
    }

    /// The client's slot there.
    pub const fn slot(&self) -> SlotNo
        ensures { result ≡ slot_of self.now }
    {
        self.short().slot
    }

    /// What a long key has behind its first eight bytes.
    pub const fn long_part(&self) -> Option<LongPart>
        ensures { result ≡ long_part_of self.now }
    {
        match *self {
            AnyKey::Short(_) => None,
            AnyKey::Long(_, part) => Some(part),
        }
    }

    /// What stays of a key on its way: it without its hops.
    pub fn identity(&self) -> Identity
        ensures { result ≡ any_identity_of self.now }
    {
        match *self {
            AnyKey::Short(key) => Identity::Short(key.identity()),
            AnyKey::Long(key, part) => Identity::Long(key.identity(), part),
        }
    }

    /// The key with one hop less, and none of a key that is spent.
    pub fn lower(&self) -> Option<AnyKey>
        ensures spent { IsNone result ↔ ((short_of self.now).hops ≡ 0) }
        ensures lowered { IfSome result (λ key. key ≡ any_lowered self.now) }
        ensures identity { IfSome result (λ key. any_identity_of key ≡ any_identity_of self.now) }
    {
        match *self {
            AnyKey::Short(key) => Some(AnyKey::Short(key.lower()?)),
            AnyKey::Long(key, part) => Some(AnyKey::Long(key.lower()?, part)),
        }
    }
}

// The bytes of a long key.
fn long_bytes(key: ClientKey, part: LongPart) -> [u8; 24]
    ensures { result ≡ key_bytes key ++ long_part_bytes part }
{
    let mut bytes = [0; 24];
    BigEndian::write_u64(&mut bytes, key.number());
    BigEndian::write_u64(&mut bytes[8..], part.boot.get());
    BigEndian::write_u64(&mut bytes[16..], part.serial.get());
    bytes
}
