//! The cancel key of a client: its layout, its bytes and its identity.
ghost use Rattle.std.specs.Prelude.{◌≡◌, ◌↔◌, ◌+◌, ◌<◌, ◌^◌, IsNone, IfSome};
ghost use Rattle.pg_ids.specs.Key.{number_of, key_bytes, identity_of, lowered, IsKey};

use crate::hops::Hops;
use crate::numbers::SlotNo;
use crate::peer_no::PeerNo;
use crate::secret::Secret;
use byteorder::{BigEndian, ByteOrder};

// What one of a peer, of a slot and of a secret adds to the key's number.
const PEER: u64 = 1 << 50;

const SLOT: u64 = 1 << 34;

const SECRET: u64 = 1 << 2;

/// The key that a client gets at login, and names in a CancelRequest (own layout): 14 bits of peer,
/// 16 of slot, 32 of secret, 2 of hops. Every eight bytes are a key.
#[derive(Clone, Copy, Debug, PartialEq, Eq, Hash)]
pub struct ClientKey {
    /// The pooler that issued the key.
    pub peer: PeerNo,
    /// The client's slot there.
    pub slot: SlotNo,
    /// The slot's secret.
    pub secret: Secret,
    /// How many more poolers the request may pass through.
    pub hops: Hops,
}

impl ClientKey {
    /// The key of these parts.
    pub const fn new(peer: PeerNo, slot: SlotNo, secret: Secret, hops: Hops) -> ClientKey
        ensures { result ≡ record { peer = peer; slot = slot; secret = secret; hops = hops } }
    {
        ClientKey {
            peer,
            slot,
            secret,
            hops,
        }
    }

    /// The eight bytes, as BackendKeyData and CancelRequest have them: the key's number,
    /// big-endian.
    pub fn to_bytes(self) -> [u8; 8]
        ensures { result ≡ key_bytes self }
    {
        let mut bytes = [0; 8];
        BigEndian::write_u64(&mut bytes, self.number());
        bytes
    }

    /// The key that these bytes are.
    pub fn from_bytes(bytes: [u8; 8]) -> ClientKey
        // Every eight bytes are those of the key.
        ensures found { key_bytes result ≡ bytes }
        ensures key { IsKey result }
        // They are those of no other key.
        ensures only { (key : ClientKey) → IsKey key → key_bytes key ≡ bytes → key ≡ result }
    {
        let number = BigEndian::read_u64(&bytes);
        ClientKey {
            peer: PeerNo::new((number / PEER) as u16).unwrap(),
            slot: SlotNo((number / SLOT % (1 << 16)) as u16),
            secret: Secret((number / SECRET % (1 << 32)) as u32),
            hops: Hops::new((number % SECRET) as u8).unwrap(),
        }
    }

    /// What stays of a key on its way: its number without the hops.
    pub fn identity(self) -> u64
        ensures { result ≡ identity_of self }
    {
        self.number() / SECRET
    }

    /// The key with one hop less, and none of a key that is spent.
    pub fn lower(self) -> Option<ClientKey>
        ensures spent { IsNone result ↔ (self.hops ≡ 0) }
        ensures lowered { IfSome result (λ key. key ≡ lowered self) }
        ensures identity { IfSome result (λ key. identity_of key ≡ identity_of self) }
    {
        let left = self.hops.get().checked_sub(1)?;
        let hops = Hops::new(left)?;
        Some(ClientKey { hops, ..self })
    }

    /// The key as a number.
    pub(crate) fn number(self) -> u64
        ensures number { result ≡ number_of self }
        ensures key { IsKey self }
    {
        let peer = u64::from(self.peer.get());
        let slot = u64::from(self.slot.get());
        let secret = u64::from(self.secret.get());
        let hops = u64::from(self.hops.get());
        peer * PEER + slot * SLOT + secret * SECRET + hops
    }
}
