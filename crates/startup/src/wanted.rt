//! How much of a first packet is read next.
ghost use Rattle.std.specs.Prelude.{◌≡◌, ◌+◌, ◌-◌, ◌≤◌, [], ◌∷◌, ◌++◌, List, ℕ, length, drop, true, false};
ghost use Rattle.pg_ids.specs.AnyKey.{any_key_bytes};
ghost use Rattle.startup.specs.Kinds.{Seen};
ghost use Rattle.startup.specs.FirstPacket.{Cancel, Decides};
ghost use Rattle.startup.specs.Wanted.{IsCancel, LacksLast, Wants};

use crate::header::CANCEL_CODE;
use byteorder::{BigEndian, ByteOrder};
use pg_ids::AnyKey;

/// What is wanted next of a first packet.
#[derive(Clone, Copy, Debug, PartialEq, Eq)]
pub enum Wanted {
    /// At most this many bytes.
    Read(usize),
    /// A look at the last byte of a CancelRequest, which stays unread.
    Look,
}

// How many bytes the length and the code of a packet take.
const HEADER: usize = 8;

impl Wanted {
    /// What is wanted next, where these bytes begin a packet and decide nothing.
    pub fn after(so_far: &[u8]) -> Wanted
        ensures { Wants so_far.now result }
    {
        let count = so_far.len();
        if count < HEADER {
            return Wanted::Read(HEADER - count);
        }
        let length = BigEndian::read_u32(so_far) as usize;
        if !is_cancel(so_far) {
            return Wanted::Read(length.saturating_sub(count));
        }
        if count + 1 == length {
            return Wanted::Look;
        }
        Wanted::Read((length - 1).saturating_sub(count))
    }
}

// Whether a packet with this header is a CancelRequest.
fn is_cancel(so_far: &[u8]) -> bool
    requires { 8 ≤ length so_far.now }
    ensures yes { result ≡ true → IsCancel so_far.now }
    ensures no { result ≡ false → IsCancel so_far.now → ⊥ }
{
    let length = BigEndian::read_u32(so_far);
    let code = BigEndian::read_u32(&so_far[4..]);
    code == CANCEL_CODE && (length == 16 || length == 32)
}

/// The key of a CancelRequest of which all bytes stand but its last, which was seen.
pub fn cancel_key(so_far: &[u8], last: u8) -> AnyKey
    requires { LacksLast so_far.now }
    // With this byte they are the request of this key, whatever the connection has seen.
    ensures { (seen : Seen) → Decides seen (so_far.now ++ last ∷ []) (Cancel (any_key_bytes result)) }
{
    if so_far.len() == 15 {
        let mut key = [0; 8];
        put_key(&mut key, so_far, last);
        AnyKey::from_short_bytes(key)
    } else {
        let mut key = [0; 24];
        put_key(&mut key, so_far, last);
        AnyKey::from_long_bytes(key)
    }
}

// Puts a CancelRequest's key where it takes all bytes.
fn put_key(key: &mut [u8], so_far: &[u8], last: u8)
    requires some { 8 ≤ length so_far.now }
    requires fits { length key.old + 7 ≡ length so_far.now }
    ensures { key.new ≡ drop 8 so_far.now ++ last ∷ [] }
{
    let size = key.len() - 1;
    key[..size].copy_from_slice(&so_far[HEADER..]);
    key[size] = last;
}
