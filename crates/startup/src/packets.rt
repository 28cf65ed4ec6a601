//! The packets whose header tells what they are.
ghost use Rattle.std.specs.Prelude.{◌≡◌, ◌≢◌, ◌+◌, ◌<◌, ◌≤◌, length, IfSome, IfNone, if◌then◌else◌, nat_lt, Ok, Err};
ghost use Rattle.pg_ids.specs.AnyKey.{any_key_bytes};
ghost use Rattle.startup.specs.Kinds.{Seen};
ghost use Rattle.startup.specs.Packet.{cancel_code};
ghost use Rattle.startup.specs.FirstPacket.{length_of, code_of, HasHeader, IsKeyLength, Answers};

use crate::first::First;
use crate::header::Header;
use crate::startup_error::StartupError;
use pg_ids::AnyKey;

/// The answer to bytes that decide nothing.
pub fn unfinished(at_end: bool) -> Result<First, StartupError>
    ensures { result ≡ (if at_end then Err StartupError.Truncated else Ok First.More) }
{
    if at_end {
        Err(StartupError::Truncated)
    } else {
        Ok(First::More)
    }
}

/// The answer to a CancelRequest's header and what stands behind it.
pub fn read_cancel(so_far: &[u8], header: Header, at_end: bool) -> Result<First, StartupError>
    requires stands { HasHeader so_far.now }
    requires length { header.length ≡ length_of so_far.now }
    requires code { code_of so_far.now ≡ cancel_code }
    ensures { (seen : Seen) → Answers seen so_far.now at_end result }
{
    let Some(size) = key_size(header.length) else {
        return Err(StartupError::BadCancelLength);
    };
    let used = 8 + size;
    if so_far.len() < used {
        return unfinished(at_end);
    }
    let key = read_key(&so_far[8..used]);
    Ok(First::Cancel { key })
}

// How many bytes the key of a CancelRequest of this length has.
fn key_size(length: u32) -> Option<usize>
    ensures found { IfSome result (λ size. IsKeyLength size × (length ≡ 8 + size)) }
    ensures none { IfNone result ((length ≢ 16) × (length ≢ 32)) }
{
    match length {
        16 => Some(8),
        32 => Some(24),
        _ => None,
    }
}

// The key of these bytes.
fn read_key(bytes: &[u8]) -> AnyKey
    requires { IsKeyLength (length bytes.now) }
    ensures { any_key_bytes result ≡ bytes.now }
{
    if bytes.len() == 8 {
        let mut key = [0; 8];
        key.copy_from_slice(bytes);
        AnyKey::from_short_bytes(key)
    } else {
        let mut key = [0; 24];
        key.copy_from_slice(bytes);
        AnyKey::from_long_bytes(key)
    }
}

/// The answer to a header that asks for a negotiation, which the connection has seen or not.
pub fn read_negotiation(seen: bool, header: Header, asked: First) -> Result<First, StartupError>
    ensures { result ≡ (if seen then Err StartupError.Repeated
        else (if nat_lt 8 header.length then Err StartupError.TooLong else Ok asked)) }
{
    if seen {
        return Err(StartupError::Repeated);
    }
    if header.length > 8 {
        return Err(StartupError::TooLong);
    }
    Ok(asked)
}
