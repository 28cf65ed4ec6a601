//! Requests that a pooler writes.
ghost use Rattle.std.specs.Prelude.{◌≡◌, ◌≢◌, ◌+◌, ◌≤◌, [], ◌++◌, Bool, List, ℕ, length, take, OnOk, OnErr, IsOkUnless};
ghost use Rattle.byteorder.specs.Endian.{big_bytes};
ghost use Rattle.pg_ids.specs.AnyKey.{any_key_bytes};
ghost use Rattle.pg_ids.specs.declared.any_key.Kind.TheVariants as kind;
ghost use Rattle.startup.specs.Packet.{startup_code, cancel_request};
ghost use Rattle.startup.specs.CancelPacket.{packet_of, cancel_packet, packet_bytes};
ghost use Rattle.startup.specs.StartupMessage.{HasNoZero, asked_for, body_of, startup_request, unless_empty};
ghost use Rattle.startup.specs.Kinds.{Seen};
ghost use Rattle.startup.specs.FirstPacket.{Cancel, Startup, IsOutcome};

use crate::append::append;
use crate::header::CANCEL_CODE;
use crate::packet::Packet;
use crate::startup_error::StartupError;
use byteorder::{BigEndian, ByteOrder};
use pg_ids::{AnyKey, KeyBytes};

/// The CancelRequest of this key, whole (PostgreSQL manual, "Message Formats"; that of a long key
/// is own).
pub fn write_cancel(key: AnyKey) -> Packet
    ensures bytes { result ≡ cancel_packet key }
    // Bytes that begin with the request are read as one of this key, whatever follows.
    ensures read { (seen : Seen) (after : List ℕ) (at_end : Bool)
        → IsOutcome seen (packet_bytes result ++ after) at_end (Cancel (any_key_bytes key)) }
    // A key has no other request: bytes that are read as one of this key begin with these.
    ensures only { (seen : Seen) (text : List ℕ) (at_end : Bool)
        → IsOutcome seen text at_end (Cancel (any_key_bytes key))
        → take (length (packet_bytes result)) text ≡ packet_bytes result }
{
    packet_of(key.to_bytes())
}

// The CancelRequest of these key bytes.
fn packet_of(bytes: KeyBytes) -> Packet
    ensures { result ≡ packet_of bytes }
{
    match bytes {
        KeyBytes::Short(key) => {
            let mut request = [0; 16];
            write_request(&mut request, &key);
            Packet::Short(request)
        }
        KeyBytes::Long(key) => {
            let mut request = [0; 32];
            write_request(&mut request, &key);
            Packet::Long(request)
        }
    }
}

// Writes the CancelRequest of these key bytes into as many bytes as it has.
fn write_request(request: &mut [u8], key: &[u8])
    requires fits { length request.old ≡ 8 + length key.now }
    requires short { length key.now ≤ 24 }
    ensures { request.new ≡ cancel_request key.now }
{
    let length = request.len() as u32;
    BigEndian::write_u32(request, length);
    BigEndian::write_u32(&mut request[4..], CANCEL_CODE);
    request[8..].copy_from_slice(key);
}

/// Puts a StartupMessage of protocol 3.0 at the end of the buffer, which asks a server for this
/// user and this database and nothing else (PostgreSQL manual, "Message Formats"). The only error
/// is `Memory`.
pub fn write_startup(user: &str, database: &str, out: &mut Vec<u8>) -> Result<(), StartupError>
    requires user { HasNoZero user.now }
    requires database { HasNoZero database.now }
    requires short { length user.now + length database.now ≤ 8000 }
    ensures ok { OnOk result (out.new.items ≡ out.old.items
        ++ startup_request user.now database.now) }
    ensures err { OnErr result (out.new.items ≡ out.old.items) }
    ensures memory { IsOkUnless result StartupError.Memory }
    // Bytes that begin with the message are read as this session's, whatever follows.
    ensures read { user.now ≢ [] → (seen : Seen) (after : List ℕ) (at_end : Bool)
        → let request = startup_request user.now database.now in
        IsOutcome seen (request ++ after) at_end
        (Startup kind.Short user.now (unless_empty database.now user.now) (length request)) }
{
    // Length and code, the names, and each of the five texts' zero bytes.
    let length = 8 + 4 + 8 + 5 + user.len() + database.len();
    write_asked(&(length as u32).to_be_bytes(), user, database, out)
}

// Puts a StartupMessage of this length at the end of the buffer.
fn write_asked<'a>(
    size: &'a [u8],
    user: &'a str,
    database: &'a str,
    out: &mut Vec<u8>,
) -> Result<(), StartupError>
    requires { length size.now + length user.now + length database.now ≤ 65536 }
    ensures ok { OnOk result (out.new.items ≡ out.old.items
        ++ (size.now ++ big_bytes 4 (startup_code kind.Short)
        ++ body_of (asked_for user.now database.now))) }
    ensures err { OnErr result (out.new.items ≡ out.old.items) }
    ensures memory { IsOkUnless result StartupError.Memory }
{
    append(
        out,
        &[
            size,
            b"\0\x03\0\0",
            b"user\0",
            user.as_bytes(),
            b"\0database\0",
            database.as_bytes(),
            b"\0\0",
        ],
    )
}
