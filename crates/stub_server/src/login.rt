//! The keys of clients, and their logins.
ghost use Rattle.std.specs.Prelude.{◌≡◌, ◌↔◌, ◌+◌, ◌^◌, ◌≤◌, IsNone, IfOk, IfSome};
ghost use Rattle.stub_server.specs.Login.{server_key, IsLogin};

use byteorder::{BigEndian, ByteOrder};
use pg_ids::{AnyKey, ClientKey, ServerKey};
use startup::{Reports, write_login};
use std::alloc::{AllocError, Global};

// What a client's secret key is above its process ID.
const SECRET_ABOVE: u32 = 1_000_000;

/// The key of the client that logs in as this one, from 1 on. There is none if its secret key would
/// be above 2^32 - 1.
pub fn key_of(number: u32) -> Option<ServerKey>
    ensures key { IfSome result (λ key. key ≡ server_key number) }
    ensures none { IsNone result ↔ (2 ^ 32 ≤ number + 1000000) }
{
    let secret = number.checked_add(SECRET_ABOVE)?;
    let mut bytes = [0; 8];
    BigEndian::write_u32(&mut bytes, number);
    BigEndian::write_u32(&mut bytes[4..], secret);
    Some(ServerKey(bytes))
}

/// The messages of a login with this key. Fails if memory runs out.
pub fn login_text(alloc: Global, key: ServerKey) -> Result<Vec<u8>, AllocError>
    ensures { IfOk result (λ out. IsLogin key out.items) }
{
    let client = ClientKey::from_bytes(key.to_bytes());
    let mut out = Vec::new(alloc);
    match write_login(Some(AnyKey::Short(client)), &Reports::new(alloc), &mut out) {
        Ok(()) => Ok(out),
        Err(_) => Err(AllocError),
    }
}
