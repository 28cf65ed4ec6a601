//! Which part of a message's body a login reads, and what it says.
ghost use Rattle.std.specs.Prelude.{◌≡◌, length};
ghost use Rattle.link_state.specs.Message.{is_idle, message_in};

use crate::LinkError;
use crate::message::Message;
use byteorder::{BigEndian, ByteOrder};
use pg_ids::ServerKey;

/// The part of a body that a login reads.
#[derive(Clone, Copy, Debug)]
pub enum Part {
    /// The number of an authentication request.
    Number,
    /// The process ID and the secret key of BackendKeyData.
    Key,
    /// The status of ReadyForQuery.
    Status,
}

impl Part {
    ghost use Rattle.link_state.specs.Message.{part_len, message_in};

    /// How many bytes it has.
    pub fn len(self) -> usize
        ensures { result ≡ part_len self }
    {
        match self {
            Part::Number => 4,
            Part::Key => 8,
            Part::Status => 1,
        }
    }

    /// What a message means in which the part is these bytes.
    pub fn message(self, bytes: &[u8]) -> Message
        requires { length bytes.now ≡ part_len self }
        ensures { result ≡ message_in self bytes.now }
    {
        match self {
            Part::Number => authentication(bytes),
            Part::Key => Message::Key(key_of(bytes)),
            Part::Status => Message::Ready {
                idle: is_idle(bytes),
            },
        }
    }
}

// What an authentication request with this number means.
fn authentication(number: &[u8]) -> Message
    requires { length number.now ≡ 4 }
    ensures { result ≡ message_in Part.Number number.now }
{
    if BigEndian::read_u32(number) == 0 {
        Message::Passed
    } else {
        Message::Fault(LinkError::AuthAsked)
    }
}

// The key that these bytes are.
fn key_of(bytes: &[u8]) -> ServerKey
    requires { length bytes.now ≡ 8 }
    ensures { result ≡ bytes.now }
{
    let mut key = [0; 8];
    key.copy_from_slice(bytes);
    ServerKey(key)
}

// Whether the status says that no transaction is open.
fn is_idle(status: &[u8]) -> bool
    ensures { result ≡ is_idle status.now }
{
    match status {
        b"I" => true,
        _ => false,
    }
}
