//! The length and the code that every first packet begins with.
ghost use Rattle.std.specs.Prelude.{◌≡◌, ◌<◌, ◌≤◌, List, ℕ, length, Result, Option};
ghost use Rattle.startup.specs.FirstPacket.{length_of, code_of, HasHeader};

use crate::startup_error::StartupError;
use byteorder::{BigEndian, ByteOrder};

pub const STARTUP_CODE: u32 = 3 << 16;

// Protocol 3.2, whose clients get long keys (own).
pub const LONG_STARTUP_CODE: u32 = STARTUP_CODE + 2;

pub const CANCEL_CODE: u32 = 80877102;

pub const SSL_CODE: u32 = 80877103;

pub const GSS_CODE: u32 = 80877104;

// The shortest packet is a header alone; the longest is own.
const SHORTEST: u32 = 8;

const LONGEST: u32 = 10000;

/// The length and the code of a packet.
#[derive(Clone, Copy, Debug, PartialEq, Eq)]
pub struct Header {
    pub length: u32,
    pub code: u32,
}

impl Header {
    ghost use Rattle.startup.specs.Header.{IsHeaderRead};

    /// The header, once it stands whole. The length is judged as soon as it stands.
    pub fn read(text: &[u8]) -> Result<Option<Header>, StartupError>
        ensures { IsHeaderRead text.now result }
    {
        if text.len() < 4 {
            return Ok(None);
        }
        let length = BigEndian::read_u32(text);
        if length < SHORTEST {
            return Err(StartupError::TooShort);
        }
        if length > LONGEST {
            return Err(StartupError::TooLong);
        }
        if text.len() < 8 {
            return Ok(None);
        }
        let code = BigEndian::read_u32(&text[4..]);
        Ok(Some(Header { length, code }))
    }
}
