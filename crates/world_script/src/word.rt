//! Words of a script: numbers and bytes.
ghost use Rattle.std.specs.Prelude.{◌≡◌, ◌≤◌, IfOk, IfSome, map};
ghost use Rattle.world_script.specs.Reads.{Finds};
ghost use Rattle.world_script.specs.Words.{words, is_numeral, number_of, number_from, node_number, key_of, bytes_of};

use crate::fault::LineFault;
use hex::{FromHex, FromHexError};
use ini_config::{is_digits, value_of};
use pg_ids::{PeerNo, ServerKey};
use std::alloc::{AllocError, Global};
use world::Bytes;

// The digits of a number, and of the bytes that are put in flight.
const MAX_DIGITS: usize = 10;

const MAX_HEX: usize = 128;

const MAX_NODE: u32 = 16383;

/// The words of a line, between single spaces.
pub(crate) fn words(alloc: Global, line: &str) -> Result<Vec<&str>, AllocError>
    ensures { IfOk result (λ found. map (λ word. word.now) found.items ≡ words line.now) }
{
    line.split(' ').collect(alloc)
}

/// A number of 1 to 10 digits, below 2^32.
#[tactic(auto, unfolding(crate::specs::Words::number_of))]
pub(crate) fn number(word: &str) -> Option<u32>
    ensures { result ≡ number_of word.now }
{
    if !is_numeral(word) {
        return None;
    }
    value_of(word)
}

fn is_numeral(word: &str) -> bool
    ensures { result ≡ is_numeral word.now }
{
    word.len() <= MAX_DIGITS && is_digits(word)
}

/// A number from `low` to `high`.
#[tactic(auto, unfolding(crate::specs::Words::number_from))]
pub(crate) fn number_from(low: u32, high: u32, word: &str) -> Option<u32>
    ensures value { result ≡ number_from low high word.now }
    ensures range { IfSome result (λ n. (low ≤ n) × (n ≤ high)) }
{
    let number = number(word)?;
    if low <= number && number <= high {
        Some(number)
    } else {
        None
    }
}

/// The number of a node line.
pub(crate) fn node_number(word: &str) -> Option<PeerNo>
    ensures { result ≡ node_number word.now }
{
    let number = number_from(0, MAX_NODE, word)?;
    PeerNo::new(number as u16)
}

/// A server's key, in 16 hexadecimal digits.
pub(crate) fn server_key(word: &str) -> Option<ServerKey>
    ensures { result ≡ key_of word.now }
{
    let key = <[u8; 8] as FromHex>::from_hex(word).ok()?;
    Some(ServerKey(key))
}

/// At most 64 bytes, in hexadecimal digits, or `-` for none.
#[tactic(auto, unfolding(crate::specs::Words::bytes_of))]
pub(crate) fn bytes(alloc: Global, word: &str) -> Result<Bytes, LineFault>
    ensures { Finds result (bytes_of word.now) }
{
    if word == "-" {
        return Ok(Bytes::from_vec(Vec::new(alloc)));
    }
    if word.len() > MAX_HEX {
        return Err(LineFault::Form);
    }
    match hex::decode(alloc, word) {
        Ok(bytes) => Ok(Bytes::from_vec(bytes)),
        Err(FromHexError::OutOfMemory) => Err(LineFault::Memory),
        Err(_) => Err(LineFault::Form),
    }
}
