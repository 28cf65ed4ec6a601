//! The words of a line.
use hex::FromHex;
use pg_ids::AnyKey;
use std::alloc::{AllocError, AllocFailed, Global};

/// Why a line has no reply.
#[derive(Clone, Copy, Debug, PartialEq, Eq)]
pub(crate) enum Trouble {
    /// It is no call, or names what isn't there.
    Line,
    /// Memory ran out.
    Memory,
}

impl From<AllocError> for Trouble {
    fn from(_e: AllocError) -> Trouble {
        Trouble::Memory
    }
}

impl<T: Drop> From<AllocFailed<T>> for Trouble {
    fn from(_e: AllocFailed<T>) -> Trouble {
        Trouble::Memory
    }
}

/// A number.
pub(crate) fn number(word: &str) -> Result<u64, Trouble> {
    match word.parse::<u64>() {
        Ok(number) => Ok(number),
        Err(_) => Err(Trouble::Line),
    }
}

/// A number below 2^32.
pub(crate) fn small(word: &str) -> Result<u32, Trouble> {
    match word.parse::<u32>() {
        Ok(number) => Ok(number),
        Err(_) => Err(Trouble::Line),
    }
}

/// The number of a database.
pub(crate) fn database(word: &str) -> Result<u8, Trouble> {
    match word.parse::<u8>() {
        Ok(number) => Ok(number),
        Err(_) => Err(Trouble::Line),
    }
}

/// Eight bytes, in 16 hexadecimal digits.
pub(crate) fn eight(word: &str) -> Result<[u8; 8], Trouble> {
    match <[u8; 8] as FromHex>::from_hex(word) {
        Ok(bytes) => Ok(bytes),
        Err(_) => Err(Trouble::Line),
    }
}

/// A key of eight bytes or of 24.
pub(crate) fn key(word: &str) -> Result<AnyKey, Trouble> {
    if word.len() == 16 {
        return Ok(AnyKey::from_short_bytes(eight(word)?));
    }
    match <[u8; 24] as FromHex>::from_hex(word) {
        Ok(bytes) => Ok(AnyKey::from_long_bytes(bytes)),
        Err(_) => Err(Trouble::Line),
    }
}

/// A reply of one line.
pub(crate) fn told(alloc: Global, words: &str) -> Result<String, Trouble> {
    Ok(format!(in alloc; " -> {words}")?)
}
