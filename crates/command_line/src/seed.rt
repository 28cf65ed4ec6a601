//! The seed of `serve`: among the arguments or in a file.
ghost use Rattle.std.specs.Prelude.{◌≡◌, Some, drop, length, take};
ghost use Rattle.std.specs.Option.{option_map};
ghost use Rattle.command_line.specs.Finds.{Reads};
ghost use Rattle.command_line.specs.Seeds.{counted_bytes, is_line_end, one_of, seed_held, seed_of, source_in, source_of, text_in};

use crate::wrong::{Place, Wrong};
use hex::FromHex;

/// What the secrets of keys are drawn from.
#[derive(Clone, Copy)]
pub enum SeedSource<'a> {
    /// These bytes.
    Bytes([u8; 32]),
    /// What the file with this name holds.
    File(&'a str),
}

/// How a seed is given.
#[derive(Clone, Copy)]
pub enum SeedText<'a> {
    /// By its digits.
    Digits(&'a str),
    /// By the name of a file that holds it.
    File(&'a str),
}

impl<'a> SeedText<'a> {
    /// How the seed is given, where just one of both is there.
    pub fn one_of(digits: Option<&'a str>, file: Option<&'a str>) -> Result<SeedText<'a>, Wrong<'a>>
        ensures { Reads text_in result (one_of (option_map (λ t. t.now) digits.entry)
            (option_map (λ t. t.now) file.entry)) }
    {
        match (digits, file) {
            (Some(digits), None) => Ok(SeedText::Digits(digits)),
            (None, Some(file)) => Ok(SeedText::File(file)),
            _ => Err(Wrong::Form),
        }
    }

    /// What secrets are drawn from.
    pub fn source(self) -> Result<SeedSource<'a>, Wrong<'a>>
        ensures { Reads source_in result (source_of (text_in self.entry)) }
    {
        match self {
            SeedText::Digits(digits) => Ok(SeedSource::Bytes(seed_of(digits)?)),
            SeedText::File(file) => Ok(SeedSource::File(file)),
        }
    }
}

fn seed_of<'a>(digits: &'a str) -> Result<[u8; 32], Wrong<'a>>
    ensures { Reads (λ seed. seed) result (seed_of digits.now) }
{
    match <[u8; 32] as FromHex>::from_hex(digits) {
        Ok(seed) => Ok(seed),
        Err(_) => Err(Wrong::Value(Place::Seed, digits)),
    }
}

/// How many bytes of a file with this name are read for its seed, at most: of `/dev/urandom`, which
/// has no end, the 32 of a seed, and of any other file one more than 64 digits with a line's end.
pub fn counted_bytes(name: &str) -> usize
    ensures { result ≡ counted_bytes name.now }
{
    if name == "/dev/urandom" { 32 } else { 67 }
}

/// The seed that a file with these bytes holds, if it holds one: 32 bytes, or 64 hexadecimal digits,
/// with or without a line's end.
#[tactic(auto, unfolding(crate::specs::Seeds::seed_held))]
pub fn seed_held(bytes: &[u8]) -> Option<[u8; 32]>
    ensures { result ≡ seed_held bytes.now }
{
    if bytes.len() == 32 {
        return Some(all_of(bytes));
    }
    let (digits, behind) = cut_at_64(bytes);
    if !is_line_end(behind) {
        return None;
    }
    <[u8; 32] as FromHex>::from_hex(digits).ok()
}

// The first 64 bytes, and what is behind them.
fn cut_at_64(bytes: &[u8]) -> (&[u8], &[u8])
    ensures first { result.0.now ≡ take 64 bytes.now }
    ensures behind { result.1.now ≡ drop 64 bytes.now }
{
    bytes.split_at(usize::min(64, bytes.len()))
}

fn all_of(bytes: &[u8]) -> [u8; 32]
    requires { length bytes.now ≡ 32 }
    ensures { result ≡ bytes.now }
{
    let mut all = [0; 32];
    all.copy_from_slice(bytes);
    all
}

// Whether nothing is there, or a line's end.
fn is_line_end(bytes: &[u8]) -> bool
    ensures { result ≡ is_line_end bytes.now }
{
    bytes == b"".as_slice() || (bytes == b"\n".as_slice() || bytes == b"\r\n".as_slice())
}
