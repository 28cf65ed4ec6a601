//! What a server keeps of a password.
ghost use Rattle.std.specs.Prelude.{◌≡◌, List, ℕ, IfNone, IfOk, IfSome};
ghost use Rattle.scram.specs.KeptText.{HasKept, ReadsKept};

use crate::encoding::{decoded, digest_in, push_base64};
use crate::number::count_of;
use crate::parts::{after_prefix, cut_at};
use crate::salted::SaltedPassword;
use crate::values::{server_key, stored_key};
use itoa::Buffer;
use std::alloc::{AllocError, Global};
use std::fmt;
use std::marker::Model;
use thiserror::Error;

/// Why a text is no entry; or out of memory.
#[derive(Clone, Copy, Debug, PartialEq, Eq, Error)]
pub enum EntryError {
    /// The text doesn't begin with `SCRAM-SHA-256$`.
    #[error("the stored password is not of SCRAM-SHA-256")]
    OtherMethod,
    /// What follows isn't a count of iterations, a salt and two keys.
    #[error("the stored SCRAM-SHA-256 password is malformed")]
    Malformed,
    /// Memory was refused.
    #[error("out of memory")]
    Memory,
}

impl From<AllocError> for EntryError {
    ghost use Rattle.scram.specs.declared.entry.EntryError.TheVariants.{Memory};

    ghost from_gives = { λ _ error. error ≡ Memory };

    fn from(_error: AllocError) -> EntryError {
        EntryError::Memory
    }
}

/// A salt, a count of iterations, and the keys with which a proof is checked and answered. `Debug`
/// doesn't show them.
#[derive(Drop)]
pub struct Entry {
    salt: Vec<u8>,
    iterations: u32,
    stored_key: [u8; 32],
    server_key: [u8; 32],
}

impl Model for Entry {
    ghost use Rattle.scram.specs.Exchange.{Kept};
    ghost use Rattle.scram.specs.Messages.{IsCount};

    ghost Value = { Kept };

    ghost view = { λ e. record {
      salt = e.salt.items;
      iterations = e.iterations;
      stored_key = e.stored_key;
      server_key = e.server_key;
    } };

    ghost invariant = { λ e. IsCount e.iterations };
}

impl Entry {
    ghost use Rattle.scram.specs.Entry.{TellsEntry, entry_of, entry_text};
    ghost use Rattle.scram.specs.Messages.{IsCount};

    /// The entry of a salted password.
    pub fn of(alloc: Global, salted: &SaltedPassword) -> Result<Entry, AllocError>
        ensures { IfOk result (λ entry. entry ≡ entry_of salted.now) }
    {
        let salt = Vec::from_slice(alloc, salted.salt())?;
        Ok(Entry {
            salt,
            iterations: salted.iterations(),
            stored_key: stored_key(salted.key()),
            server_key: server_key(salted.key()),
        })
    }

    /// Reads an entry as PostgreSQL keeps it.
    pub fn read(alloc: Global, text: &[u8]) -> Result<Entry, EntryError>
        ensures { TellsEntry text.now result }
    {
        let Some(rest) = after_prefix(text, b"SCRAM-SHA-256$") else {
            return Err(EntryError::OtherMethod);
        };
        match read_kept(alloc, rest)? {
            Some(entry) => Ok(entry),
            None => Err(EntryError::Malformed),
        }
    }

    /// The text of the entry, as PostgreSQL keeps it.
    pub fn text(&self, alloc: Global) -> Result<Vec<u8>, AllocError>
        ensures { IfOk result (λ text. text.items ≡ entry_text self.now) }
    {
        let mut digits = Buffer::new();
        let mut text = Vec::from_slice(alloc, b"SCRAM-SHA-256$")?;
        text.extend_from_slice(digits.format(self.iterations).as_bytes())?;
        text.push(b':')?;
        push_base64(&mut text, alloc, &self.salt)?;
        text.push(b'$')?;
        push_base64(&mut text, alloc, &self.stored_key)?;
        text.push(b':')?;
        push_base64(&mut text, alloc, &self.server_key)?;
        Ok(text)
    }

    /// The salt.
    pub fn salt(&self) -> &[u8]
        ensures { result.now ≡ self.now.salt }
    {
        &self.salt
    }

    /// The count of iterations.
    pub fn iterations(&self) -> u32
        ensures is { result ≡ self.now.iterations }
        ensures range { IsCount result }
    {
        self.iterations
    }

    /// StoredKey.
    pub(crate) fn stored_key(&self) -> &[u8; 32]
        ensures { result.now ≡ self.now.stored_key }
    {
        &self.stored_key
    }

    /// ServerKey.
    pub(crate) fn server_key(&self) -> &[u8; 32]
        ensures { result.now ≡ self.now.server_key }
    {
        &self.server_key
    }

    /// An entry whose keys are zeros.
    pub(crate) fn nobody(alloc: Global, salt: &[u8], iterations: u32) -> Result<Entry, AllocError>
        requires { IsCount iterations }
        ensures { IfOk result (λ entry. (entry.salt ≡ salt.now) × (entry.iterations ≡ iterations)) }
    {
        let salt = Vec::from_slice(alloc, salt)?;
        Ok(Entry {
            salt,
            iterations,
            stored_key: [0; 32],
            server_key: [0; 32],
        })
    }
}

// The entry whose text after the method's name this is.
fn read_kept(alloc: Global, text: &[u8]) -> Result<Option<Entry>, AllocError>
    ensures { IfOk result (λ entry. ReadsKept text.now entry) }
{
    let Some(parts) = EntryText::read(text) else {
        return Ok(None);
    };
    let Some(iterations) = count_of(parts.count) else {
        return Ok(None);
    };
    let Some(salt) = decoded(alloc, parts.salt)? else {
        return Ok(None);
    };
    let Some(stored_key) = digest_in(alloc, parts.stored_key)? else {
        return Ok(None);
    };
    let Some(server_key) = digest_in(alloc, parts.server_key)? else {
        return Ok(None);
    };
    Ok(Some(Entry {
        salt,
        iterations,
        stored_key,
        server_key,
    }))
}

// The parts of an entry's text after the method's name, as they stand.
#[derive(Clone, Copy)]
struct EntryText<'a> {
    count: &'a [u8],
    salt: &'a [u8],
    stored_key: &'a [u8],
    server_key: &'a [u8],
}

impl<'a> EntryText<'a> {
    fn read(text: &'a [u8]) -> Option<EntryText<'a>>
        ensures found { IfSome result (λ parts. HasKept text.now parts.count.now parts.salt.now
            parts.stored_key.now parts.server_key.now) }
        ensures none { IfNone result ((count salt stored server : List ℕ)
            → ¬ (HasKept text.now count salt stored server)) }
    {
        let (count, rest) = cut_at(text, b':')?;
        let (salt, rest) = cut_at(rest, b'$')?;
        let (stored_key, server_key) = cut_at(rest, b':')?;
        Some(EntryText {
            count,
            salt,
            stored_key,
            server_key,
        })
    }
}

impl fmt::Debug for Entry {
    ghost use Rattle.std.specs.Prelude.{Some, codes};

    ghost debug_output = { λ _. Some (codes "Entry(..)") };

    fn fmt<W: fmt::Write>(&self, f: &mut fmt::Formatter<W>) -> fmt::Result {
        f.write_str("Entry(..)")
    }
}
