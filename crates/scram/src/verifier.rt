//! What a client proves itself by.
ghost use Rattle.std.specs.Prelude.{◌≡◌, false, IfOk};
ghost use Rattle.scram.specs.Messages.{IsCount};

use crate::entry::Entry;
use crate::mac::hmac;
use std::alloc::{AllocError, Global};
use std::marker::Model;

/// The entry of a user, or one that stands for a user who isn't known: no proof satisfies that one,
/// and a client can't tell from the messages.
#[derive(Debug, Drop)]
pub struct Verifier {
    entry: Entry,
    is_mock: bool,
}

impl Model for Verifier {
    ghost use Rattle.scram.specs.Exchange.{Verified};

    ghost Value = { Verified };

    ghost view = { λ v. record { entry = v.entry; is_mock = v.is_mock } };
}

impl Verifier {
    ghost use Rattle.scram.specs.Entry.{IsNobody};

    /// The entry of a user.
    pub fn known(entry: Entry) -> Verifier
        ensures { result ≡ record { entry = entry; is_mock = false } }
    {
        Verifier {
            entry,
            is_mock: false,
        }
    }

    /// An entry that stands for a user who isn't known. Its salt depends on the name and on a secret,
    /// which is to stay the same while the pooler runs, so that a name always has the same salt.
    /// `iterations` is to be what entries usually have.
    pub fn mock(
        alloc: Global,
        secret: &[u8],
        user: &[u8],
        iterations: u32,
    ) -> Result<Verifier, AllocError>
        requires { IsCount iterations }
        ensures { IfOk result (λ verifier. IsNobody secret.now user.now iterations verifier) }
    {
        let salt = hmac(secret, user);
        let entry = Entry::nobody(alloc, &salt[..16], iterations)?;
        Ok(Verifier {
            entry,
            is_mock: true,
        })
    }

    /// The entry, which may be nobody's.
    pub(crate) fn entry(&self) -> &Entry
        ensures { result.now ≡ self.now.entry }
    {
        &self.entry
    }

    /// Whether the entry is nobody's.
    pub(crate) fn is_mock(&self) -> bool
        ensures { result ≡ self.now.is_mock }
    {
        self.is_mock
    }
}
