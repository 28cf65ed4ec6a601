//! Salted passwords.
ghost use Rattle.std.specs.Prelude.{◌≡◌, IfOk};

use crate::mac::hi;
use crate::preparation::prepare;
use std::alloc::{AllocError, Global};
use std::fmt;
use std::marker::Model;

/// A salted password, with its salt and count of iterations. Whoever keeps it for a user needs no
/// rounds for the next login with the same salt and count. `Debug` doesn't show it.
#[derive(Drop)]
pub struct SaltedPassword {
    salt: Vec<u8>,
    iterations: u32,
    key: [u8; 32],
}

impl Model for SaltedPassword {
    ghost use Rattle.scram.specs.Exchange.{Salted};
    ghost use Rattle.scram.specs.Messages.{IsCount};

    ghost Value = { Salted };

    ghost view = { λ s. record { salt = s.salt.items; iterations = s.iterations; key = s.key } };

    ghost invariant = { λ s. IsCount s.iterations };
}

impl SaltedPassword {
    ghost use Rattle.scram.specs.SaltedOf.{IsSaltedOf};
    ghost use Rattle.scram.specs.Values.{salted_password};
    ghost use Rattle.scram.specs.Messages.{IsCount};

    /// The salted password of a password that is prepared already. It takes `iterations` rounds of
    /// HMAC.
    pub fn new(
        alloc: Global,
        prepared: &[u8],
        salt: &[u8],
        iterations: u32,
    ) -> Result<SaltedPassword, AllocError>
        requires { IsCount iterations }
        ensures { IfOk result (λ salted. salted ≡ record {
          salt = salt.now;
          iterations = iterations;
          key = salted_password prepared.now salt.now iterations;
        }) }
    {
        let kept = Vec::from_slice(alloc, salt)?;
        Ok(SaltedPassword {
            salt: kept,
            iterations,
            key: hi(prepared, salt, iterations),
        })
    }

    /// The salted password of a password, which is prepared first. It takes `iterations` rounds of
    /// HMAC.
    pub fn of_password(
        alloc: Global,
        password: &[u8],
        salt: &[u8],
        iterations: u32,
    ) -> Result<SaltedPassword, AllocError>
        requires { IsCount iterations }
        ensures { IfOk result (λ salted. IsSaltedOf password.now salt.now iterations salted) }
    {
        let prepared = prepare(alloc, password)?;
        SaltedPassword::new(alloc, &prepared, salt, iterations)
    }

    /// The salt.
    pub fn salt(&self) -> &[u8]
        ensures { result.now ≡ self.now.salt }
    {
        &self.salt
    }

    /// The count of iterations.
    pub fn iterations(&self) -> u32
        ensures is { result ≡ self.now.iterations }
        ensures range { IsCount result }
    {
        self.iterations
    }

    /// SaltedPassword itself.
    pub(crate) fn key(&self) -> &[u8; 32]
        ensures { result.now ≡ self.now.key }
    {
        &self.key
    }
}

impl fmt::Debug for SaltedPassword {
    ghost use Rattle.std.specs.Prelude.{Some, codes};

    ghost debug_output = { λ _. Some (codes "SaltedPassword(..)") };

    fn fmt<W: fmt::Write>(&self, f: &mut fmt::Formatter<W>) -> fmt::Result {
        f.write_str("SaltedPassword(..)")
    }
}
