//! The client's side: it proves that it knows a password, and has the server prove the same.
ghost use Rattle.std.specs.Prelude.{◌≡◌, ℕ, List, [], IfOk, IsOkUnless};
ghost use Rattle.scram.specs.Client.{HasFirst, TellsAsked};

use crate::client_error::ClientError;
use crate::encoding::{decoded, is_base64_of};
use crate::flag::Gs2Flag;
use crate::mac::hmac;
use crate::messages;
use crate::nonce::{extends, is_nonce};
use crate::number::count_of;
use crate::parts::value_of;
use crate::salted::SaltedPassword;
use crate::server_message::ServerFirst;
use crate::values::{client_proof, server_key};
use std::alloc::{AllocError, Global};
use std::fmt;
use std::marker::Model;

/// A client that has sent nothing yet: its nonce.
#[derive(Debug, Drop)]
pub struct ClientFirst {
    alloc: Global,
    nonce: Vec<u8>,
}

impl Model for ClientFirst {
    ghost use Rattle.scram.specs.Messages.{IsNonce};
    ghost use Rattle.std.specs.Prelude.{List, ℕ};

    ghost Value = { List ℕ };

    ghost view = { λ c. c.nonce.items };

    ghost invariant = { λ c. IsNonce c.nonce.items };
}

impl ClientFirst {
    ghost use Rattle.base64.specs.GeneralPurpose.{IsBytes};
    ghost use Rattle.scram.specs.Client.{TellsAsked, TellsNonce};
    ghost use Rattle.scram.specs.Messages.{IsCount, client_first, server_first};
    ghost use Rattle.scram.specs.Nonces.{Extends};

    /// A client with this nonce, which is to be fresh: printable, without a comma, and not empty.
    pub fn new(alloc: Global, nonce: &[u8]) -> Result<ClientFirst, ClientError>
        ensures { TellsNonce nonce.now result }
    {
        if !is_nonce(nonce) {
            return Err(ClientError::BadNonce);
        }
        let nonce = Vec::from_slice(alloc, nonce)?;
        Ok(ClientFirst { alloc, nonce })
    }

    /// The client-first-message, with an empty user's name: PostgreSQL takes the name from the
    /// StartupMessage.
    pub fn message(&self) -> Result<Vec<u8>, AllocError>
        ensures { IfOk result (λ text. text.items ≡ client_first Gs2Flag.Unsupported [] self.now) }
    {
        messages::client_first(self.alloc, &self.nonce)
    }

    /// Reads the server-first-message.
    pub fn read(self, text: &[u8]) -> Result<Challenge, ClientError>
        ensures answer { TellsAsked self text.now result }
        // Nothing that may be accepted is refused.
        ensures accepts { (nonce salt : List ℕ) (iterations : ℕ)
            → text.now ≡ server_first nonce salt iterations → Extends self nonce → IsBytes salt
            → IsCount iterations → IsOkUnless result ClientError.Memory }
    {
        self.judge(text)
    }

    // What a text is as a server-first-message.
    fn judge(&self, text: &[u8]) -> Result<Challenge, ClientError>
        ensures { TellsAsked self.now text.now result }
    {
        if value_of(text, b'm').is_some() {
            return Err(ClientError::Extension);
        }
        let Some(first) = ServerFirst::read(text) else {
            return Err(ClientError::Malformed);
        };
        asked_for(self.alloc, &self.nonce, text, first)
    }
}

// What a client with this nonce is asked for, by a text with these attributes.
fn asked_for(
    alloc: Global,
    own: &[u8],
    text: &[u8],
    first: ServerFirst<'_>,
) -> Result<Challenge, ClientError>
    requires { HasFirst text.now first.nonce.now first.salt.now first.count.now }
    ensures { TellsAsked own.now text.now result }
{
    if !extends(first.nonce, own) {
        return Err(ClientError::OtherNonce);
    }
    let Some(salt) = decoded(alloc, first.salt)? else {
        return Err(ClientError::BadSalt);
    };
    let Some(iterations) = count_of(first.count) else {
        return Err(ClientError::BadIterations);
    };
    Ok(Challenge {
        alloc,
        bare: messages::client_first_bare(alloc, own)?,
        server_first: Vec::from_slice(alloc, text)?,
        nonce: Vec::from_slice(alloc, first.nonce)?,
        salt,
        iterations,
    })
}

/// A client that was asked for its proof. It holds both nonces, and can be answered once.
#[derive(Debug, Drop)]
pub struct Challenge {
    alloc: Global,
    bare: Vec<u8>,
    server_first: Vec<u8>,
    nonce: Vec<u8>,
    salt: Vec<u8>,
    iterations: u32,
}

impl Model for Challenge {
    ghost use Rattle.scram.specs.Exchange.{Asked};
    ghost use Rattle.scram.specs.Messages.{IsCount};

    ghost Value = { Asked };

    ghost view = { λ c. record {
      bare = c.bare.items;
      server_first = c.server_first.items;
      nonce = c.nonce.items;
      salt = c.salt.items;
      iterations = c.iterations;
    } };

    ghost invariant = { λ c. IsCount c.iterations };
}

impl Challenge {
    ghost use Rattle.scram.specs.Client.{TellsClaim};
    ghost use Rattle.scram.specs.Messages.{IsCount};

    /// The salt that the server asks for.
    pub fn salt(&self) -> &[u8]
        ensures { result.now ≡ self.now.salt }
    {
        &self.salt
    }

    /// The count of iterations that the server asks for, from 1 to a million.
    pub fn iterations(&self) -> u32
        ensures is { result ≡ self.now.iterations }
        ensures range { IsCount result }
    {
        self.iterations
    }

    /// Proves the password, which has to be salted with this salt and count of iterations.
    pub fn prove(self, salted: &SaltedPassword) -> Result<Expecting, ClientError>
        ensures { TellsClaim self salted.now result }
    {
        if salted.salt() != self.salt.as_slice() || salted.iterations() != self.iterations {
            return Err(ClientError::OtherSalt);
        }
        let flag = Gs2Flag::Unsupported;
        let last = messages::without_proof(self.alloc, flag, &self.nonce)?;
        let said = messages::auth_message(self.alloc, &self.bare, &self.server_first, &last)?;
        let proof = client_proof(salted.key(), &said);
        let message = messages::client_final(self.alloc, flag, &self.nonce, &proof)?;
        let signature = hmac(&server_key(salted.key()), &said);
        Ok(Expecting { message, signature })
    }
}

/// A client that has its proof, and expects the server's signature.
#[derive(Drop)]
pub struct Expecting {
    message: Vec<u8>,
    signature: [u8; 32],
}

impl Model for Expecting {
    ghost use Rattle.scram.specs.Exchange.{Claim};

    ghost Value = { Claim };

    ghost view = { λ e. record { message = e.message.items; signature = e.signature } };
}

impl Expecting {
    ghost use Rattle.scram.specs.Client.{TellsFinal};

    /// The client-final-message, to be sent.
    pub fn message(&self) -> &[u8]
        ensures { result.now ≡ self.now.message }
    {
        &self.message
    }

    /// Reads the server-final-message. Only if it is `Ok` has the server proved that it knows the
    /// password, or what is kept of it.
    pub fn read(self, text: &[u8]) -> Result<(), ClientError>
        ensures { TellsFinal self.signature text.now result }
    {
        if value_of(text, b'e').is_some() {
            return Err(ClientError::Refused);
        }
        let Some(value) = value_of(text, b'v') else {
            return Err(ClientError::Malformed);
        };
        if !is_base64_of(value, &self.signature) {
            return Err(ClientError::BadSignature);
        }
        Ok(())
    }
}

impl fmt::Debug for Expecting {
    ghost use Rattle.std.specs.Prelude.{Some, codes};

    ghost debug_output = { λ _. Some (codes "Expecting(..)") };

    fn fmt<W: fmt::Write>(&self, f: &mut fmt::Formatter<W>) -> fmt::Result {
        f.write_str("Expecting(..)")
    }
}
