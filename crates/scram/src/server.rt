//! The server's side: it has a client prove that it knows a password, and proves the same.
ghost use Rattle.std.specs.Prelude.{◌≡◌, ℕ, List, IsOkUnless};

use crate::client_message::{ClientLast, header_of, nonce_of};
use crate::encoding::{digest_in, is_header};
use crate::flag::Gs2Flag;
use crate::mac::hmac;
use crate::messages;
use crate::nonce::is_nonce;
use crate::parts::after_prefix;
use crate::server_error::ServerError;
use crate::values::is_proof;
use crate::verifier::Verifier;
use std::alloc::Global;
use std::fmt;
use std::marker::Model;

/// A server that has read a client's first message.
#[derive(Debug, Drop)]
pub struct Received {
    alloc: Global,
    flag: Gs2Flag,
    bare: Vec<u8>,
    nonce: Vec<u8>,
}

impl Model for Received {
    ghost use Rattle.scram.specs.Exchange.{Greeted};
    ghost use Rattle.scram.specs.Messages.{IsNonce};

    ghost Value = { Greeted };

    ghost view = { λ r. record { flag = r.flag; bare = r.bare.items; nonce = r.nonce.items } };

    ghost invariant = { λ r. IsNonce r.nonce.items };
}

impl Received {
    ghost use Rattle.scram.specs.declared.flag.Gs2Flag.{Gs2Flag as Flag};
    ghost use Rattle.scram.specs.Server.{IsFirst, TellsAsking, TellsGreeted};

    /// Reads a client-first-message.
    pub fn read(alloc: Global, text: &[u8]) -> Result<Received, ServerError>
        ensures answer { TellsGreeted text.now result }
        // No such message is refused.
        ensures accepts { (flag : Flag) (user nonce : List ℕ) → IsFirst text.now flag user nonce
            → IsOkUnless result ServerError.Memory }
    {
        Received::judge(alloc, text)
    }

    // What a text is as a client-first-message.
    fn judge(alloc: Global, text: &[u8]) -> Result<Received, ServerError>
        ensures { TellsGreeted text.now result }
    {
        let (flag, bare) = header_of(text)?;
        if after_prefix(bare, b"m").is_some() {
            return Err(ServerError::Extension);
        }
        let Some(nonce) = nonce_of(bare) else {
            return Err(ServerError::Malformed);
        };
        Ok(Received {
            alloc,
            flag,
            bare: Vec::from_slice(alloc, bare)?,
            nonce: Vec::from_slice(alloc, nonce)?,
        })
    }

    /// Asks for a proof, by what is kept of the user's password. `added` is what the server adds to
    /// the nonce, and is to be fresh: printable, without a comma, and not empty.
    pub fn challenge(self, verifier: &Verifier, added: &[u8]) -> Result<Challenged, ServerError>
        ensures { TellsAsking self verifier.now added.now result }
    {
        if !is_nonce(added) {
            return Err(ServerError::BadNonce);
        }
        let Received {
            alloc,
            flag,
            bare,
            mut nonce,
        } = self;
        let entry = verifier.entry();
        nonce.extend_from_slice(added)?;
        let server_first = messages::server_first(alloc, &nonce, entry.salt(), entry.iterations())?;
        Ok(Challenged {
            alloc,
            flag,
            bare,
            server_first,
            nonce,
            stored_key: *entry.stored_key(),
            server_key: *entry.server_key(),
            is_mock: verifier.is_mock(),
        })
    }
}

/// A server that has asked for a proof. It holds the whole nonce, and takes one answer.
#[derive(Drop)]
pub struct Challenged {
    alloc: Global,
    flag: Gs2Flag,
    bare: Vec<u8>,
    server_first: Vec<u8>,
    nonce: Vec<u8>,
    stored_key: [u8; 32],
    server_key: [u8; 32],
    is_mock: bool,
}

impl Model for Challenged {
    ghost use Rattle.scram.specs.Exchange.{Asking};
    ghost use Rattle.scram.specs.Messages.{IsPrintable};

    ghost Value = { Asking };

    ghost view = { λ c. record {
      flag = c.flag;
      bare = c.bare.items;
      server_first = c.server_first.items;
      nonce = c.nonce.items;
      stored_key = c.stored_key;
      server_key = c.server_key;
      is_mock = c.is_mock;
    } };

    ghost invariant = { λ c. IsPrintable c.nonce.items };
}

impl Challenged {
    ghost use Rattle.scram.specs.Messages.{client_final};
    ghost use Rattle.scram.specs.Server.{IsDigest, Satisfies, TellsChecked, TellsProved};

    /// The server-first-message, to be sent.
    pub fn message(&self) -> &[u8]
        ensures { result.now ≡ self.now.server_first }
    {
        &self.server_first
    }

    /// Reads the client-final-message, and checks its proof. A user who isn't known costs the same.
    pub fn check(self, text: &[u8]) -> Result<Proved, ServerError>
        // There is no other way to a `Proved`.
        ensures answer { TellsProved self text.now result }
        // No right proof is refused.
        ensures accepts { (proof : List ℕ) → IsDigest proof
            → text.now ≡ client_final self.flag self.nonce proof → Satisfies self proof
            → IsOkUnless result ServerError.Memory }
    {
        self.judge(text)
    }

    // What a text is as a client-final-message.
    fn judge(&self, text: &[u8]) -> Result<Proved, ServerError>
        ensures { TellsProved self.now text.now result }
    {
        let Some(last) = ClientLast::read(text) else {
            return Err(ServerError::Malformed);
        };
        let Some(proof) = digest_in(self.alloc, last.proof)? else {
            return Err(ServerError::Malformed);
        };
        if !is_header(self.alloc, last.binding, self.flag)? {
            return Err(ServerError::OtherBinding);
        }
        if last.nonce != self.nonce.as_slice() {
            return Err(ServerError::OtherNonce);
        }
        self.checked(&proof)
    }

    // Whether a proof is right.
    fn checked(&self, proof: &[u8; 32]) -> Result<Proved, ServerError>
        ensures { TellsChecked self.now proof.now result }
    {
        let last = messages::without_proof(self.alloc, self.flag, &self.nonce)?;
        let said = messages::auth_message(self.alloc, &self.bare, &self.server_first, &last)?;
        let proves = is_proof(&self.stored_key, &said, proof);
        let signature = hmac(&self.server_key, &said);
        if !proves || self.is_mock {
            return Err(ServerError::BadProof);
        }
        let message = messages::server_final(self.alloc, &signature)?;
        Ok(Proved { message })
    }
}

impl fmt::Debug for Challenged {
    ghost use Rattle.std.specs.Prelude.{Some, codes};

    ghost debug_output = { λ _. Some (codes "Challenged(..)") };

    fn fmt<W: fmt::Write>(&self, f: &mut fmt::Formatter<W>) -> fmt::Result {
        f.write_str("Challenged(..)")
    }
}

/// A server whose client has proved that it knows the user's password.
#[derive(Debug, Drop)]
pub struct Proved {
    message: Vec<u8>,
}

impl Model for Proved {
    ghost Value = { List ℕ };

    ghost view = { λ p. p.message.items };
}

impl Proved {
    /// The server-final-message, to be sent.
    pub fn message(&self) -> &[u8]
        ensures { result.now ≡ self.now }
    {
        &self.message
    }
}
