//! Why a client gives up.
ghost use Rattle.std.specs.Prelude.{◌≡◌};

use std::alloc::AllocError;
use thiserror::Error;

/// What is wrong with a server's message, or with what the client was given; or out of memory.
#[derive(Clone, Copy, Debug, PartialEq, Eq, Error)]
pub enum ClientError {
    /// The client's nonce is empty, or has a byte that isn't printable, or a comma.
    #[error("the client's nonce is empty or not printable")]
    BadNonce,
    /// The text isn't the message that is due.
    #[error("the server's SCRAM message is malformed")]
    Malformed,
    /// The server asks for an extension (`m=`), and none is known here.
    #[error("the server asks for an unknown SCRAM extension")]
    Extension,
    /// The server's nonce doesn't begin with the client's, or adds nothing printable to it.
    #[error("the server's nonce doesn't extend the client's")]
    OtherNonce,
    /// The salt is no base64.
    #[error("the server's salt is not base64")]
    BadSalt,
    /// The count of iterations isn't a number from 1 to a million.
    #[error("the server's count of iterations is out of range")]
    BadIterations,
    /// The salted password was made with another salt or count of iterations.
    #[error("the salted password is of another salt")]
    OtherSalt,
    /// The server says that the login has failed (`e=`).
    #[error("the server refused the proof")]
    Refused,
    /// The server's signature isn't the defined value: it doesn't know the password.
    #[error("the server's signature is wrong")]
    BadSignature,
    /// Memory was refused.
    #[error("out of memory")]
    Memory,
}

impl From<AllocError> for ClientError {
    ghost use Rattle.scram.specs.declared.client_error.ClientError.TheVariants.{Memory};

    ghost from_gives = { λ _ error. error ≡ Memory };

    fn from(_error: AllocError) -> ClientError {
        ClientError::Memory
    }
}
