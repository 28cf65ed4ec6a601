//! Why a server refuses a client.
ghost use Rattle.std.specs.Prelude.{◌≡◌};

use std::alloc::AllocError;
use thiserror::Error;

/// What is wrong with a client's message, or with what the server was given; or out of memory.
#[derive(Clone, Copy, Debug, PartialEq, Eq, Error)]
pub enum ServerError {
    /// What the server adds to the nonce is empty, or has a byte that isn't printable, or a comma.
    #[error("the server's nonce is empty or not printable")]
    BadNonce,
    /// The text isn't the message that is due.
    #[error("the client's SCRAM message is malformed")]
    Malformed,
    /// The client binds a channel (`p=`), which is part of SCRAM-SHA-256-PLUS alone.
    #[error("the client binds a channel")]
    ChannelBinding,
    /// The client asks for another identity (`a=`), which PostgreSQL doesn't know.
    #[error("the client asks for an authorization identity")]
    Authorization,
    /// The client asks for an extension (`m=`), and none is known here.
    #[error("the client asks for an unknown SCRAM extension")]
    Extension,
    /// The channel binding of the last message isn't the gs2-header of the first.
    #[error("the channel binding is not that of the first message")]
    OtherBinding,
    /// The nonce of the last message isn't the whole nonce.
    #[error("the nonce is not that of this exchange")]
    OtherNonce,
    /// The proof is wrong, or the user unknown.
    #[error("the proof is wrong")]
    BadProof,
    /// Memory was refused.
    #[error("out of memory")]
    Memory,
}

impl From<AllocError> for ServerError {
    ghost use Rattle.scram.specs.declared.server_error.ServerError.TheVariants.{Memory};

    ghost from_gives = { λ _ error. error ≡ Memory };

    fn from(_error: AllocError) -> ServerError {
        ServerError::Memory
    }
}
