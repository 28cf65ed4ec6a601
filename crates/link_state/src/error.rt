//! Why a login fails.
ghost use Rattle.std.specs.Prelude.{◌≡◌};
ghost use Rattle.link_state.specs.LinkError.{number_of};

use thiserror::Error;

/// Why a login at a server fails.
#[derive(Clone, Copy, Debug, PartialEq, Eq, Hash, Error)]
pub enum LinkError {
    /// A ReadyForQuery came before any BackendKeyData.
    #[error("the server was ready before it gave a cancel key")]
    NoKey = 50,
    /// An authentication request other than AuthenticationOk came.
    #[error("the server asked for authentication")]
    AuthAsked = 51,
    /// An ErrorResponse came.
    #[error("the server answered the login with an error")]
    ServerError = 52,
    /// A message came that is no part of a login here, or that has another length or another
    /// status.
    #[error("the server sent a message that is no part of a login in this profile")]
    OutOfProfile = 53,
}

impl LinkError {
    /// The number of the refusal, 50 to 53.
    pub const fn number(self) -> u8
        ensures { result ≡ number_of self }
    {
        self as u8
    }
}
