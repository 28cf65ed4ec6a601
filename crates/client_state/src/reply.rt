//! What a session writes to its client of its own.
ghost use Rattle.std.specs.Prelude.{◌≡◌, ◌⊎◌, ℕ, [], IfOk, MatchOption};
ghost use Rattle.startup.specs.declared.error_code.Severity.{Severity as SeverityOf};
ghost use Rattle.client_state.specs.Acts.{error_text, ready_text};

use startup::{ErrorCode, Severity, write_error};
use std::alloc::{AllocError, Global};
use std::marker::Model;

/// What a session writes to its client: nothing, a ReadyForQuery or an ErrorResponse. In contracts
/// it is its text.
#[derive(Debug, Drop)]
pub struct Reply {
    text: Text,
}

#[derive(Debug, Drop)]
enum Text {
    Nothing,
    Ready([u8; 6]),
    // With its code.
    Error(ErrorCode, Vec<u8>),
}

impl Model for Reply {
    ghost use Rattle.std.specs.Prelude.{ℕ, List};
    ghost use Rattle.client_state.specs.Texts.{IsText, bytes_of};

    ghost Value = { List ℕ };

    ghost view = { λ r. bytes_of r.text };

    ghost invariant = { λ r. IsText r.text };
}

impl Reply {
    /// Nothing.
    pub fn nothing() -> Reply
        ensures { result ≡ [] }
    {
        Reply {
            text: Text::Nothing,
        }
    }

    /// The ReadyForQuery with this status.
    pub fn ready(status: u8) -> Reply
        ensures { result ≡ ready_text status }
    {
        Reply {
            text: Text::Ready([b'Z', 0, 0, 0, 5, status]),
        }
    }

    /// The ErrorResponse of this severity and code, with the code's message.
    pub fn error(alloc: Global, severity: Severity, code: ErrorCode) -> Result<Reply, AllocError>
        ensures { IfOk result (λ reply. reply ≡ error_text severity code) }
    {
        let mut text = Vec::new(alloc);
        match write_error(severity, code.code(), code.message(), &mut text) {
            Ok(()) => Ok(Reply {
                text: Text::Error(code, text),
            }),
            Err(_) => Err(AllocError),
        }
    }

    /// Its text, to be written to the client.
    pub fn as_slice(&self) -> &[u8]
        ensures { result.now ≡ self.now }
    {
        match &self.text {
            Text::Nothing => &[],
            Text::Ready(text) => text,
            Text::Error(_, text) => text.as_slice(),
        }
    }

    /// The code of an error, none where it is no error.
    pub fn error_code(&self) -> Option<ErrorCode>
        ensures { MatchOption result
            ((self.now ≡ []) ⊎ ((status : ℕ) × (self.now ≡ ready_text status)))
            (λ code. (severity : SeverityOf) × (self.now ≡ error_text severity code)) }
    {
        match &self.text {
            Text::Nothing | Text::Ready(_) => None,
            Text::Error(code, _) => Some(*code),
        }
    }
}
