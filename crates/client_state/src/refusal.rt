//! Why a session ends with an error of its own.
ghost use Rattle.std.specs.Prelude.{◌≡◌};
ghost use Rattle.client_state.specs.Refusal.{bind_names, names, target_names, with_names};

use crate::client_message::{HEADER_LEN, zeros};
use pg_frames::MessageLimit;

/// Why a session ended with an error of its own: what its client or its link sent.
#[derive(Clone, Copy, Debug, PartialEq, Eq)]
pub enum Refusal {
    /// A message of the client that names a prepared statement.
    NamedStatement,
    /// A message of the client that names a portal.
    Portal,
    /// A Flush.
    Flush,
    /// A FunctionCall.
    FunctionCall,
    /// CopyData, CopyDone or CopyFail of the client, or a server's CopyInResponse, CopyOutResponse or
    /// CopyBothResponse.
    Copy,
    /// Messages of an extended query that have this many bytes together, above the limit.
    TooLong(usize),
    /// A message of the client whose body isn't what its type needs, or bytes that are no message.
    Malformed,
    /// A Query between messages of an extended query, or a ReadyForQuery that nobody waits for.
    OutOfPlace,
    /// A message of a type that no client's session sends.
    UnknownType,
    /// A NotificationResponse of the server.
    Notification,
    /// The link's stream ended, failed or isn't made of messages.
    LinkLost,
    /// Another message that a server doesn't send there, or a ReadyForQuery with another length or
    /// status.
    LinkMessage,
}

impl Refusal {
    ghost use Rattle.std.specs.Prelude.{◌≤◌, ℕ};
    ghost use Rattle.client_state.specs.Refusal.{IsAbove, client_refusal, link_refusal, name_text};

    /// Its name in a log.
    pub fn name(self) -> &'static str
        ensures { result.now ≡ name_text self }
    {
        match self {
            Refusal::NamedStatement => "named_statement",
            Refusal::Portal => "portal",
            Refusal::Flush => "flush",
            Refusal::FunctionCall => "function_call",
            Refusal::Copy => "copy",
            Refusal::TooLong(_) => "too_long",
            Refusal::Malformed => "malformed",
            Refusal::OutOfPlace => "out_of_place",
            Refusal::UnknownType => "unknown_type",
            Refusal::Notification => "notification",
            Refusal::LinkLost => "link_lost",
            Refusal::LinkMessage => "link_message",
        }
    }

    /// Why a client's message of this type and body is refused, after messages of an extended query
    /// with `gathered` bytes.
    #[tactic(auto, unfolding(crate::specs::Refusal::client_refusal))]
    pub(crate) fn of_client(limit: MessageLimit, gathered: usize, kind: u8, body: &[u8]) -> Refusal
        requires { gathered ≤ limit }
        ensures is { result ≡ client_refusal limit gathered kind body.now }
        ensures above { IsAbove limit result }
    {
        let limit = limit.get() as usize;
        let bytes = gathered + (HEADER_LEN + body.len());
        match kind {
            b'Q' if gathered > 0 => Refusal::OutOfPlace,
            b'P' | b'B' | b'D' | b'E' | b'C' if bytes > limit => Refusal::TooLong(bytes),
            b'P' | b'B' | b'D' | b'E' | b'C' => names(kind, body),
            b'H' => Refusal::Flush,
            b'F' => Refusal::FunctionCall,
            b'd' | b'c' | b'f' => Refusal::Copy,
            b'Q' | b'S' | b'X' => Refusal::Malformed,
            _ => Refusal::UnknownType,
        }
    }

    /// Why a server's message of this type and this length field is refused.
    #[cold]
    #[tactic(auto, unfolding(crate::specs::Refusal::link_refusal))]
    pub(crate) fn of_link(kind: u8, length: usize) -> Refusal
        ensures is { result ≡ link_refusal kind length }
        ensures above { (limit : ℕ) → IsAbove limit result }
    {
        match kind {
            b'G' | b'H' | b'W' => Refusal::Copy,
            b'A' => Refusal::Notification,
            b'Z' if length == 5 => Refusal::OutOfPlace,
            _ => Refusal::LinkMessage,
        }
    }
}

// Why Parse, Bind, Describe, Execute or Close is refused.
fn names(kind: u8, body: &[u8]) -> Refusal
    ensures { result ≡ names kind body.now }
{
    match kind {
        b'B' => with_names(2, bind_names(body), body),
        b'D' | b'C' => target_names(body),
        b'E' => with_names(1, Refusal::Portal, body),
        _ => with_names(1, Refusal::NamedStatement, body),
    }
}

// What a Bind names first that has a name.
fn bind_names(body: &[u8]) -> Refusal
    ensures { result ≡ bind_names body.now }
{
    match body.first() {
        Some(0) => Refusal::NamedStatement,
        _ => Refusal::Portal,
    }
}

// Why a message is refused that begins with the kind of what it names.
fn target_names(body: &[u8]) -> Refusal
    ensures { result ≡ target_names body.now }
{
    let Some((kind, name)) = body.split_first() else {
        return Refusal::Malformed;
    };
    match *kind {
        b'S' => with_names(1, Refusal::NamedStatement, name),
        b'P' => with_names(1, Refusal::Portal, name),
        _ => Refusal::Malformed,
    }
}

// Why a message is refused that begins with this many names.
fn with_names(count: usize, refusal: Refusal, body: &[u8]) -> Refusal
    ensures { result ≡ with_names count refusal body.now }
{
    if zeros(body) < count {
        Refusal::Malformed
    } else {
        refusal
    }
}
