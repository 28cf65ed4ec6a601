//! What a client's message asks for.
ghost use Rattle.std.specs.Prelude.{◌≡◌, ◌+◌, ◌≤◌, ◌&&◌, IsTrue, drop, length, nat_le, take};
ghost use Rattle.std.specs.List.{count_by, list_all};
ghost use Rattle.client_state.specs.Text.{is_one_string, is_zero};
ghost use Rattle.client_state.specs.ClientMessage.{by_kind, by_names, by_target, client_message};
ghost use Rattle.client_state.specs.Request.{IsRequest};

use pg_frames::{Frame, Header, MessageLimit, whole_head};
use startup::ErrorCode;

// How many bytes the length field takes. It counts them.
const FIELD_LEN: usize = 4;

/// The type and the length field, which a message has apart from its body.
pub const HEADER_LEN: usize = 5;

/// What a client's message asks for.
#[derive(Clone, Copy)]
pub enum ClientMessage {
    /// The request is whole with this message.
    Request,
    /// More of a request is to come, up to its Sync.
    Gathered,
    /// The session is to end.
    Terminate,
    /// Nothing that a session takes.
    Refused(ErrorCode),
}

const VIOLATION: ClientMessage = ClientMessage::Refused(ErrorCode::ProtocolViolation);

const LEFT_OUT: ClientMessage = ClientMessage::Refused(ErrorCode::FeatureNotSupported);

impl ClientMessage {
    ghost use Rattle.client_state.specs.ClientMessage.{client_message};

    /// What the frame asks for, after messages of an extended query with this many bytes.
    pub fn of(limit: MessageLimit, gathered: usize, frame: &Frame) -> ClientMessage
        requires { gathered ≤ limit }
        ensures { result ≡ client_message limit gathered frame.now }
    {
        ClientMessage::of_parts(limit, gathered, frame.kind, frame.body.as_slice())
    }

    // The same of a frame's type and body.
    #[tactic(auto, unfolding(crate::specs::ClientMessage::client_message))]
    fn of_parts(limit: MessageLimit, gathered: usize, kind: u8, body: &[u8]) -> ClientMessage
        requires { gathered ≤ limit }
        ensures { result ≡ client_message limit gathered (record { kind = kind; body = body.now }) }
    {
        let limit = limit.get() as usize;
        match kind {
            b'X' => ClientMessage::Terminate,
            b'Q' if gathered == 0 && body.len() <= limit - FIELD_LEN && is_one_string(body) => {
                ClientMessage::Request
            }
            b'S' if body.is_empty() => ClientMessage::Request,
            b'P' | b'B' | b'D' | b'E' | b'C' if body.len() + HEADER_LEN <= limit - gathered => {
                by_kind(kind, body)
            }
            b'H' | b'F' | b'd' | b'c' | b'f' => LEFT_OUT,
            _ => VIOLATION,
        }
    }
}

/// Whether these bytes are one whole request where nothing was gathered before: a Query, or
/// messages of an extended query and their Sync.
#[inline]
pub fn is_request(limit: MessageLimit, bytes: &[u8]) -> bool
    ensures { IsTrue result → IsRequest limit bytes.now }
{
    match bytes.first() {
        // Most are a Query, which takes fewer steps than the messages of a group.
        Some(b'Q') => is_query(limit, bytes),
        _ => is_group(limit, bytes),
    }
}

// Whether these bytes are one whole Query.
#[inline]
fn is_query(limit: MessageLimit, bytes: &[u8]) -> bool
    ensures { IsTrue result → IsRequest limit bytes.now }
{
    match whole_head(limit, bytes) {
        Some(head) if head.kind == b'Q' && head.length + 1 == bytes.len() => {
            is_one_string(bytes.split_at(HEADER_LEN).1)
        }
        _ => false,
    }
}

// Whether these bytes are messages that are gathered, and one with which the request is whole.
#[inline(never)]
fn is_group(limit: MessageLimit, bytes: &[u8]) -> bool
    ensures { IsTrue result → IsRequest limit bytes.now }
{
    let mut at = 0;
    'messages: loop {
        let rest = bytes.split_at(at).1;
        let Some(head) = whole_head(limit, rest) else {
            return false;
        };
        match message_at(limit, at, head, rest) {
            ClientMessage::Gathered => at += 1 + head.length,
            ClientMessage::Request => return 1 + head.length == rest.len(),
            _ => return false,
        }
    }
}

// What the message with this head asks for, with which the bytes begin, after messages of an
// extended query with this many bytes.
fn message_at(limit: MessageLimit, gathered: usize, head: Header, bytes: &[u8]) -> ClientMessage
    requires gathered { gathered ≤ limit }
    requires whole { 1 + head.length ≤ length bytes.now }
    requires low { 4 ≤ head.length }
    ensures { result ≡ client_message limit gathered
        (record { kind = head.kind; body = drop 5 (take (1 + head.length) bytes.now) }) }
{
    let (message, _) = bytes.split_at(1 + head.length);
    ClientMessage::of_parts(limit, gathered, head.kind, message.split_at(HEADER_LEN).1)
}

// What Parse, Bind, Describe, Execute or Close asks for.
fn by_kind(kind: u8, body: &[u8]) -> ClientMessage
    ensures { result ≡ by_kind kind body.now }
{
    match kind {
        b'B' => by_names(2, body),
        b'D' | b'C' => by_target(body),
        _ => by_names(1, body),
    }
}

// What a message asks for that begins with the kind of what it names: a prepared statement or a
// portal.
fn by_target(body: &[u8]) -> ClientMessage
    ensures { result ≡ by_target body.now }
{
    let Some((kind, name)) = body.split_first() else {
        return VIOLATION;
    };
    if *kind == b'S' || *kind == b'P' {
        by_names(1, name)
    } else {
        VIOLATION
    }
}

// What a message asks for that begins with this many names. The names that are taken are empty.
fn by_names(count: usize, body: &[u8]) -> ClientMessage
    ensures { result ≡ by_names count body.now }
{
    if begins_empty(count, body) {
        ClientMessage::Gathered
    } else if zeros(body) >= count {
        LEFT_OUT
    } else {
        VIOLATION
    }
}

// Whether the first bytes, this many, are all there and zero.
fn begins_empty(count: usize, body: &[u8]) -> bool
    ensures { result ≡ (nat_le count (length body.now) && list_all is_zero (take count body.now)) }
{
    match body.get(..count) {
        Some(front) => all_zero(front),
        None => false,
    }
}

fn all_zero(bytes: &[u8]) -> bool
    ensures { result ≡ list_all is_zero bytes.now }
{
    bytes.iter().all(|byte| *byte == 0)
}

/// How many zero bytes there are.
pub fn zeros(body: &[u8]) -> usize
    ensures { result ≡ count_by is_zero body.now }
{
    body.iter().filter(|byte| **byte == 0).count()
}

// Whether the first zero byte is the last byte.
fn is_one_string(body: &[u8]) -> bool
    ensures { result ≡ is_one_string body.now }
{
    match body.split_last() {
        Some((last, text)) => *last == 0 && !text.contains(&0),
        None => false,
    }
}
