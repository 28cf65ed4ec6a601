//! Which query a message brings.
ghost use Rattle.std.specs.Prelude.{◌≡◌, ℕ, List, IfSome, IfNone};
ghost use Rattle.stub_server.specs.Query.{Asks, IsQuery};
ghost use Rattle.stub_server.specs.Asked.{asked};

use pg_frames::Frame;

/// What a query asks for.
#[derive(Clone, Copy)]
pub(crate) enum Query<'a> {
    /// To run until it is interrupted.
    Hold,
    /// A row with this value.
    Echo(&'a [u8]),
    /// To open a transaction.
    Begin,
    /// To end it.
    Commit,
    /// Nothing that the server knows.
    Other,
}

impl<'a> Query<'a> {
    /// What a text asks for.
    pub(crate) fn of(text: &'a [u8]) -> Query<'a>
        ensures { Asks (asked result) text.now }
    {
        if text == b"hold".as_slice() {
            Query::Hold
        } else if text == b"begin".as_slice() {
            Query::Begin
        } else if text == b"commit".as_slice() {
            Query::Commit
        } else if let Some(value) = text.strip_prefix(b"echo ") {
            Query::Echo(value)
        } else {
            Query::Other
        }
    }
}

/// The text of a Query, none if the message isn't one.
pub(crate) fn query_text(message: &Frame) -> Option<&[u8]>
    ensures found { IfSome result (λ text. IsQuery message.now text.now) }
    ensures none { IfNone result ((text : List ℕ) → IsQuery message.now text → ⊥) }
{
    if message.kind != b'Q' {
        return None;
    }
    let (last, text) = message.body.as_slice().split_last()?;
    if *last == 0 && !text.contains(&0) {
        Some(text)
    } else {
        None
    }
}
