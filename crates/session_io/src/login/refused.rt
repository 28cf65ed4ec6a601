//! What a server says that refuses a login.
ghost use Rattle.std.specs.Prelude.{◌≡◌, ◌+◌, ◌-◌, ◌<◌, ◌≤◌, [], ◌++◌, List, ℕ, length, take, min, IfOk, OnOk, vec_len, true, false};
ghost use Rattle.session_io.specs.StreamCalls.{SomeCalls, Read, ReadToEnd};
ghost use Rattle.session_io.specs.LoginRefused.{ReadsAfter};

use crate::stream::read_some;
use peer_forward::{ReadCalls, WriteCalls};
use startup::error_field;
use std::alloc::{AllocError, Global};

// How long the length field of a message is, which counts itself.
const FIELD: usize = 4;

// How many bytes of an error's body are kept at most.
const MOST_TOLD: usize = 1_024;

// How many bytes are read at once.
const MAX_READ: usize = 256;

/// Why a server refuses a login.
#[derive(Debug, Drop)]
pub enum LoginRefusal {
    /// It sent an ErrorResponse. These are the first 1,024 bytes of its body, as far as they came.
    Error(Vec<u8>),
    /// It sent an authentication request with this code, which isn't 0.
    Asks(u32),
}

impl LoginRefusal {
    ghost use Rattle.std.specs.Prelude.{IfNone, IfSome};
    ghost use Rattle.session_io.specs.LoginRefused.{HasText};

    /// The error's code, if it came whole.
    pub fn code(&self) -> Option<&[u8]>
        ensures found { IfSome result (λ text. HasText self.now 67 text.now) }
        ensures none { IfNone result ((text : List ℕ) → HasText self.now 67 text → ⊥) }
    {
        self.field(b'C')
    }

    /// The error's text for a person, if it came whole.
    pub fn message(&self) -> Option<&[u8]>
        ensures found { IfSome result (λ text. HasText self.now 77 text.now) }
        ensures none { IfNone result ((text : List ℕ) → HasText self.now 77 text → ⊥) }
    {
        self.field(b'M')
    }

    // The error's first field of this type.
    fn field(&self, kind: u8) -> Option<&[u8]>
        ensures found { IfSome result (λ text. HasText self.now kind text.now) }
        ensures none { IfNone result ((text : List ℕ) → HasText self.now kind text → ⊥) }
    {
        match self {
            LoginRefusal::Error(body) => error_field(body.as_slice(), kind),
            LoginRefusal::Asks(_) => None,
        }
    }
}

/// What hears of a login over a stream while it goes on.
pub trait LoginListener<L> {
    /// The server refuses the login by an error, which has begun to come on this stream. What follows
    /// is read of it once the call is over, as far as it comes, and then the login has failed.
    fn error_begins(&self, _stream: &L) {}
}

/// One that hears nothing.
#[derive(Clone, Copy, Debug)]
pub struct NoListener;

impl<L> LoginListener<L> for NoListener {}

/// The first 1,024 bytes of the body of an error with this length field, as far as they come: these
/// bytes followed its head, and then it reads more.
pub fn error_text<L: WriteCalls + ReadCalls>(
    alloc: Global,
    stream: &mut L,
    begun: &[u8],
    size: usize,
) -> Result<Vec<u8>, AllocError>
    requires { 4 ≤ size }
    ensures { IfOk result (λ text. SomeCalls L.wrote L.gave stream.old stream.new
        (ReadsAfter begun.now (min (size - 4) 1024) text.items)) }
{
    let wanted = (size - FIELD).min(MOST_TOLD);
    let mut text = Vec::new(alloc);
    text.extend_from_slice(front_of(begun, wanted))?;
    'text: while text.len() < wanted {
        if !read_text(stream, &mut text, wanted)? {
            return Ok(text);
        }
    }
    Ok(text)
}

// Reads once more of a text of this length, and returns whether more came.
fn read_text<L: WriteCalls + ReadCalls>(
    stream: &mut L,
    text: &mut Vec<u8>,
    wanted: usize,
) -> Result<bool, AllocError>
    requires { vec_len text.old < wanted }
    ensures more { IfOk result (λ more. more ≡ true → SomeCalls L.wrote L.gave stream.old stream.new
        (λ calls. (bytes : List ℕ) × Read bytes calls
        × (0 < length bytes) × (length text.old.items + length bytes ≤ wanted)
        × (text.new.items ≡ text.old.items ++ bytes))) }
    ensures none { IfOk result (λ more. more ≡ false → SomeCalls L.wrote L.gave stream.old stream.new
        (ReadToEnd [])) }
    ensures same { IfOk result (λ more. more ≡ false → text.new.items ≡ text.old.items) }
{
    let mut buffer = [0; MAX_READ];
    let room = (wanted - text.len()).min(MAX_READ);
    let count = read_some(stream, &mut buffer[..room]);
    if count == 0 {
        return Ok(false);
    }
    text.extend_from_slice(&buffer[..count])?;
    Ok(true)
}

// The first of these bytes, `most` of them at most.
fn front_of(bytes: &[u8], most: usize) -> &[u8]
    ensures { result.now ≡ take most bytes.now }
{
    if bytes.len() <= most {
        bytes
    } else {
        bytes.split_at(most).0
    }
}
