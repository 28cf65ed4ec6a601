//! A stream of frames that comes in any pieces, and is passed on in pieces.
ghost use Rattle.std.specs.Prelude.{◌≡◌, ◌↔◌, ◌+◌, ◌<◌, ◌≤◌, ◌++◌, ◌∷◌, [], ℕ, None, Some, IsTrue, length, take, drop, slice_index, IfOk, IfSome, IsOkUnless, MatchOption};
ghost use Rattle.std.specs.Borrow.{sem};
ghost use Rattle.std.specs.Io.BufRead.{Rests};
ghost use Rattle.pg_frames.specs.contracts.flow.Flow.{the_row};
ghost use Rattle.pg_frames.specs.declared.error.FrameError.{FrameError};
ghost use Rattle.pg_frames.specs.FrameText.{is_type, BeginsNoFrame, HasFault};
ghost use Rattle.pg_frames.specs.Passage.{start, fed, forgotten, after, answer_of, BeginsNoHead, BeginsWith, HasNoNext, Hands};
ghost use Rattle.pg_frames.specs.Reading.{ReadsOnce};

use crate::buffer::{Buffer, CAPACITY};
use crate::header::{FIELD_LEN, HEADER_LEN, Header, header_at, header_of};
use crate::scan::fault_in;
use crate::{FrameError, MAX_MESSAGE, MessageLimit, Piece};
use peer_forward::ReadCalls;
use std::alloc::Global;
use std::marker::Model;

/// What was fed of a stream and isn't handed out yet, and what was handed out and isn't forgotten
/// yet. In contracts it is a `Passage`: the limit of a message, these bytes, and how many more
/// belong to the body whose head was handed out.
#[derive(Drop)]
pub struct Flow {
    // A link is moved at each step of its node, so what its flow has is apart.
    inside: Box<Inside>,
}

// What a flow has.
#[derive(Drop)]
struct Inside {
    limit: MessageLimit,
    buffer: Buffer,
    left: Option<usize>,
}

impl Model for Flow {
    ghost use Rattle.pg_frames.specs.Passage.{Passage};

    ghost Value = { Passage };

    ghost use Rattle.pg_frames.specs.Buffer.{kept, unread};

    ghost view = { λ flow. record {
      limit = flow.inside.value.limit;
      passed = kept flow.inside.value.buffer;
      left = flow.inside.value.left;
      bytes = unread flow.inside.value.buffer;
    } };
}

impl Flow {
    /// A flow of a stream that is at its start. It has room for 16,384 bytes, and takes no more
    /// memory from then on. Its limit is `MAX_MESSAGE`.
    pub fn new(alloc: Global) -> Result<Flow, FrameError>
        ensures ok { IfOk result (λ flow. flow ≡ start MAX_MESSAGE) }
        ensures only_memory { IsOkUnless result FrameError.Memory }
    {
        Flow::with_limit(alloc, MessageLimit::DEFAULT)
    }

    /// The same with another limit. It needs no more memory for longer messages.
    pub fn with_limit(alloc: Global, limit: MessageLimit) -> Result<Flow, FrameError>
        ensures ok { IfOk result (λ flow. flow ≡ start limit) }
        ensures only_memory { IsOkUnless result FrameError.Memory }
    {
        let Ok(buffer) = Buffer::new(alloc) else {
            return Err(FrameError::Memory);
        };
        let inside = Inside {
            limit,
            buffer,
            left: None,
        };
        match Box::new(alloc, inside) {
            Ok(inside) => Ok(Flow { inside }),
            Err(_) => Err(FrameError::Memory),
        }
    }

    /// How many bytes may be fed now.
    pub fn room(&self) -> usize
        ensures room { result + (length self.now.passed + length self.now.bytes) ≡ 16384 }
        // Where all was handed out and there is no fault, at most four bytes are kept beside those
        // that aren't forgotten.
        ensures drained { HasNoNext self.now.limit self.now.left self.now.bytes
            → HasFault self.now.limit (after self.now) None → 16380 ≤ result + length self.now.passed }
    {
        let buffer = &self.inside.buffer;
        room_beside(buffer.kept(), buffer.as_slice())
    }

    /// Takes the next piece of the stream, for which there has to be room. Frames before a fault
    /// are handed out all the same. Once a fault was returned, it is returned from then on, and
    /// nothing more is taken.
    pub fn feed(&mut self, piece: &[u8]) -> Result<(), FrameError>
        requires { length self.old.passed + (length self.old.bytes + length piece.now) ≤ 16384 }
        // The fault is the one at the front of the rest of what was fed.
        ensures judged { (fault : _) × HasFault self.old.limit (after (fed self.old piece.now)) fault
            × (result ≡ answer_of fault) }
        // A first fault is taken with its piece, and stays.
        ensures taken { HasFault self.old.limit (after self.old) None → self.new ≡ fed self.old piece.now }
        ensures ever { (fault : FrameError) → HasFault self.old.limit (after self.old) (Some fault)
            → self.new ≡ self.old }
    {
        if let Some(fault) = self.fault() {
            return Err(fault);
        }
        self.inside.buffer.append(piece);
        match self.fault() {
            Some(fault) => Err(fault),
            None => Ok(()),
        }
    }

    /// Takes the next piece of a stream without a fault so far, for which there has to be room. It
    /// isn't judged yet.
    pub fn append(&mut self, piece: &[u8])
        requires room { length self.old.passed + (length self.old.bytes + length piece.now) ≤ 16384 }
        requires sound { HasFault self.old.limit (after self.old) None }
        ensures { self.new ≡ fed self.old piece.now }
    {
        self.inside.buffer.append(piece);
    }

    /// Reads a stream without a fault so far once, as much as there is room for, and takes what came
    /// as its next piece. It isn't judged yet. It returns how many bytes came: none at the end of the
    /// input, and where the read failed.
    pub fn read_from<T: ReadCalls>(&mut self, stream: &mut T) -> usize
        requires room { length self.old.passed + length self.old.bytes < 16384 }
        requires sound { HasFault self.old.limit (after self.old) None }
        ensures { ReadsOnce T.gave stream.old stream.new result
            (λ piece. self.new ≡ fed self.old piece) }
    {
        self.inside.buffer.read_from(stream)
    }

    /// The fault at the front of the rest of what was fed.
    pub fn fault(&self) -> Option<FrameError>
        ensures { HasFault self.now.limit (after self.now) result }
    {
        let inside = &*self.inside;
        let bytes = inside.buffer.as_slice();
        let body = inside.left.unwrap_or(0).min(bytes.len());
        fault_in(inside.limit, bytes.split_at(body).1)
    }

    /// Hands out the next piece, if one is there. A body is handed out as far as it was fed.
    pub fn next(&mut self) -> Option<Piece<'_>>
        ensures* after_borrow { sem 𝓛 (Rests the_row self.entry (Hands self.old result)) }
    {
        let Some(left) = self.inside.left else {
            let header = head_in(self.inside.limit, self.inside.buffer.as_slice())?;
            self.inside.buffer.advance(HEADER_LEN);
            self.inside.left = Some(header.length - FIELD_LEN);
            return Some(Piece::Head {
                kind: header.kind,
                length: header.length,
            });
        };
        if left == 0 {
            self.inside.left = None;
            return Some(Piece::Tail);
        }
        let count = left.min(self.inside.buffer.as_slice().len());
        if count == 0 {
            return None;
        }
        self.inside.buffer.advance(count);
        self.inside.left = Some(left - count);
        Some(Piece::Part(self.inside.buffer.taken(count)))
    }

    /// Hands out this many bytes at once, which are whole frames.
    pub fn pass_frames(&mut self, len: usize)
        requires between { self.old.left ≡ None }
        requires within { len ≤ length self.old.bytes }
        ensures passed { self.new.passed ≡ self.old.passed ++ take len self.old.bytes }
        ensures left { self.new.left ≡ None }
        ensures bytes { self.new.bytes ≡ drop len self.old.bytes }
        ensures limit { self.new.limit ≡ self.old.limit }
    {
        self.inside.buffer.advance(len);
    }

    /// Whether it is between two frames.
    pub fn is_between(&self) -> bool
        ensures { IsTrue result ↔ (self.now.left ≡ None) }
    {
        self.inside.left.is_none()
    }

    /// The limit of a message.
    pub fn limit(&self) -> MessageLimit
        ensures { result ≡ self.now.limit }
    {
        self.inside.limit
    }

    /// The bytes that were fed and aren't handed out.
    pub fn pending(&self) -> &[u8]
        ensures { result.now ≡ self.now.bytes }
    {
        self.inside.buffer.as_slice()
    }

    /// The text of the pieces that were handed out, as far as it isn't forgotten.
    pub fn passed(&self) -> &[u8]
        ensures { result.now ≡ self.now.passed }
    {
        self.inside.buffer.kept()
    }

    /// Whether it is as a new one: between two frames, with nothing fed that isn't handed out and
    /// nothing handed out that isn't forgotten.
    pub fn is_at_start(&self) -> bool
        ensures { IsTrue result ↔ (self.now ≡ start self.now.limit) }
    {
        self.inside.left.is_none() && self.pending().is_empty() && self.passed().is_empty()
    }

    /// Forgets the first bytes of that text, which makes room.
    pub fn forget(&mut self, count: usize)
        requires { count ≤ length self.old.passed }
        ensures { self.new ≡ forgotten self.old count }
    {
        self.inside.buffer.forget(count);
    }
}

// The room beside the two parts of a buffer.
fn room_beside(kept: &[u8], unread: &[u8]) -> usize
    requires { length kept.now + length unread.now ≤ 16384 }
    ensures room { result + (length kept.now + length unread.now) ≡ 16384 }
    ensures bytes { (i : ℕ) → slice_index unread.now i < 256 }
{
    CAPACITY - (kept.len() + unread.len())
}

/// The head at the front of the bytes, if its whole frame is there.
#[inline]
pub fn whole_head(limit: MessageLimit, bytes: &[u8]) -> Option<Header>
    ensures none { result ≡ None → BeginsNoFrame limit bytes.now }
    ensures some { IfSome result
        (λ head. BeginsWith limit bytes.now head × (1 + head.length ≤ length bytes.now)) }
{
    match head_in(limit, bytes) {
        Some(head) if head.length < bytes.len() => Some(head),
        _ => None,
    }
}

/// The head of the frame of this type, if the bytes behind the type hold all of it.
#[inline]
pub fn whole_head_of(limit: MessageLimit, kind: u8, after: &[u8]) -> Option<Header>
    requires { IsTrue (is_type kind) }
    ensures none { result ≡ None → BeginsNoFrame limit (kind ∷ after.now) }
    ensures some { IfSome result (λ head. BeginsWith limit (kind ∷ after.now) head
        × (head.length ≤ length after.now)) }
{
    match head_of(limit, kind, after) {
        Some(head) if head.length <= after.len() => Some(head),
        _ => None,
    }
}

// The head at the front of the bytes.
fn head_in(limit: MessageLimit, bytes: &[u8]) -> Option<Header>
    ensures { MatchOption result (BeginsNoHead limit bytes.now) (BeginsWith limit bytes.now) }
{
    match header_at(limit, bytes) {
        Ok(found) => found,
        Err(_) => None,
    }
}

// The head of this type, if the bytes behind the type begin with its length field.
fn head_of(limit: MessageLimit, kind: u8, after: &[u8]) -> Option<Header>
    requires { IsTrue (is_type kind) }
    ensures { MatchOption result (BeginsNoHead limit (kind ∷ after.now))
        (BeginsWith limit (kind ∷ after.now)) }
{
    match header_of(limit, kind, after) {
        Ok(found) => found,
        Err(_) => None,
    }
}
