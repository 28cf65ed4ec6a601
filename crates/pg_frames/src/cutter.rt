//! A stream of frames that comes in any pieces.
ghost use Rattle.std.specs.Prelude.{◌≡◌, ◌≢◌, ◌+◌, ◌-◌, ◌<◌, ◌≤◌, ℕ, List, ◌++◌, [], length, take, drop, slice_index, vec_len, Ok, Err, Some, None, IfOk, IfSome, OnOk, OnErr, IsOkUnless};
ghost use Rattle.byteorder.specs.Endian.{big_number};
ghost use Rattle.pg_frames.specs.FrameText.{text, IsFrame, BeginsNoFrame, IsJudged, HasFault};
ghost use Rattle.pg_frames.specs.Pending.{nothing, with_piece};
ghost use Rattle.pg_frames.specs.Reading.{ReadsOnce};
ghost use Rattle.pg_frames.specs.Ready.{IsReady};

use crate::header::HEADER_LEN;
use crate::scan::{fault_after, whole_len};
use crate::store::Store;
use crate::{Body, Frame, FrameError, MAX_MESSAGE, MessageLimit};
use byteorder::{BigEndian, ByteOrder};
use peer_forward::ReadCalls;
use std::alloc::{AllocError, Global};
use std::marker::Model;

// How many bytes the memory has into which a stream is read: until a read filled it, and from then
// on. More isn't kept once all was handed out.
const ROOM: usize = 512;

const GROWN_ROOM: usize = 2_048;

// How many bytes it has at least for what one read didn't return whole.
const LARGE_ROOM: usize = 16_384;

// How many bytes of memory it keeps at most for the next frame's body.
const KEPT_BODY: usize = 1_024;

/// What was fed of a stream and isn't handed out yet. In contracts it is a `Pending`: the limit of
/// a message, and these bytes.
#[derive(Drop)]
pub struct Cutter {
    alloc: Global,
    limit: MessageLimit,
    store: Store,
    // How many of the bytes are whole frames, so that no byte is judged twice.
    ready: usize,
    // Whether a read has filled its memory.
    is_grown: bool,
    // Memory for the next frame's body.
    spare: Vec<u8>,
}

impl Model for Cutter {
    ghost use Rattle.pg_frames.specs.Pending.{Pending};
    ghost use Rattle.pg_frames.specs.Ready.{IsReady};

    ghost Value = { Pending };

    ghost view = { λ c. record { limit = c.limit; bytes = c.store.items } };

    ghost invariant = { λ c. IsReady c.limit c.store.items c.ready };
}

impl Cutter {
    /// A cutter of a stream that is at its start. Its limit is `MAX_MESSAGE`. It allocates nothing.
    pub fn new(alloc: Global) -> Cutter
        ensures { result ≡ nothing MAX_MESSAGE }
    {
        Cutter::with_limit(alloc, MessageLimit::DEFAULT)
    }

    /// The same with another limit.
    pub fn with_limit(alloc: Global, limit: MessageLimit) -> Cutter
        ensures { result ≡ nothing limit }
    {
        Cutter {
            alloc,
            limit,
            store: Store::new(alloc),
            ready: 0,
            is_grown: false,
            spare: Vec::new(alloc),
        }
    }

    /// Takes the next piece of the stream. Frames before a fault are handed out all the same. Once
    /// a fault was returned, it is returned from then on, and nothing more is taken.
    pub fn feed(&mut self, piece: &[u8]) -> Result<(), FrameError>
        // The fault is the one at the front of the rest of what was fed, unless memory runs out.
        ensures judged { IsJudged self.old.limit (self.old.bytes ++ piece.now) result }
        ensures ok { OnOk result (self.new ≡ with_piece self.old piece.now) }
        ensures memory { result ≡ Err FrameError.Memory → self.new ≡ self.old }
        // A first fault is taken with its piece, and stays.
        ensures first { HasFault self.old.limit self.old.bytes None → result ≢ Err FrameError.Memory
            → self.new ≡ with_piece self.old piece.now }
        ensures ever { (fault : FrameError) → HasFault self.old.limit self.old.bytes (Some fault)
            → (result ≡ Err fault) × (self.new ≡ self.old) }
        ensures limit { self.new.limit ≡ self.old.limit }
    {
        if let Some(fault) = self.fault() {
            return Err(fault);
        }
        if self.append(piece).is_err() {
            return Err(FrameError::Memory);
        }
        match self.fault() {
            Some(fault) => Err(fault),
            None => Ok(()),
        }
    }

    /// The fault at the front of the rest of what was fed.
    #[inline]
    pub fn fault(&self) -> Option<FrameError>
        ensures stands { HasFault self.now.limit self.now.bytes result }
        ensures bytes { (i : ℕ) → slice_index self.now.bytes i < 256 }
    {
        fault_after(self.limit, self.store.as_slice(), self.ready)
    }

    /// Takes the next piece of a stream without a fault so far. It isn't judged yet.
    pub fn append(&mut self, piece: &[u8]) -> Result<(), AllocError>
        requires sound { HasFault self.old.limit self.old.bytes None }
        ensures ok { OnOk result (self.new ≡ with_piece self.old piece.now) }
        ensures memory { OnErr result (self.new ≡ self.old) }
    {
        extend(&mut self.store, self.alloc, piece)?;
        self.ready = ready_after(self.limit, &self.store, self.ready);
        Ok(())
    }

    /// Reads a stream without a fault so far once, into memory behind what is there, and takes what
    /// came as its next piece. It isn't judged yet. It returns how many bytes came: none at the end of
    /// the input, and where the read failed. Nothing is read where memory is refused.
    pub fn read_from<T: ReadCalls>(&mut self, stream: &mut T) -> Result<usize, AllocError>
        requires sound { HasFault self.old.limit self.old.bytes None }
        ensures ok { IfOk result (λ count. ReadsOnce T.gave stream.old stream.new count
            (λ piece. self.new ≡ with_piece self.old piece)) }
        ensures memory { OnErr result (self.new ≡ self.old) }
        ensures unread { OnErr result (stream.new ≡ stream.old) }
    {
        let room = self.room();
        make_room(&mut self.store, self.alloc, room)?;
        let count = self.store.read_from(stream);
        let ready = ready_after(self.limit, &self.store, self.ready);
        self.ready = ready;
        self.is_grown = self.is_grown || self.store.len() == self.store.size();
        Ok(count)
    }

    /// Hands out the next frame, if it is whole. The only error is `Memory`. Once all was handed
    /// out, at most 2,048 bytes of memory are kept.
    pub fn next(&mut self) -> Result<Option<Frame>, FrameError>
        ensures frame { IfOk result (λ found. IfSome found
            (λ frame. IsFrame self.old.limit frame
            × (self.old.bytes ≡ text frame ++ self.new.bytes))) }
        ensures limit { self.new.limit ≡ self.old.limit }
        ensures none { result ≡ Ok None → BeginsNoFrame self.old.limit self.old.bytes
            × (self.new ≡ self.old) }
        ensures memory { OnErr result (self.new ≡ self.old) }
        ensures only_memory { IsOkUnless result FrameError.Memory }
    {
        if self.ready == 0 {
            return Ok(None);
        }
        let spare = std::mem::replace(&mut self.spare, Vec::new(self.alloc));
        let frame = first_frame(spare, self.store.as_slice())?;
        let len = HEADER_LEN + frame.body.len();
        self.store.advance(len);
        self.ready -= len;
        give_back(&mut self.store, self.alloc);
        Ok(Some(frame))
    }

    /// Keeps the memory of a frame that was handed out for the next one, unless it is large.
    pub fn recycle(&mut self, frame: Frame)
        ensures { self.new ≡ self.old }
    {
        let bytes = frame.body.into_vec();
        if bytes.capacity() <= KEPT_BODY {
            self.spare = bytes;
        }
    }

    /// The bytes that were fed and aren't handed out.
    pub fn pending(&self) -> &[u8]
        ensures { result.now ≡ self.now.bytes }
    {
        self.store.as_slice()
    }

    /// Hands out the memory in which the bytes stand that were fed and aren't handed out, with these
    /// bytes at its front.
    pub fn take_memory(&mut self) -> Vec<u8>
        ensures bytes { take (length self.old.bytes) result.items ≡ self.old.bytes }
        ensures within { length self.old.bytes ≤ vec_len result }
        ensures left { self.new ≡ nothing self.old.limit }
    {
        let store = std::mem::replace(&mut self.store, Store::new(self.alloc));
        self.ready = 0;
        store.into_memory()
    }

    /// Takes memory that was handed out back, to be read into, where it has none.
    pub fn keep_memory(&mut self, memory: Vec<u8>)
        ensures { self.new ≡ self.old }
    {
        if self.store.size() == 0 && memory.len() == self.room() {
            self.store = Store::of(memory);
        }
    }

    // How many bytes the memory is to have into which a stream is read.
    fn room(&self) -> usize
        ensures { 0 < result }
    {
        if self.is_grown { GROWN_ROOM } else { ROOM }
    }

    /// How many bytes it has memory for, those that aren't handed out among them.
    pub fn capacity(&self) -> usize
        ensures { length self.now.bytes ≤ result }
    {
        self.store.size()
    }
}

// How many bytes at the front are whole frames, where so many are.
fn ready_after(limit: MessageLimit, store: &Store, ready: usize) -> usize
    requires { ready ≤ length store.now.items }
    ensures { (old more : List ℕ) → store.now.items ≡ old ++ more → IsReady limit old ready
        → IsReady limit store.now.items result }
{
    let (_, rest) = store.as_slice().split_at(ready);
    ready + whole_len(limit, rest)
}

// Appends bytes, and makes memory for them.
fn extend(store: &mut Store, alloc: Global, piece: &[u8]) -> Result<(), AllocError>
    ensures ok { OnOk result (store.new.items ≡ store.old.items ++ piece.now) }
    ensures err { OnErr result (store.new ≡ store.old) }
{
    let size = store.size();
    if size - store.len() < piece.len() {
        store.grow(alloc, piece.len().checked_add(size).ok_or(AllocError)?)?;
    }
    store.append(piece);
    Ok(())
}

// Makes memory to be read into: of this size where nothing is there, and else for more than is there.
fn make_room(store: &mut Store, alloc: Global, room: usize) -> Result<(), AllocError>
    requires { 0 < room }
    ensures ok { OnOk result (length store.new.items < store.new.size) }
    ensures items { store.new.items ≡ store.old.items }
    ensures err { OnErr result (store.new ≡ store.old) }
{
    let len = store.len();
    let size = store.size();
    if len == 0 {
        if size < room {
            *store = Store::with_size(alloc, room)?;
        }
        return Ok(());
    }
    if size < LARGE_ROOM {
        return store.grow(alloc, LARGE_ROOM);
    }
    if size - len < GROWN_ROOM {
        let Some(more) = size.checked_add(size) else {
            return Err(AllocError);
        };
        return store.grow(alloc, more);
    }
    Ok(())
}

// What has memory for much gives it back once it is empty.
fn give_back(store: &mut Store, alloc: Global)
    ensures items { store.new.items ≡ store.old.items }
    ensures small { store.old.items ≡ [] → store.new.size ≤ 2048 }
{
    if store.len() == 0 && store.size() > GROWN_ROOM {
        *store = Store::new(alloc);
    }
}

// The frame at the front, whose text is whole. Its body takes this memory.
fn first_frame(spare: Vec<u8>, bytes: &[u8]) -> Result<Frame, FrameError>
    requires header { 5 ≤ length bytes.now }
    requires low { 4 ≤ big_number 4 (drop 1 bytes.now) }
    requires whole { 1 + big_number 4 (drop 1 bytes.now) ≤ length bytes.now }
    ensures kind { IfOk result (λ frame. frame.kind ≡ slice_index bytes.now 0) }
    ensures body { IfOk result (λ frame.
        frame.body ≡ take (big_number 4 (drop 1 bytes.now) - 4) (drop 5 bytes.now)) }
    ensures only_memory { IsOkUnless result FrameError.Memory }
{
    let end = 1 + BigEndian::read_u32(&bytes[1..]) as usize;
    let mut body = spare;
    body.clear();
    if body.extend_from_slice(&bytes[HEADER_LEN..end]).is_err() {
        return Err(FrameError::Memory);
    }
    let kind = bytes[0];
    Ok(Frame {
        kind,
        body: Body::from(body),
    })
}
