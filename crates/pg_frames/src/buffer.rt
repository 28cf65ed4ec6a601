//! The bytes that a flow was fed and hasn't handed out, and in front of them those that it handed out
//! last, in memory that is taken once.
ghost use Rattle.std.specs.Prelude.{◌≡◌, ◌+◌, ◌-◌, ◌<◌, ◌≤◌, ◌++◌, [], length, drop, take, IfOk};
ghost use Rattle.pg_frames.specs.Reading.{ReadsOnce};

use crate::store::Store;
use peer_forward::ReadCalls;
use std::alloc::{AllocError, Global};

/// How many bytes a buffer holds at most.
pub const CAPACITY: usize = 16_384;

/// Bytes that are appended at the end and taken from the front. Those that were taken are kept in
/// front of the others until they are forgotten.
#[derive(Drop)]
pub struct Buffer {
    store: Store,
    // How many bytes at the front were taken.
    taken: usize,
    ghost within: { taken ≤ length store.items },
    ghost size: { store.size ≡ 16384 },
}

impl Buffer {
    ghost use Rattle.pg_frames.specs.Buffer.{kept, unread};

    /// An empty buffer, which takes no more memory from then on.
    pub fn new(alloc: Global) -> Result<Buffer, AllocError>
        ensures unread { IfOk result (λ buffer. unread buffer ≡ []) }
        ensures kept { IfOk result (λ buffer. kept buffer ≡ []) }
    {
        let store = Store::with_size(alloc, CAPACITY)?;
        Ok(Buffer { store, taken: 0 })
    }

    /// The bytes that weren't taken.
    pub fn as_slice(&self) -> &[u8]
        ensures value { result.now ≡ unread self.now }
        ensures fits { length (kept self.now) + length (unread self.now) ≤ 16384 }
    {
        self.store.as_slice().split_at(self.taken).1
    }

    /// The bytes that were taken and aren't forgotten.
    pub fn kept(&self) -> &[u8]
        ensures { result.now ≡ kept self.now }
    {
        self.store.as_slice().split_at(self.taken).0
    }

    /// Appends some bytes.
    pub fn append(&mut self, piece: &[u8])
        requires { length (kept self.old) + (length (unread self.old) + length piece.now) ≤ 16384 }
        ensures unread { unread self.new ≡ unread self.old ++ piece.now }
        ensures kept { kept self.new ≡ kept self.old }
    {
        self.store.append(piece);
    }

    /// Reads a stream once, as much as there is room for, and appends what came. It returns how many
    /// bytes that were: none at the end of the input, and where the read failed.
    pub fn read_from<T: ReadCalls>(&mut self, stream: &mut T) -> usize
        requires { length (kept self.old) + length (unread self.old) < 16384 }
        ensures read { ReadsOnce T.gave stream.old stream.new result
            (λ bytes. unread self.new ≡ unread self.old ++ bytes) }
        ensures kept { kept self.new ≡ kept self.old }
    {
        self.store.read_from(stream)
    }

    /// Takes some bytes from the front.
    pub fn advance(&mut self, count: usize)
        requires { count ≤ length (unread self.old) }
        ensures left { unread self.new ≡ drop count (unread self.old) }
        ensures kept { kept self.new ≡ kept self.old ++ take count (unread self.old) }
        ensures taken { drop (length (kept self.new) - count) (kept self.new)
            ≡ take count (unread self.old) }
        ensures within { count ≤ length (kept self.new) }
    {
        let len = self.store.len();
        prove!(count <= len - self.taken);
        self.taken += count;
    }

    /// The bytes that were taken last.
    pub fn taken(&self, count: usize) -> &[u8]
        requires { count ≤ length (kept self.now) }
        ensures { result.now ≡ drop (length (kept self.now) - count) (kept self.now) }
    {
        let kept = self.kept();
        kept.split_at(kept.len() - count).1
    }

    /// Forgets some of the bytes that were taken, the oldest first.
    pub fn forget(&mut self, count: usize)
        requires { count ≤ length (kept self.old) }
        ensures unread { unread self.new ≡ unread self.old }
        ensures kept { kept self.new ≡ drop count (kept self.old) }
    {
        self.store.advance(count);
        self.taken -= count;
    }
}
