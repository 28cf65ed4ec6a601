//! Bytes in memory that a stream is read into.
ghost use Rattle.std.specs.Prelude.{◌≡◌, ◌+◌, ◌-◌, ◌<◌, ◌≤◌, ◌++◌, [], length, take, drop, slice_range, vec_len, IfOk, OnOk, OnErr};
ghost use Rattle.pg_frames.specs.Stored.{holding};
ghost use Rattle.pg_frames.specs.Reading.{ReadsOnce};

use peer_forward::ReadCalls;
use std::alloc::{AllocError, Global};
use std::marker::Model;

/// Bytes that are appended at the end and taken from the front. In contracts it is a `Stored`: these
/// bytes, and how many it has memory for.
#[derive(Drop)]
pub struct Store {
    // Each byte of it was written once, so that it can be lent to a read.
    memory: Vec<u8>,
    // The bytes stand from here on.
    start: usize,
    // And this is behind them.
    end: usize,
}

impl Model for Store {
    ghost use Rattle.std.specs.Prelude.{◌≤◌, slice_range, vec_len};
    ghost use Rattle.pg_frames.specs.Stored.{Stored};

    ghost Value = { Stored };

    ghost view = { λ s. record {
      items = slice_range s.memory.items s.start s.end;
      size = vec_len s.memory;
    } };

    ghost invariant = { λ s. (s.start ≤ s.end) × (s.end ≤ vec_len s.memory) };
}

impl Store {
    /// Nothing, in no memory.
    pub fn new(alloc: Global) -> Store
        ensures items { result.items ≡ [] }
        ensures size { result.size ≡ 0 }
    {
        Store {
            memory: Vec::new(alloc),
            start: 0,
            end: 0,
        }
    }

    /// Nothing, in memory for this many bytes.
    pub fn with_size(alloc: Global, size: usize) -> Result<Store, AllocError>
        ensures { IfOk result (λ store. store ≡ holding [] size) }
    {
        let memory = vec![in alloc; 0; size]?;
        Ok(Store::of(memory))
    }

    /// Nothing, in this memory.
    pub fn of(memory: Vec<u8>) -> Store
        ensures { result ≡ holding [] (vec_len memory) }
    {
        Store {
            memory,
            start: 0,
            end: 0,
        }
    }

    /// Its memory, with the bytes at its front.
    pub fn into_memory(self) -> Vec<u8>
        ensures bytes { take (length self.items) result.items ≡ self.items }
        ensures size { vec_len result ≡ self.size }
        ensures within { length self.items ≤ self.size }
    {
        let Store { memory, start, end } = self;
        let mut memory = memory;
        move_to_front(memory.as_mut_slice(), start, end);
        memory
    }

    /// The bytes.
    pub fn as_slice(&self) -> &[u8]
        ensures value { result.now ≡ self.now.items }
        ensures within { length self.now.items ≤ self.now.size }
    {
        &self.memory.as_slice()[self.start..self.end]
    }

    /// How many bytes there are.
    pub fn len(&self) -> usize
        ensures len { result ≡ length self.now.items }
        ensures within { length self.now.items ≤ self.now.size }
    {
        self.end - self.start
    }

    /// How many bytes it has memory for.
    pub fn size(&self) -> usize
        ensures size { result ≡ self.now.size }
        ensures within { length self.now.items ≤ self.now.size }
    {
        self.memory.len()
    }

    /// Takes bytes from the front.
    pub fn advance(&mut self, count: usize)
        requires { count ≤ length self.old.items }
        ensures items { self.new.items ≡ drop count self.old.items }
        ensures size { self.new.size ≡ self.old.size }
    {
        self.start += count;
    }

    /// Appends bytes for which it has memory.
    pub fn append(&mut self, piece: &[u8])
        requires { length self.old.items + length piece.now ≤ self.old.size }
        ensures { self.new ≡ holding (self.old.items ++ piece.now) self.old.size }
    {
        let end = move_to_front(self.memory.as_mut_slice(), self.start, self.end);
        copy_behind(self.memory.as_mut_slice(), end, piece);
        self.start = 0;
        self.end = end + piece.len();
    }

    /// Reads a stream once, into the memory behind the bytes, and returns how many came: none at the
    /// end of the input, and where the read failed.
    pub fn read_from<T: ReadCalls>(&mut self, stream: &mut T) -> usize
        requires { length self.old.items < self.old.size }
        ensures { ReadsOnce T.gave stream.old stream.new result
            (λ bytes. self.new ≡ holding (self.old.items ++ bytes) self.old.size) }
    {
        let end = move_to_front(self.memory.as_mut_slice(), self.start, self.end);
        let count = read_behind(self.memory.as_mut_slice(), end, stream);
        self.start = 0;
        self.end = end + count;
        count
    }

    /// Makes memory for this many bytes, which are no fewer than there are.
    pub fn grow(&mut self, alloc: Global, size: usize) -> Result<(), AllocError>
        requires { length self.old.items ≤ size }
        ensures ok { OnOk result (self.new ≡ holding self.old.items size) }
        ensures err { OnErr result (self.new ≡ self.old) }
    {
        let mut store = Store::with_size(alloc, size)?;
        store.append(self.as_slice());
        *self = store;
        Ok(())
    }
}

// Moves a range to the front, and returns how many bytes it has.
fn move_to_front(memory: &mut [u8], start: usize, end: usize) -> usize
    requires order { start ≤ end }
    requires within { end ≤ length memory.old }
    ensures len { length memory.new ≡ length memory.old }
    ensures count { result ≡ end - start }
    ensures range { take result memory.new ≡ slice_range memory.old start end }
{
    if start > 0 {
        memory.copy_within(start..end, 0);
    }
    end - start
}

// Copies bytes behind the first ones.
fn copy_behind(memory: &mut [u8], at: usize, piece: &[u8])
    requires { at + length piece.now ≤ length memory.old }
    ensures len { length memory.new ≡ length memory.old }
    ensures front { take (at + length piece.now) memory.new ≡ take at memory.old ++ piece.now }
{
    memory[at..at + piece.len()].copy_from_slice(piece);
}

// Reads a stream once, into what is behind the first bytes.
fn read_behind<T: ReadCalls>(memory: &mut [u8], at: usize, stream: &mut T) -> usize
    requires { at < length memory.old }
    ensures len { length memory.new ≡ length memory.old }
    ensures within { at + result ≤ length memory.new }
    ensures read { ReadsOnce T.gave stream.old stream.new result
        (λ bytes. take (at + result) memory.new ≡ take at memory.old ++ bytes) }
{
    match stream.read_once(&mut memory[at..]) {
        Ok(count) => count,
        Err(_) => 0,
    }
}
