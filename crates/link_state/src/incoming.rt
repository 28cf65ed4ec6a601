//! The message that is coming.
ghost use Rattle.std.specs.Prelude.{◌≡◌, ◌+◌, ◌-◌, ◌≢◌, ◌<◌, ◌≤◌, ◌++◌, ℕ, List, [], true, false, length, take, drop, slice_index, vec_len, vec_capacity, IfOk, IfSome, IfNone};
ghost use Rattle.link_state.specs.HeadLength.{length_in, AreBytes};

use byteorder::{BigEndian, ByteOrder};
use std::alloc::{AllocError, Global};

/// How many bytes a message's head has.
pub const HEAD: usize = 5;

/// How many its length field has, which counts itself.
pub const FIELD: usize = 4;

/// The first bytes of the message that is coming, in memory that is taken once, and how many are to
/// come.
#[derive(Debug, Drop)]
pub struct Incoming {
    front: Vec<u8>,
    // How many bytes are kept at most.
    limit: usize,
    // How many bytes are to come of the head, or once that is whole, of the body.
    left: usize,
    in_body: bool,
    ghost head: { 5 ≤ limit },
    ghost capacity: { limit ≤ vec_capacity front },
    ghost short: { vec_len front ≤ limit },
    ghost first: { in_body ≡ false → vec_len front + left ≡ 5 },
    ghost second: { in_body ≡ true → 5 ≤ vec_len front },
}

/// How far a message has come.
#[derive(Clone, Copy, Debug, PartialEq, Eq)]
pub enum Progress {
    /// More of it is to come.
    More,
    /// Its length field is below 4.
    Broken,
    /// It is whole.
    Whole,
}

impl Incoming {
    ghost use Rattle.link_state.specs.declared.incoming.Progress.TheVariants as progress;
    ghost use Rattle.link_state.specs.Watched.{Comes, ComesTo, IsOther};

    /// One of which nothing has come. So many bytes of it are kept.
    pub fn new(alloc: Global, limit: usize) -> Result<Incoming, AllocError>
        requires { 5 ≤ limit }
        ensures comes { IfOk result (λ incoming. Comes incoming []) }
        ensures limit { IfOk result (λ incoming. incoming.limit ≡ limit) }
        ensures left { IfOk result (λ incoming. 0 < incoming.left) }
    {
        let front = Vec::with_capacity(alloc, limit)?;
        Ok(Incoming {
            front,
            limit,
            left: HEAD,
            in_body: false,
        })
    }

    /// How many bytes are to come of its head, or of its body.
    pub fn left(&self) -> usize
        ensures { result ≡ self.now.left }
    {
        self.left
    }

    /// How long the message is with which these bytes begin, if nothing of one has come: 0 if it
    /// isn't whole, has a length field below 4, or is a ParameterStatus.
    #[inline(always)]
    pub fn other_len(&self, bytes: &[u8]) -> usize
        ensures within { result ≤ length bytes.now }
        ensures other { 0 < result
            → IsOther self.now.left self.now.in_body result bytes.now }
        ensures bytes { AreBytes bytes.now }
    {
        if self.in_body || self.left != HEAD || bytes.len() < HEAD || bytes[0] == b'S' {
            return 0;
        }
        let length = length_in(bytes);
        if length < FIELD || length >= bytes.len() {
            return 0;
        }
        length + 1
    }

    /// Its next bytes have come, no more than are to come.
    pub fn advance(&mut self, bytes: &[u8]) -> Progress
        requires { length bytes.now ≤ self.old.left }
        ensures reaches { (rest : List ℕ) → Comes self.old rest
            → ComesTo result self.new (rest ++ bytes.now) }
        ensures left { result ≡ progress.More → 0 < self.new.left }
        ensures head { result ≡ progress.Whole → 5 ≤ length self.new.front.items }
        ensures limit { self.new.limit ≡ self.old.limit }
    {
        self.keep(bytes);
        if self.left > 0 {
            return Progress::More;
        }
        if self.in_body {
            return Progress::Whole;
        }
        self.begin_body()
    }

    // Keeps the bytes as far as there is room.
    fn keep(&mut self, bytes: &[u8])
        requires { length bytes.now ≤ self.old.left }
        ensures comes { (rest : List ℕ) → Comes self.old rest → Comes self.new (rest ++ bytes.now) }
        ensures limit { self.new.limit ≡ self.old.limit }
    {
        append_up_to(&mut self.front, self.limit, bytes);
        self.left -= bytes.len();
    }

    // The head is whole.
    fn begin_body(&mut self) -> Progress
        requires head { self.old.in_body ≡ false }
        requires whole { self.old.left ≡ 0 }
        ensures reaches { (rest : List ℕ) → Comes self.old rest → ComesTo result self.new rest }
        ensures left { result ≡ progress.More → 0 < self.new.left }
        ensures head { result ≡ progress.Whole → 5 ≤ length self.new.front.items }
        ensures limit { self.new.limit ≡ self.old.limit }
    {
        let length = length_in(self.front.as_slice());
        if length < FIELD {
            return Progress::Broken;
        }
        self.left = length - FIELD;
        self.in_body = true;
        if self.left > 0 {
            Progress::More
        } else {
            Progress::Whole
        }
    }

    /// The body of a ParameterStatus, as far as it is kept.
    pub fn status(&self) -> Option<&[u8]>
        ensures some { IfSome result (λ body. (slice_index self.now.front.items 0 ≡ 83)
            × (body.now ≡ drop 5 self.now.front.items)) }
        ensures none { IfNone result (5 ≤ length self.now.front.items
            → slice_index self.now.front.items 0 ≢ 83) }
    {
        let front = self.front.as_slice();
        if front.len() < HEAD || front[0] != b'S' {
            return None;
        }
        Some(&front[HEAD..])
    }

    /// Nothing has come of the next one.
    pub fn restart(&mut self)
        ensures comes { Comes self.new [] }
        ensures left { 0 < self.new.left }
        ensures limit { self.new.limit ≡ self.old.limit }
    {
        self.front.clear();
        self.left = HEAD;
        self.in_body = false;
    }
}

// Appends the bytes as far as there is room.
fn append_up_to(front: &mut Vec<u8>, limit: usize, bytes: &[u8])
    requires short { vec_len front.old ≤ limit }
    requires capacity { limit ≤ vec_capacity front.old }
    ensures items { front.new.items ≡ take limit (front.old.items ++ bytes.now) }
    ensures short { vec_len front.new ≤ limit }
    ensures longer { vec_len front.old ≤ vec_len front.new }
    ensures all { vec_len front.old + length bytes.now ≤ limit
        → vec_len front.new ≡ vec_len front.old + length bytes.now }
    ensures capacity { limit ≤ vec_capacity front.new }
    ensures bytes { AreBytes bytes.now }
{
    let count = bytes.len().min(limit - front.len());
    front.extend_from_slice(&bytes[..count]).unwrap();
}

/// What stands in the length field of a head.
pub fn length_in(head: &[u8]) -> usize
    requires { 5 ≤ length head.now }
    ensures { result ≡ length_in head.now }
{
    BigEndian::read_u32(&head[1..]) as usize
}
