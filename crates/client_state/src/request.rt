//! What a client asks of a server.
ghost use Rattle.std.specs.Prelude.{◌≡◌, ◌≤◌, length, take, vec_len};

use std::marker::Model;

/// A request of a client: a Query, or a group of an extended query's messages that ends in Sync. In
/// contracts it is its text.
#[derive(Debug, Drop)]
pub struct Request {
    // Its text, and maybe bytes behind it.
    memory: Vec<u8>,
    len: usize,
    // Whether the memory was handed in.
    is_lent: bool,
}

impl Model for Request {
    ghost use Rattle.std.specs.Prelude.{ℕ, List, ◌≤◌, take, vec_len};

    ghost Value = { List ℕ };

    ghost view = { λ r. take r.len r.memory.items };

    ghost invariant = { λ r. r.len ≤ vec_len r.memory };
}

impl Request {
    /// The request whose text this is.
    pub(crate) fn new(text: Vec<u8>) -> Request
        ensures { result ≡ text.items }
    {
        let len = text.len();
        Request {
            memory: text,
            len,
            is_lent: false,
        }
    }

    /// The request whose text the first bytes of this memory are.
    pub(crate) fn front(memory: Vec<u8>, len: usize) -> Request
        requires { len ≤ vec_len memory }
        ensures { result ≡ take len memory.items }
    {
        Request {
            memory,
            len,
            is_lent: true,
        }
    }

    // Whether its memory was handed in.
    pub(crate) fn is_lent(&self) -> bool {
        self.is_lent
    }

    // The memory of its text.
    pub(crate) fn into_vec(self) -> Vec<u8>
        ensures { take (length self) result.items ≡ self }
    {
        let Request { memory, .. } = self;
        memory
    }

    /// Its text, to be written to the link.
    pub fn as_slice(&self) -> &[u8]
        ensures { result.now ≡ self.now }
    {
        self.memory.as_slice().split_at(self.len).0
    }
}
