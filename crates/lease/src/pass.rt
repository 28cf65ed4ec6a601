//! What a client of a node is known by there.
ghost use Rattle.std.specs.Prelude.{◌≡◌};

use crate::token::Token;
use pg_ids::AnyKey;

/// What a pass says.
#[derive(Clone, Copy, Debug, PartialEq, Eq, Hash)]
pub struct PassRecord {
    /// The client's cancel key, which names the node and the slot.
    pub key: AnyKey,
    /// The node's incarnation.
    pub incarnation: u64,
    /// The number of the pass there, which no other pass has.
    pub number: u64,
}

/// A client's stay at a node, from its login to its leaving. It can't be copied, and has to be
/// spent.
pub type Pass = Token<PassRecord>;

impl Token<PassRecord> {
    /// The client's cancel key.
    pub const fn key(&self) -> AnyKey
        ensures { result ≡ self.now.key }
    {
        self.details().key
    }
}
