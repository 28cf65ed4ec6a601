//! The right to open a link.
ghost use Rattle.std.specs.Prelude.{◌≡◌};

use crate::link::Lease;
use crate::link_place::LinkPlace;
use crate::link_record::LinkRecord;
use crate::token::Token;
use pg_ids::{LinkNo, PeerNo};

/// What a permit says.
#[derive(Clone, Copy, Debug, PartialEq, Eq, Hash)]
pub struct PermitRecord {
    /// The incarnation of the node that gave it.
    pub incarnation: u64,
    /// The number of the permit there, which no other permit has.
    pub number: u64,
    /// The node.
    pub peer: PeerNo,
    /// The place in its node's pool that is kept for the link.
    pub at: LinkPlace,
}

/// A place in a pool, in which a link to a server may be opened. It can't be copied, and has to be
/// spent.
pub type Permit = Token<PermitRecord>;

impl Token<PermitRecord> {
    /// The link is open at the permit's place: the lease of this link, over this stream.
    pub fn up<S>(self, link: LinkNo, stream: S) -> Lease<S>
        ensures { result ≡ record {
          details = record {
            peer = self.peer;
            incarnation = self.incarnation;
            link = link;
            at = self.at;
          };
          stream = stream;
        } }
    {
        let PermitRecord {
            peer,
            incarnation,
            number: _,
            at,
        } = self.spend();
        Lease::new(
            LinkRecord {
                peer,
                incarnation,
                link,
                at,
            },
            stream,
        )
    }
}
