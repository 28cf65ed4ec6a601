//! What a link says, in whatever place it is.
ghost use Rattle.std.specs.Prelude.{◌≡◌};

use crate::link_place::LinkPlace;
use pg_ids::{LinkNo, PeerNo};

/// What an idle link, a lease or a quarantined link says.
#[derive(Clone, Copy, Debug, PartialEq, Eq, Hash)]
pub struct LinkRecord {
    /// The incarnation of the node that has the link.
    pub incarnation: u64,
    /// The number of the link there, which no other link has.
    pub link: LinkNo,
    /// The node.
    pub peer: PeerNo,
    /// Where the link is in its node's pool.
    pub at: LinkPlace,
}
