//! What must be reported to a node once a cancel request was carried.
use crate::link_place::LinkPlace;
use crate::token::Token;
use pg_ids::{LinkNo, PeerNo};

/// What a ticket says.
#[derive(Clone, Copy, Debug, PartialEq, Eq, Hash)]
pub struct TicketRecord {
    /// The incarnation of the node that gave it.
    pub incarnation: u64,
    /// The number of the ticket there, which no other ticket has.
    pub number: u64,
    /// The link whose server is asked to cancel.
    pub link: LinkNo,
    /// The node.
    pub peer: PeerNo,
    /// Where that link is in its node's pool.
    pub at: LinkPlace,
}

/// A cancel request that a node has sent on its way to a link's server, and whose end must be
/// reported to it. It can't be copied, and has to be spent.
pub type Ticket = Token<TicketRecord>;
