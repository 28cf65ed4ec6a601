//! The calls of a desk.
use lease::{LinkRecord, TicketRecord};

/// A call of a desk, with what the value that it spends says.
#[derive(Clone, Copy, Debug, PartialEq, Eq)]
pub enum DeskCall {
    /// The cancel request of this ticket has ended cleanly.
    Ended(TicketRecord),
    /// The cancel request of this ticket hasn't ended cleanly.
    Failed(TicketRecord),
    /// The client gives this link back.
    Release(LinkRecord),
    /// The client closes this link.
    Close(LinkRecord),
}
