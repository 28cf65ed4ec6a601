//! What a world keeps of its keys and of its cancel requests.
ghost use Rattle.std.specs.Prelude.{◌≡◌, ◌↔◌, true, IsTrue, Some};
ghost use Rattle.world.specs.declared.request.Report.TheVariants as report;
ghost use Rattle.std.proofs.Common.{rules};

use crate::index::Key;
use crate::numbers::{ArrivalNo, BackendNo, FlightNo, Label, ServerNo};
use crate::table::Row;
use node_core::{Order, TicketRecord};
use pg_ids::{AnyKey, Boot, Identity, PeerNo, ServerKey};

/// That a node was started with this boot.
#[derive(Clone, Copy, Debug, PartialEq, Eq, Hash)]
pub struct Start {
    /// The node.
    pub node: PeerNo,
    /// The boot.
    pub boot: Boot,
}

/// That a node gave a key with this identity to this client.
#[derive(Clone, Copy, Debug, PartialEq, Eq)]
pub struct Issue {
    /// The node.
    pub node: PeerNo,
    /// Its incarnation.
    pub incarnation: u64,
    /// The key's identity.
    pub identity: Identity,
    /// The client.
    pub label: Label,
}

impl Key for Identity {
    ghost exact = { Prim.search rules };
}

impl Row for Issue {
    type Key = Identity;

    ghost key_of = { λ issue. issue.identity };

    fn key(&self) -> Identity {
        self.identity
    }
}

/// A CancelRequest that came to a node, with the node's order.
#[derive(Clone, Copy, Debug, PartialEq, Eq)]
pub struct Arrival {
    /// The bytes that came.
    pub flight: FlightNo,
    /// The node.
    pub node: PeerNo,
    /// The request's key.
    pub key: AnyKey,
    /// What the node ordered.
    pub order: Order<TicketRecord>,
}

/// How whoever carried a request reported its end.
#[derive(Clone, Copy, Debug, PartialEq, Eq)]
pub enum Report {
    /// It ended cleanly.
    Clean,
    /// It broke.
    Fault,
}

/// A cancel connection to a server.
#[derive(Clone, Copy, Debug, PartialEq, Eq)]
pub struct Connection {
    /// The server that was asked.
    pub server: ServerNo,
    /// The key that it was asked for.
    pub key: ServerKey,
    /// The server process with that key.
    pub backend: BackendNo,
    /// Who had its link when the request came.
    pub holder: Option<Label>,
    /// The request.
    pub arrival: ArrivalNo,
    /// The request's ticket.
    pub ticket: TicketRecord,
    /// Whether the server has acted on it.
    pub acted: bool,
    /// Whether the server has ended it.
    pub ended: bool,
    /// How its end was reported, if it was.
    pub report: Option<Report>,
}

impl Row for Connection {
    type Key = ArrivalNo;

    ghost key_of = { λ connection. connection.arrival };

    fn key(&self) -> ArrivalNo {
        self.arrival
    }
}

/// A connection by which a node forwards a request.
#[derive(Clone, Copy, Debug, PartialEq, Eq)]
pub struct Forward {
    /// The bytes that it carries.
    pub flight: FlightNo,
    /// The arrival that was forwarded.
    pub origin: ArrivalNo,
    /// The arrival to which it led, if it came to a node.
    pub accepted: Option<ArrivalNo>,
    /// Whether it was ended without a byte.
    pub ended: bool,
    /// How its end was reported, if it was.
    pub report: Option<Report>,
}

/// That a server process was interrupted while it ran a request of this client, for this arrival.
#[derive(Clone, Copy, Debug, PartialEq, Eq)]
pub struct Interrupt {
    /// The server process.
    pub backend: BackendNo,
    /// The client.
    pub label: Label,
    /// The arrival.
    pub arrival: ArrivalNo,
}

/// That a request's key was taken, at this node, for the key of this client.
#[derive(Clone, Copy, Debug, PartialEq, Eq)]
pub struct Taken {
    /// The node.
    pub node: PeerNo,
    /// The request's key.
    pub key: AnyKey,
    /// The client.
    pub label: Label,
}

impl Connection {
    /// Its ticket.
    pub(crate) fn ticket(&self) -> TicketRecord
        ensures { result ≡ self.now.ticket }
    {
        self.ticket
    }

    /// The node that gave its ticket.
    pub(crate) fn node(&self) -> PeerNo
        ensures { result ≡ self.now.ticket.peer }
    {
        self.ticket.peer
    }

    /// Whether its end was reported clean.
    pub(crate) fn is_clean(&self) -> bool
        ensures { IsTrue result ↔ (self.now.report ≡ Some report.Clean) }
    {
        matches!(self.report, Some(Report::Clean))
    }

    /// It once the server has acted on it.
    pub(crate) fn acting(&self) -> Connection
        ensures { result ≡ record self.now { acted = true } }
    {
        Connection {
            acted: true,
            ..*self
        }
    }

    /// It once the server has ended it.
    pub(crate) fn ending(&self) -> Connection
        ensures { result ≡ record self.now { ended = true } }
    {
        Connection {
            ended: true,
            ..*self
        }
    }

    /// It once its end was reported.
    pub(crate) fn reported(&self, how: Report) -> Connection
        ensures { result ≡ record self.now { report = Some how } }
    {
        Connection {
            report: Some(how),
            ..*self
        }
    }
}

impl Forward {
    /// Whether its end was reported clean.
    pub(crate) fn is_clean(&self) -> bool
        ensures { IsTrue result ↔ (self.now.report ≡ Some report.Clean) }
    {
        matches!(self.report, Some(Report::Clean))
    }

    /// It once it has led to this arrival.
    pub(crate) fn leading(&self, arrival: ArrivalNo) -> Forward
        ensures { result ≡ record self.now { accepted = Some arrival } }
    {
        Forward {
            accepted: Some(arrival),
            ..*self
        }
    }

    /// It once it was ended without a byte.
    pub(crate) fn ending(&self) -> Forward
        ensures { result ≡ record self.now { ended = true } }
    {
        Forward {
            ended: true,
            ..*self
        }
    }

    /// It once its end was reported.
    pub(crate) fn reported(&self, how: Report) -> Forward
        ensures { result ≡ record self.now { report = Some how } }
    {
        Forward {
            report: Some(how),
            ..*self
        }
    }
}
