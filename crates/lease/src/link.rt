//! A link of a pool, whose state is a type.
ghost use Rattle.std.specs.Prelude.{◌≡◌};
ghost use Rattle.std.specs.Borrow.{sem};

use crate::link_record::LinkRecord;
use std::marker::Model;

/// A client holds the link. A link in this state has to be spent: this type isn't `Drop`.
#[derive(Debug)]
pub struct Held;

/// The link is free for any client of its database.
#[derive(Debug, Drop)]
pub struct Idle;

/// The link was given back while a cancel request for it was on its way.
#[derive(Debug, Drop)]
pub struct Quarantined;

/// A link, with its stream, in the state `T`. It can't be copied.
#[must_use]
#[derive(Debug, Drop)]
pub struct Link<S, T> {
    details: LinkRecord,
    stream: S,
    state: T,
}

/// A link that a client holds, with its stream. It can't be copied, and has to be spent. Its number
/// is its link's.
pub type Lease<S> = Link<S, Held>;

/// A link that is free for any client of its database. It is kept in a pool, and dropped with it if
/// its stream may be dropped.
pub type IdleLink<S> = Link<S, Idle>;

/// A link that was given back while a cancel request for it was on its way. It is kept in a pool,
/// and dropped with it if its stream may be dropped.
pub type QuarantinedLink<S> = Link<S, Quarantined>;

impl<S, T> Model for Link<S, T> {
    ghost use Rattle.lease.specs.LinkValue.{LinkValue};

    ghost Value = { LinkValue S };

    ghost view = { λ l. record { details = l.details; stream = l.stream } };
}

impl<S, T> Link<S, T> {
    /// What the link says.
    pub fn details(&self) -> LinkRecord
        ensures { result ≡ self.now.details }
    {
        self.details
    }
}

impl<S> Link<S, Held> {
    ghost use Rattle.lease.specs.LeaseLends.{lends_stream};

    pub(crate) fn new(details: LinkRecord, stream: S) -> Lease<S>
        ensures { result ≡ record { details = details; stream = stream } }
    {
        Link {
            details,
            stream,
            state: Held,
        }
    }

    /// The link's stream.
    pub fn stream(&self) -> &S
        ensures { result.now ≡ self.now.stream }
    {
        &self.stream
    }

    /// The link's stream, to be read from and written to. What the lease says stays.
    pub fn stream_mut(&mut self) -> &mut S
        ensures* writes_back { sem 𝓛 (lends_stream S.row self.entry result) }
        ensures value { result.now ≡ self.old.stream }
    {
        &mut self.stream
    }

    /// The client gives the link back: it is free for others.
    pub fn idle(self) -> IdleLink<S>
        ensures { result ≡ self }
    {
        let Link {
            details,
            stream,
            state: Held,
        } = self;
        Link {
            details,
            stream,
            state: Idle,
        }
    }

    /// The client gives the link back, and a cancel request for it is still on its way.
    pub fn quarantine(self) -> QuarantinedLink<S>
        ensures { result ≡ self }
    {
        let Link {
            details,
            stream,
            state: Held,
        } = self;
        Link {
            details,
            stream,
            state: Quarantined,
        }
    }

    /// The link leaves its pool. Returns its stream, to be closed.
    pub fn close(self) -> S
        ensures { result ≡ self.stream }
    {
        let Link {
            details: _,
            stream,
            state: Held,
        } = self;
        stream
    }

    /// Does the same as `close`. The name marks where no step of a node takes the lease: where a
    /// journal or a caller has used up its calls, where a desk is a list, where `world` keeps only
    /// the record of a lease that it was handed, and where the command `decide` ends.
    pub fn forfeit(self) -> S
        ensures { result ≡ self.stream }
    {
        self.close()
    }
}

// A link that nobody holds.
impl<S, T: Drop> Link<S, T> {
    /// A client gets the link: any client an idle one, and the client that gave it back a
    /// quarantined one.
    pub fn hold(self) -> Lease<S>
        ensures { result ≡ self }
    {
        let Link {
            details,
            stream,
            state: _left,
        } = self;
        Lease::new(details, stream)
    }
}

impl<S> Link<S, Quarantined> {
    /// The last cancel request has ended cleanly: the link is free for others.
    pub fn free(self) -> IdleLink<S>
        ensures { result ≡ self }
    {
        self.hold().idle()
    }

    /// The link leaves its pool. Returns its stream, to be closed.
    pub fn close(self) -> S
        ensures { result ≡ self.stream }
    {
        self.hold().close()
    }
}
