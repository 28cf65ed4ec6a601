//! The clients of a world.
ghost use Rattle.std.specs.Prelude.{◌≡◌, ◌≢◌, ◌↔◌, ℕ, false, IfSome, IfNone, IsTrue};
ghost use Rattle.lease.specs.declared.link_record.LinkRecord.{LinkRecord};
ghost use Rattle.lease.specs.declared.permit.PermitRecord.{PermitRecord};
ghost use Rattle.world.specs.declared.session.Hand.TheVariants as hand;
ghost use Rattle.world.specs.Changes.{holding};

use crate::numbers::{BackendNo, Label};
use crate::table::Row;
use node_core::{DatabaseNo, LinkRecord, PassRecord, PermitRecord};
use pg_ids::{AnyKey, PeerNo};

/// What a client has in hand.
#[derive(Clone, Copy, Debug, PartialEq, Eq)]
pub enum Hand {
    /// Nothing.
    Empty,
    /// The permit to open a link.
    Permit(PermitRecord),
    /// The lease of a link, at this server process, with the number of its unanswered requests.
    Lease(LinkRecord, BackendNo, u64),
}

/// A client that logged in.
#[derive(Clone, Copy, Debug, PartialEq, Eq)]
pub struct Session {
    /// Its own label.
    pub label: Label,
    /// Its node.
    pub node: PeerNo,
    /// Its database there.
    pub database: DatabaseNo,
    /// The pass that the node gave it.
    pub pass: PassRecord,
    /// Whether it is still there.
    pub stays: bool,
    /// What it has in hand.
    pub hand: Hand,
}

impl Row for Session {
    type Key = Label;

    ghost key_of = { λ session. session.label };

    fn key(&self) -> Label {
        self.label
    }
}

/// The lease that a client has in hand.
#[derive(Clone, Copy, Debug)]
pub(crate) struct InHand {
    pub lease: LinkRecord,
    pub at: BackendNo,
    pub outstanding: u64,
}

impl Hand {
    /// The permit, if it is one.
    pub(crate) fn permit(&self) -> Option<PermitRecord>
        ensures found { IfSome result (λ permit. self.now ≡ hand.Permit permit) }
        ensures none { IfNone result ((permit : PermitRecord) → self.now ≢ hand.Permit permit) }
    {
        match *self {
            Hand::Permit(permit) => Some(permit),
            Hand::Empty | Hand::Lease(_, _, _) => None,
        }
    }

    /// The lease, if it is one.
    pub(crate) fn lease(&self) -> Option<InHand>
        ensures found { IfSome result
            (λ held. self.now ≡ hand.Lease held.lease held.at held.outstanding) }
        ensures none { IfNone result ((lease : LinkRecord) (at outstanding : ℕ)
            → self.now ≢ hand.Lease lease at outstanding) }
    {
        match *self {
            Hand::Lease(lease, at, outstanding) => Some(InHand {
                lease,
                at,
                outstanding,
            }),
            Hand::Empty | Hand::Permit(_) => None,
        }
    }

    /// Whether it is empty.
    pub(crate) fn is_empty(&self) -> bool
        ensures { IsTrue result ↔ (self.now ≡ hand.Empty) }
    {
        match *self {
            Hand::Empty => true,
            Hand::Permit(_) | Hand::Lease(_, _, _) => false,
        }
    }
}

impl Session {
    /// It with something else in hand.
    pub(crate) fn holding(&self, hand: Hand) -> Session
        ensures { result ≡ holding hand self.now }
    {
        Session { hand, ..*self }
    }

    /// It once its client has left.
    pub(crate) fn gone(&self) -> Session
        ensures { result ≡ record self.now { stays = false } }
    {
        Session {
            stays: false,
            ..*self
        }
    }

    /// The cancel key of its pass.
    pub(crate) fn key(&self) -> AnyKey
        ensures { result ≡ self.now.pass.key }
    {
        self.pass.key
    }
}
