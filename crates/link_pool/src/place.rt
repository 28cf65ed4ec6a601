//! What is at a place of a pool, and what a client has there.
ghost use Rattle.std.specs.Prelude.{◌≡◌, ◌≢◌, ℕ, Some, IfSome, IfNone};
ghost use Rattle.lease.specs.declared.link_place.LinkPlace.{LinkPlace as LinkPlaceOf};
ghost use Rattle.link_pool.specs.declared.place.Claim.TheVariants as claim;
ghost use Rattle.link_pool.specs.PoolStep.{is_holding, is_quarantined, giver_of};
ghost use Rattle.link_pool.specs.declared.place.LinkState.TheVariants as state;

use lease::{LinkPlace, LinkRecord, PermitRecord};
use pg_ids::{DatabaseNo, ServerKey, SlotNo};
use quarantine::Hold;

/// Where a link is.
#[derive(Clone, Copy, Debug, PartialEq, Eq)]
pub enum LinkState {
    /// Free for any client of its database.
    Idle,
    /// With the client of this slot.
    Held(SlotNo),
    /// Given back while a cancel request for it was on its way, by the client of this slot, unless
    /// that has left.
    Quarantined(Option<SlotNo>),
}

/// An open link.
#[derive(Clone, Copy, Debug, PartialEq, Eq)]
pub struct Link {
    /// The node, incarnation, number and place, as its lease carries them.
    pub details: LinkRecord,
    /// The key by which its server cancels.
    pub key: ServerKey,
    /// Where it is.
    pub state: LinkState,
    /// How many of its tickets are open, and whether one failed.
    pub hold: Hold,
}

impl Link {
    // The place of the link.
    pub(crate) fn at(&self) -> LinkPlace
        ensures { result ≡ self.now.details.at }
    {
        self.details.at
    }

    // Its tickets.
    pub(crate) fn hold(&self) -> Hold
        ensures { result ≡ self.now.hold }
    {
        self.hold
    }

    // The slot of the client that has the link, if one has.
    pub(crate) fn holder(&self) -> Option<SlotNo>
        ensures held { IfSome result (λ slot. self.now.state ≡ state.Held slot) }
        ensures not_held { IfNone result ((slot : ℕ) → self.now.state ≢ state.Held slot) }
    {
        match self.state {
            LinkState::Held(slot) => Some(slot),
            LinkState::Idle | LinkState::Quarantined(_) => None,
        }
    }

    // Whether the link waits for cancel requests.
    pub(crate) fn is_quarantined(&self) -> bool
        ensures { result ≡ is_quarantined self.now.state }
    {
        match self.state {
            LinkState::Quarantined(_) => true,
            LinkState::Idle | LinkState::Held(_) => false,
        }
    }

    // The slot of the client that gave the link back, if that is quarantined and the client hasn't
    // left.
    pub(crate) fn giver(&self) -> Option<SlotNo>
        ensures { result ≡ giver_of self.now.state }
    {
        match self.state {
            LinkState::Quarantined(giver) => giver,
            LinkState::Idle | LinkState::Held(_) => None,
        }
    }
}

/// A place of a pool.
#[derive(Clone, Copy, Debug, PartialEq, Eq)]
pub enum Place {
    /// Nothing is there.
    Free,
    /// It is kept for the link that the client of this slot opens by this permit.
    Open(PermitRecord, SlotNo),
    /// A link is there.
    Link(Link),
}

/// What the client of a slot has of the pools: one of these at most.
#[derive(Clone, Copy, Debug, PartialEq, Eq)]
pub enum Claim {
    /// Nothing.
    Nothing,
    /// Nothing. Its wait was cancelled, which its next `acquire` returns.
    Cancelled,
    /// A place in the queue of this database.
    Waiting(DatabaseNo),
    /// A permit for the link of this place.
    Open(LinkPlace),
    /// The link of this place.
    Link(LinkPlace),
    /// Nothing in hand. It gave back the link of this place, which is still quarantined.
    Gave(LinkPlace),
}

impl Claim {
    // Whether the client has a link or a permit.
    pub(crate) fn is_holding(&self) -> bool
        ensures { result ≡ is_holding (Some self.now) }
    {
        match self {
            Claim::Open(_) | Claim::Link(_) => true,
            Claim::Nothing | Claim::Cancelled | Claim::Waiting(_) | Claim::Gave(_) => false,
        }
    }

    // The place of the link that the client has, if it has one.
    pub(crate) fn link(&self) -> Option<LinkPlace>
        ensures link { IfSome result (λ at. self.now ≡ claim.Link at) }
        ensures no_link { IfNone result ((at : LinkPlaceOf) → self.now ≢ claim.Link at) }
    {
        match self {
            Claim::Link(at) => Some(*at),
            Claim::Nothing
            | Claim::Cancelled
            | Claim::Waiting(_)
            | Claim::Open(_)
            | Claim::Gave(_) => None,
        }
    }

    // The place of the link that the client gave back, if that is still quarantined.
    pub(crate) fn gave(&self) -> Option<LinkPlace>
        ensures gave { IfSome result (λ at. self.now ≡ claim.Gave at) }
        ensures not_given { IfNone result ((at : LinkPlaceOf) → self.now ≢ claim.Gave at) }
    {
        match self {
            Claim::Gave(at) => Some(*at),
            Claim::Nothing
            | Claim::Cancelled
            | Claim::Waiting(_)
            | Claim::Open(_)
            | Claim::Link(_) => None,
        }
    }
}
