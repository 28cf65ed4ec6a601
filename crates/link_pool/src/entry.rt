//! What a pool keeps at one place: the link with its stream, where no client has that.
ghost use Rattle.std.specs.Prelude.{◌≡◌, true, Some, None, IfSome, IfNone};
ghost use Rattle.link_pool.specs.Parts.{IsHeldIn, IsStaleIn};
ghost use Rattle.link_pool.specs.Entries.{place_of, claim_of, idle_entry, free_entry, settled, leaving, stored_link, lent, ungiven, IsQuarantined};

use crate::place::{Claim, Link, LinkState, Place};
use lease::{IdleLink, Lease, LinkPlace, LinkRecord, PermitRecord, QuarantinedLink};
use pg_ids::{ServerKey, SlotNo};
use quarantine::{Hold, HoldState};

// A link that the client of a slot has.
pub(crate) struct Held {
    pub(crate) link: Link,
    pub(crate) slot: SlotNo,
}

/// One place of a pool.
#[derive(Drop)]
pub(crate) enum Entry<S> {
    /// Nothing is there.
    Free,
    /// It is kept for the link that the client of this slot opens by this permit.
    Open {
        permit: PermitRecord,
        slot: SlotNo,
    },
    /// The client of this slot has the link.
    Held {
        details: LinkRecord,
        key: ServerKey,
        hold: Hold,
        slot: SlotNo,
    },
    /// The link is free for any client.
    Idle {
        link: IdleLink<S>,
        key: ServerKey,
    },
    /// The link waits for cancel requests to end. The client of this slot gave it back, and hasn't
    /// left.
    Quarantined {
        link: QuarantinedLink<S>,
        key: ServerKey,
        hold: Hold,
        giver: Option<SlotNo>,
    },
}

impl<S: Drop> Entry<S> {
    pub(crate) fn place(&self) -> Place
        ensures { result ≡ place_of self.now }
    {
        let link = match self {
            Entry::Free => return Place::Free,
            Entry::Open { permit, slot } => return Place::Open(*permit, *slot),
            Entry::Held {
                details,
                key,
                hold,
                slot,
            } => Link {
                details: *details,
                key: *key,
                state: LinkState::Held(*slot),
                hold: *hold,
            },
            Entry::Idle { link, key } => Link {
                details: link.details(),
                key: *key,
                state: LinkState::Idle,
                hold: Hold::new(),
            },
            Entry::Quarantined {
                link,
                key,
                hold,
                giver,
            } => Link {
                details: link.details(),
                key: *key,
                state: LinkState::Quarantined(*giver),
                hold: *hold,
            },
        };
        Place::Link(link)
    }

    // Whether it is an idle link.
    #[inline(always)]
    pub(crate) fn is_idle(&self) -> bool
        ensures { result ≡ idle_entry (Some self.now) }
    {
        match self {
            Entry::Idle { .. } => true,
            Entry::Free | Entry::Open { .. } | Entry::Held { .. } | Entry::Quarantined { .. } => {
                false
            }
        }
    }

    // Whether nothing is there.
    #[inline(always)]
    pub(crate) fn is_free(&self) -> bool
        ensures { result ≡ free_entry (Some self.now) }
    {
        match self {
            Entry::Free => true,
            Entry::Open { .. }
            | Entry::Held { .. }
            | Entry::Idle { .. }
            | Entry::Quarantined { .. } => false,
        }
    }

    // What the client claims that has something here, or gave the link back.
    #[inline(always)]
    pub(crate) fn claim(&self, at: &LinkPlace) -> Claim
        ensures { result ≡ claim_of at.now self.now }
    {
        match self {
            Entry::Open { .. } => Claim::Open(*at),
            Entry::Held { .. } => Claim::Link(*at),
            Entry::Quarantined { giver: Some(_), .. } => Claim::Gave(*at),
            Entry::Free | Entry::Idle { .. } | Entry::Quarantined { giver: None, .. } => {
                Claim::Nothing
            }
        }
    }

    // The link of a lease with its client, if that client has it here.
    #[inline(always)]
    pub(crate) fn held(&self, lease: &LinkRecord) -> Option<Held>
        ensures held { IfSome result
            (λ found. IsHeldIn lease.now found.link found.slot (Some (place_of self.now))) }
        ensures stale { IfNone result (IsStaleIn lease.now (Some (place_of self.now))) }
    {
        let Entry::Held {
            details,
            key,
            hold,
            slot,
        } = self
        else {
            return None;
        };
        if *details != *lease {
            return None;
        }
        let link = Link {
            details: *details,
            key: *key,
            state: LinkState::Held(*slot),
            hold: *hold,
        };
        Some(Held { link, slot: *slot })
    }

    // The client of a slot gets the link, if no client has it. A quarantined link's tickets stay
    // open.
    pub(crate) fn lend(&mut self, slot: SlotNo) -> Option<Lease<S>>
        ensures lease { result ≡ stored_link self.old }
        ensures entry { self.new ≡ lent slot self.old }
    {
        let (details, key, hold) = match self {
            Entry::Idle { link, key } => (link.details(), *key, Hold::new()),
            Entry::Quarantined {
                link,
                key,
                hold,
                giver: _,
            } => (link.details(), *key, *hold),
            Entry::Free | Entry::Open { .. } | Entry::Held { .. } => return None,
        };
        let held = Entry::Held {
            details,
            key,
            hold,
            slot,
        };
        match std::mem::replace(self, held) {
            Entry::Idle { link, key: _ } => Some(link.hold()),
            Entry::Quarantined { link, .. } => Some(link.hold()),
            other => {
                *self = other;
                None
            }
        }
    }

    // The client of a slot gets the idle link.
    #[inline(always)]
    pub(crate) fn lend_idle(&mut self, slot: SlotNo) -> Option<Lease<S>>
        requires { idle_entry (Some self.old) ≡ true }
        ensures lease { result ≡ stored_link self.old }
        ensures entry { self.new ≡ lent slot self.old }
    {
        let Entry::Idle { link, key } = self else {
            return None;
        };
        let held = Entry::Held {
            details: link.details(),
            key: *key,
            hold: Hold::new(),
            slot,
        };
        match std::mem::replace(self, held) {
            Entry::Idle { link, key: _ } => Some(link.hold()),
            other => {
                *self = other;
                None
            }
        }
    }

    // The client that gave the link back has left.
    pub(crate) fn forget_giver(&mut self)
        ensures { self.new ≡ ungiven self.old }
    {
        match self {
            Entry::Quarantined { giver, .. } => *giver = None,
            Entry::Free | Entry::Open { .. } | Entry::Held { .. } | Entry::Idle { .. } => {}
        }
    }

    // The link has these tickets. If it is quarantined, then it is idle once none is open, and it
    // leaves its place once it is condemned: its stream is returned.
    pub(crate) fn settle(&mut self, to: Hold) -> Option<S>
        ensures stream { result ≡ leaving to self.old }
        ensures entry { self.new ≡ settled to self.old }
    {
        match self {
            Entry::Held { hold, .. } => {
                *hold = to;
                None
            }
            Entry::Quarantined { .. } => self.settle_quarantined(to),
            Entry::Free | Entry::Open { .. } | Entry::Idle { .. } => None,
        }
    }

    // The same, of a quarantined link.
    fn settle_quarantined(&mut self, to: Hold) -> Option<S>
        requires { IsQuarantined (Some self.old) }
        ensures stream { result ≡ leaving to self.old }
        ensures entry { self.new ≡ settled to self.old }
    {
        match std::mem::replace(self, Entry::Free) {
            Entry::Quarantined {
                link,
                key,
                hold: _,
                giver,
            } => match to.state() {
                HoldState::Clear => {
                    *self = Entry::Idle {
                        link: link.free(),
                        key,
                    };
                    None
                }
                HoldState::Waiting(_) => {
                    *self = Entry::Quarantined {
                        link,
                        key,
                        hold: to,
                        giver,
                    };
                    None
                }
                HoldState::Condemned => Some(link.close()),
            },
            other => {
                *self = other;
                None
            }
        }
    }
}
