//! The tickets of one link: a count, and whether one failed.
ghost use Rattle.std.specs.Prelude.{◌≡◌, ℕ, ◌<◌, ◌≤◌, ◌+◌, ◌-◌, ◌↔◌, true, false, IsErr, OnOk, OnErr};
ghost use Rattle.quarantine.specs.HoldStates.{state_of};
ghost use Rattle.quarantine.specs.declared.hold.HoldState.TheVariants.{Clear, Waiting, Condemned};

use crate::refusal::Busy;
use std::marker::Model;

/// How many tickets of one link may be open at once (own).
pub const MAX_OPEN_TICKETS: u16 = 65_535;

/// The state of a link by its tickets.
#[derive(Clone, Copy, Debug, PartialEq, Eq, Hash)]
pub enum HoldState {
    /// No ticket is open and none failed: the link may be used again.
    Clear,
    /// The number of open tickets, at least 1. None failed.
    Waiting(u16),
    /// A ticket failed: the link is never used again.
    Condemned,
}

/// What keeps one link from being used again: how many of its tickets are open, and whether one
/// failed.
#[derive(Clone, Copy, Debug, PartialEq, Eq, Hash, Default)]
pub struct Hold {
    tickets: u16,
    condemned: bool,
}

impl Model for Hold {
    ghost use Rattle.std.specs.Prelude.{◌≤◌};
    ghost use Rattle.quarantine.specs.OpenTickets.{OpenTickets};

    ghost Value = { OpenTickets };

    ghost view = { λ h. record { tickets = h.tickets; condemned = h.condemned } };

    ghost inverse = { λ t. record { tickets = t.tickets; condemned = t.condemned } };
}

impl Hold {
    /// The tickets of a new link: none is open, and none failed.
    pub const fn new() -> Hold
        ensures { result ≡ record { tickets = 0; condemned = false } }
    {
        Hold {
            tickets: 0,
            condemned: false,
        }
    }

    /// How many tickets are open, 0 to 65,535.
    pub const fn tickets(&self) -> u16
        ensures value { result ≡ self.now.tickets }
        ensures within { result ≤ MAX_OPEN_TICKETS }
    {
        self.tickets
    }

    /// The state of the link.
    pub const fn state(&self) -> HoldState
        ensures state { result ≡ state_of self.now }
        ensures clear { (result ≡ Clear) ↔ ((self.now.tickets ≡ 0) × (self.now.condemned ≡ false)) }
        ensures waiting { (n : ℕ) → (result ≡ Waiting n)
            ↔ ((self.now.tickets ≡ n) × (0 < n) × (self.now.condemned ≡ false)) }
        ensures condemned { (result ≡ Condemned) ↔ (self.now.condemned ≡ true) }
    {
        match (self.condemned, self.tickets) {
            (true, _) => HoldState::Condemned,
            (false, 0) => HoldState::Clear,
            (false, tickets) => HoldState::Waiting(tickets),
        }
    }

    /// Opens a ticket. A condemned link takes tickets too. Fails with `Busy` at `MAX_OPEN_TICKETS`.
    pub fn open_ticket(&mut self) -> Result<(), Busy>
        ensures busy { IsErr result ↔ (self.old.tickets ≡ MAX_OPEN_TICKETS) }
        ensures opened { OnOk result
            (self.new ≡ record self.old { tickets = self.old.tickets + 1 }) }
        ensures unchanged { OnErr result (self.new ≡ self.old) }
    {
        if self.tickets == MAX_OPEN_TICKETS {
            return Err(Busy);
        }
        self.tickets += 1;
        Ok(())
    }

    /// Ends an open ticket cleanly.
    pub fn clean_end(&mut self)
        requires { 0 < self.old.tickets }
        ensures { self.new ≡ record self.old { tickets = self.old.tickets - 1 } }
    {
        self.tickets -= 1;
    }

    /// Ends an open ticket that failed: the link is condemned from now on.
    pub fn fail(&mut self)
        requires { 0 < self.old.tickets }
        ensures { self.new ≡ record { tickets = self.old.tickets - 1; condemned = true } }
    {
        *self = Hold {
            tickets: self.tickets - 1,
            condemned: true,
        };
    }
}
