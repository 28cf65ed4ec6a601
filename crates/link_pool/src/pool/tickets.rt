//! Cancel requests that are on their way, and how they end.
ghost use Rattle.std.specs.Prelude.{◌≡◌, ◌≢◌, ◌≤◌, ◌<◌, Some, is_some, IfSome, IfNone, length, slice_get};
ghost use Rattle.lease.specs.declared.link_place.LinkPlace.{LinkPlace as LinkPlaceOf};
ghost use Rattle.link_pool.specs.declared.place.Place.TheVariants as place;
ghost use Rattle.link_pool.specs.declared.place.LinkState.TheVariants as state;
ghost use Rattle.link_pool.specs.declared.place.Claim.TheVariants as claim;
ghost use Rattle.link_pool.specs.declared.place.Link.{Link as LinkOf};
ghost use Rattle.link_pool.specs.Pool.{place_at, with_place, claims_without, nothing_for};
ghost use Rattle.link_pool.specs.OnePlace.{IsPool, LinkFits};
ghost use Rattle.link_pool.specs.PoolStep.{IsTicket, StaleTicket, EndedStep, FailedStep, ServeStep};
ghost use Rattle.link_pool.specs.Parts.{IsLent, Leaves, settled_place, settled_giver, is_leaving};
ghost use Rattle.link_pool.specs.Streams.{FailedStreams};
ghost use Rattle.link_pool.specs.Said.{failed_said};

use super::Pool;
use crate::place::{Claim, Link, Place};
use crate::replies::{EndedReply, FailedReply, ServeReply};
use lease::{LinkPlace, LinkRecord, Ticket, TicketRecord};
use pg_ids::SlotNo;
use quarantine::{Hold, HoldState};

impl<S: Drop> Pool<S> {
    // A link that isn't idle has these tickets. If it is quarantined, then it is idle once none is
    // open, and it leaves the pool once it is condemned: its stream is returned. In both cases the
    // client that gave it back can't get it back.
    fn settle(&mut self, link: &Link, hold: Hold) -> Option<S>
        requires was { place_at self.old.view link.now.details.at ≡ Some (place.Link link.now) }
        requires not_idle { link.now.state ≢ state.Idle }
        requires few { hold.tickets ≤ 65535 }
        ensures view { self.new.view
            ≡ nothing_for (settled_giver link.now.state hold)
            (with_place self.old.view link.now.details.at
            (settled_place hold (place.Link link.now))) }
        ensures streams { Leaves link.now.details.at result self.old.stored self.new.stored }
        ensures leaves { is_some result ≡ is_leaving hold (place.Link link.now) }
        ensures whole { IsPool self.new.view }
    {
        clear_claim(&mut self.claims, freed_giver(link, hold));
        let pool = &mut self.pools[link.details.at.database.get() as usize];
        pool.settle(link.details.at.index, hold)
    }

    // The link of a ticket, if it has an open ticket.
    fn of_ticket(&self, ticket: &TicketRecord) -> Option<Link>
        ensures found { IfSome result (λ link. IsTicket ticket.now link self.now.view
            × LinkFits self.now.view ticket.now.at link) }
        ensures stale { IfNone result (StaleTicket ticket.now self.now.view) }
        ensures whole { IsPool self.now.view }
    {
        let Some(Place::Link(link)) = self.place(ticket.at) else {
            return None;
        };
        let details = LinkRecord {
            peer: ticket.peer,
            incarnation: ticket.incarnation,
            link: ticket.link,
            at: ticket.at,
        };
        if link.details != details || link.hold.tickets() == 0 {
            return None;
        }
        Some(link)
    }

    /// A cancel request has ended cleanly.
    pub fn ended(&mut self, ticket: Ticket) -> EndedReply
        ensures step { EndedStep ticket result self.old.view self.new.view }
        ensures streams { self.new.stored ≡ self.old.stored }
        ensures whole { IsPool self.new.view }
    {
        let Some(link) = self.of_ticket(&ticket.spend()) else {
            return EndedReply::Stale;
        };
        let mut hold = link.hold();
        hold.clean_end();
        let _none = self.settle(&link, hold);
        if link.is_quarantined() && hold.tickets() == 0 {
            EndedReply::Freed
        } else {
            EndedReply::Counted
        }
    }

    /// A cancel request hasn't ended cleanly.
    pub fn failed(&mut self, ticket: Ticket) -> FailedReply<S>
        ensures step { FailedStep ticket (failed_said result) self.old.view self.new.view }
        ensures streams { FailedStreams ticket.at result self.old.stored self.new.stored }
        ensures whole { IsPool self.new.view }
    {
        let Some(link) = self.of_ticket(&ticket.spend()) else {
            return FailedReply::Stale;
        };
        let mut hold = link.hold();
        hold.fail();
        match self.settle(&link, hold) {
            Some(stream) => FailedReply::Closed(stream),
            None => FailedReply::Condemned,
        }
    }

    // The link of a place, if there is one.
    fn link_at(&self, at: LinkPlace) -> Option<Link>
        ensures link { IfSome result (λ link. place_at self.now.view at ≡ Some (place.Link link)) }
        ensures none { IfNone result
            ((link : LinkOf) → place_at self.now.view at ≢ Some (place.Link link)) }
    {
        let Some(Place::Link(link)) = self.place(at) else {
            return None;
        };
        Some(link)
    }

    // The link that the client of a slot has.
    fn lent(&self, slot: SlotNo) -> Option<Link>
        ensures lent { IfSome result (λ link. IsLent slot link.details.at link self.now.view) }
        ensures none { IfNone result
            ((at : LinkPlaceOf) → slice_get self.now.view.claims slot ≢ Some (claim.Link at)) }
        ensures whole { IsPool self.now.view }
    {
        let Some(claim) = self.claim(slot) else {
            return None;
        };
        let Some(at) = claim.link() else {
            return None;
        };
        let Some(link) = self.link_at(at) else {
            return None;
        };
        Some(link)
    }

    // What the ticket with this number carries, for this link.
    fn ticket(&self, number: u64, link: &Link) -> TicketRecord
        ensures { result ≡ record {
          peer = self.now.view.peer;
          incarnation = self.now.view.incarnation;
          number = number;
          link = link.now.details.link;
          at = link.now.details.at;
        } }
    {
        TicketRecord {
            peer: self.peer,
            incarnation: self.incarnation,
            number,
            link: link.details.link,
            at: link.details.at,
        }
    }

    /// A cancel request for the client of a slot. It goes to the server of the link that this very
    /// client has.
    pub fn serve(&mut self, slot: SlotNo) -> ServeReply<Ticket>
        ensures step { ServeStep slot result self.old.view self.new.view }
        ensures streams { self.new.stored ≡ self.old.stored }
        ensures whole { IsPool self.new.view }
    {
        let Some(link) = self.lent(slot) else {
            return ServeReply::NoLink;
        };
        let mut hold = link.hold();
        let Ok(()) = hold.open_ticket() else {
            return ServeReply::Busy;
        };
        let Some(number) = self.next_ticket.give() else {
            return ServeReply::Exhausted;
        };
        let _none = self.settle(&link, hold);
        let ticket = Ticket::new(self.ticket(number, &link));
        ServeReply::Serve(ticket, link.at().database, link.key)
    }
}

// The client that gave a link back, if it can't get it back once the link has these tickets.
fn freed_giver(link: &Link, hold: Hold) -> Option<SlotNo>
    ensures { result ≡ settled_giver link.now.state hold }
{
    match hold.state() {
        HoldState::Waiting(_) => None,
        HoldState::Clear | HoldState::Condemned => link.giver(),
    }
}

// The client of the slot has nothing, if there is a slot.
fn clear_claim(claims: &mut Vec<Claim>, slot: Option<SlotNo>)
    requires { IfSome slot (λ slot. slot < length claims.old.items) }
    ensures { claims.new.items ≡ claims_without slot claims.old.items }
{
    if let Some(slot) = slot {
        claims[slot.get() as usize] = Claim::Nothing;
    }
}
