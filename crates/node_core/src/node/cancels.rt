//! Cancel requests: where each goes, and how it ends.
ghost use Rattle.std.specs.Prelude.{◌≡◌};
ghost use Rattle.cancel_router.specs.declared.decision.Route.TheVariants.{Send};
ghost use Rattle.cancel_router.specs.declared.table_view.Standing.TheVariants.{Holds};
ghost use Rattle.link_pool.specs.Said.{failed_said};
ghost use Rattle.link_pool.specs.Streams.{FailedStreams};
ghost use Rattle.node_core.specs.declared.exchange.Exchange.TheVariants as call;
ghost use Rattle.node_core.specs.NodeStep.{IsStep, Orders, route_of, standing_in};

use super::NodeCore;
use crate::exchange::Order;
use crate::refusal::CancelRefusal;
use cancel_router::{Route, Standing, TableView, decide};
use lease::Ticket;
use link_pool::{Claim, EndedReply, FailedReply, Place, ServeReply};
use pg_ids::{AnyKey, LinkNo, SlotNo};
use startup::write_cancel;

/// The slots, and who has a link or waits for one.
impl<S: Drop> TableView for NodeCore<S> {
    ghost use Rattle.node_core.specs.NodeStep.{standing_in};

    ghost slots = { λ v. v.view.keys };

    ghost standing = { λ v. standing_in v.view };

    fn find(&self, key: &AnyKey) -> Option<SlotNo> {
        self.keys.find(key)
    }

    fn standing(&self, slot: SlotNo) -> Standing {
        match self.links.claim(slot) {
            Some(Claim::Link(at)) => match self.links.place(at) {
                Some(Place::Link(link)) => Standing::Holds(link.details.link),
                _ => Standing::Without,
            },
            Some(Claim::Waiting(_)) => Standing::Waits,
            _ => Standing::Without,
        }
    }
}

impl<S: Drop> NodeCore<S> {
    /// A cancel request with this key comes.
    pub fn cancel(&mut self, key: AnyKey) -> Order<Ticket>
        ensures step { IsStep (call.Cancel key result) self.old self.new }
        ensures streams { self.new.stored ≡ self.old.stored }
    {
        match self.route(key) {
            Route::Forward(peer, lowered) => Order::Forward(peer, write_cancel(lowered)),
            Route::Refused(refusal) => Order::Refused(CancelRefusal::Route(refusal)),
            Route::Send(link) => self.serve(key.slot(), link),
            Route::Unwait(slot) => {
                self.links.unwait(slot);
                Order::Unwait(slot)
            }
        }
    }

    // Where a request with this key goes.
    fn route(&self, key: AnyKey) -> Route
        ensures { result ≡ route_of self.now.view key }
    {
        decide(self.me, self, &self.peers, key)
    }

    // A ticket for the link that the client of a slot has.
    fn serve(&mut self, slot: SlotNo, link: LinkNo) -> Order<Ticket>
        requires { standing_in self.old.view slot ≡ Holds link }
        ensures order { Orders slot (Send link) result self.old.view self.new.view }
        ensures streams { self.new.stored ≡ self.old.stored }
    {
        match self.links.serve(slot) {
            ServeReply::Serve(ticket, database, key) => Order::Serve(ticket, database, key),
            ServeReply::NoLink => unreachable!(),
            ServeReply::Busy => Order::Refused(CancelRefusal::Busy),
            ServeReply::Exhausted => Order::Refused(CancelRefusal::Exhausted),
        }
    }

    /// A cancel request has ended cleanly.
    pub fn ended(&mut self, ticket: Ticket) -> EndedReply
        ensures step { IsStep (call.Ended ticket result) self.old self.new }
        ensures streams { self.new.stored ≡ self.old.stored }
    {
        self.links.ended(ticket)
    }

    /// A cancel request hasn't ended cleanly.
    pub fn failed(&mut self, ticket: Ticket) -> FailedReply<S>
        ensures step { IsStep (call.Failed ticket (failed_said result)) self.old self.new }
        ensures streams { FailedStreams ticket.at result self.old.stored self.new.stored }
    {
        self.links.failed(ticket)
    }
}
