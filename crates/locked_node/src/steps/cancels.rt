//! The calls of a cancel request: it comes, and it ends.
ghost use Rattle.std.specs.Prelude.{◌≡◌};
ghost use Rattle.link_pool.specs.Said.{failed_said};
ghost use Rattle.link_pool.specs.Streams.{FailedStreams};
ghost use Rattle.link_pool.specs.declared.replies.EndedReply.TheVariants as ended;
ghost use Rattle.link_pool.specs.declared.replies.FailedReply.TheVariants as failed;
ghost use Rattle.node_core.specs.declared.exchange.Exchange.TheVariants as call;
ghost use Rattle.node_core.specs.declared.exchange.Order.TheVariants as order;
ghost use Rattle.node_core.specs.declared.refusal.CancelRefusal.TheVariants as cancel;

use crate::call::Call;
use crate::call_answer::CallAnswer;
use crate::call_note::CallNote;
use crate::log::Log;
use crate::numbers::{push_any_key, push_packet, push_server_key, push_ticket};
use crate::turn::Woken;
use cancel_router::RouteRefusal;
use node_core::{
    CancelRefusal, DatabaseNo, EndedReply, Exchange, FailedReply, NodeCore, Order, Ticket,
    TicketRecord,
};
use pg_ids::{AnyKey, Kind};

/// A cancel request with this key comes.
#[derive(Drop)]
pub struct Cancel(pub AnyKey);

impl<S: Drop> Call<S> for Cancel {
    type Reply = Order<Ticket>;

    type Details = AnyKey;

    ghost handed = { λ made. made.0 };

    ghost exchange = { λ made reply. call.Cancel made reply };

    ghost at_end = { λ _. order.Refused cancel.Exhausted };

    #[inline(always)]
    fn details(&self) -> Self::Details {
        self.0
    }

    #[inline(always)]
    fn make(self, core: &mut NodeCore<S>) -> Self::Reply {
        core.cancel(self.0)
    }

    #[inline(always)]
    fn database(&self, _core: &NodeCore<S>) -> Option<DatabaseNo> {
        None
    }

    #[inline(always)]
    fn record(details: &Self::Details, reply: &Self::Reply, log: &mut Log, note: &mut CallNote) {
        let key = details.kind();
        match reply {
            Order::Serve(ticket, database, server) => {
                let ticket = ticket.details();
                log.put(&Exchange::Cancel(*details, Order::Serve(ticket, *database, *server)));
                note.begin(CallAnswer::Served, key);
                push_ticket(&mut note.numbers, &ticket);
                note.numbers.push(u64::from(database.get()));
                push_any_key(&mut note.numbers, details);
                push_server_key(&mut note.numbers, server);
            }
            Order::Forward(peer, packet) => {
                log.put(&Exchange::Cancel(*details, Order::Forward(*peer, *packet)));
                note.begin(CallAnswer::Forwarded, key);
                note.numbers.push(u64::from(peer.get()));
                push_any_key(&mut note.numbers, details);
                push_packet(&mut note.numbers, packet);
            }
            Order::Unwait(slot) => {
                log.put(&Exchange::Cancel(*details, Order::Unwait(*slot)));
                note.begin(CallAnswer::Unwaited, key);
                note.turn.woken = Woken::One(*slot);
                note.numbers.push(u64::from(slot.get()));
                push_any_key(&mut note.numbers, details);
            }
            Order::Refused(refusal) => {
                let answer = match refusal {
                    CancelRefusal::Route(RouteRefusal::Spent) => CallAnswer::CancelSpent,
                    CancelRefusal::Route(RouteRefusal::Unknown) => CallAnswer::CancelUnknown,
                    CancelRefusal::Route(RouteRefusal::NoPeer) => CallAnswer::CancelNoPeer,
                    CancelRefusal::Route(RouteRefusal::NoLink) => CallAnswer::CancelNoLink,
                    CancelRefusal::Busy => CallAnswer::CancelBusy,
                    CancelRefusal::Exhausted => CallAnswer::CancelExhausted,
                };
                log.put(&Exchange::Cancel(*details, Order::Refused(*refusal)));
                note.begin(answer, key);
                push_any_key(&mut note.numbers, details);
            }
        }
    }

    fn forfeit(self) -> Self::Reply {
        Order::Refused(CancelRefusal::Exhausted)
    }
}

/// A cancel request has ended cleanly.
pub struct Ended(pub Ticket);

impl<S: Drop> Call<S> for Ended {
    type Reply = EndedReply;

    type Details = TicketRecord;

    ghost handed = { λ made. made.0 };

    ghost exchange = { λ made reply. call.Ended made reply };

    ghost at_end = { λ _. ended.Exhausted };

    #[inline(always)]
    fn details(&self) -> Self::Details {
        self.0.details()
    }

    #[inline(always)]
    fn make(self, core: &mut NodeCore<S>) -> Self::Reply {
        let Ended(ticket) = self;
        core.ended(ticket)
    }

    #[inline(always)]
    fn database(&self, _core: &NodeCore<S>) -> Option<DatabaseNo> {
        Some(self.0.details().at.database)
    }

    #[inline(always)]
    fn record(details: &Self::Details, reply: &Self::Reply, log: &mut Log, note: &mut CallNote) {
        let answer = match reply {
            EndedReply::Freed => CallAnswer::EndedFreed,
            EndedReply::Counted => CallAnswer::EndedCounted,
            EndedReply::Stale => CallAnswer::EndedStale,
            EndedReply::Exhausted => CallAnswer::EndedExhausted,
        };
        log.put(&Exchange::Ended(*details, *reply));
        note.begin(answer, Kind::Short);
        push_ticket(&mut note.numbers, details);
    }

    fn forfeit(self) -> Self::Reply {
        let Ended(ticket) = self;
        ticket.forfeit();
        EndedReply::Exhausted
    }
}

/// A cancel request hasn't ended cleanly.
pub struct Failed(pub Ticket);

impl<S: Drop> Call<S> for Failed {
    type Reply = FailedReply<S>;

    type Details = TicketRecord;

    ghost handed = { λ made. made.0 };

    ghost exchange = { λ made reply. call.Failed made (failed_said reply) };

    ghost streams = { λ made reply. FailedStreams made.0.at reply };

    ghost at_end = { λ _. failed.Exhausted };

    #[inline(always)]
    fn details(&self) -> Self::Details {
        self.0.details()
    }

    #[inline(always)]
    fn make(self, core: &mut NodeCore<S>) -> Self::Reply {
        let Failed(ticket) = self;
        core.failed(ticket)
    }

    #[inline(always)]
    fn database(&self, _core: &NodeCore<S>) -> Option<DatabaseNo> {
        Some(self.0.details().at.database)
    }

    #[inline(always)]
    fn record(details: &Self::Details, reply: &Self::Reply, log: &mut Log, note: &mut CallNote) {
        let (answer, said) = match reply {
            FailedReply::Condemned => (CallAnswer::FailedCondemned, FailedReply::Condemned),
            FailedReply::Closed(_) => (CallAnswer::FailedClosed, FailedReply::Closed(())),
            FailedReply::Stale => (CallAnswer::FailedStale, FailedReply::Stale),
            FailedReply::Exhausted => (CallAnswer::FailedExhausted, FailedReply::Exhausted),
        };
        log.put(&Exchange::Failed(*details, said));
        note.begin(answer, Kind::Short);
        push_ticket(&mut note.numbers, details);
    }

    fn forfeit(self) -> Self::Reply {
        let Failed(ticket) = self;
        ticket.forfeit();
        FailedReply::Exhausted
    }
}
