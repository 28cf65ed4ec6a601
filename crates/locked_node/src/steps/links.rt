//! The calls about an open link, and about one that couldn't be opened.
ghost use Rattle.link_pool.specs.Said.{up_said, release_said, close_said};
ghost use Rattle.link_pool.specs.Streams.{UpStreams, ReleaseStreams, CloseStreams};
ghost use Rattle.link_pool.specs.declared.replies.UpReply.TheVariants as up;
ghost use Rattle.link_pool.specs.declared.replies.UpFailedReply.TheVariants as failing;
ghost use Rattle.link_pool.specs.declared.replies.ReleaseReply.TheVariants as release;
ghost use Rattle.link_pool.specs.declared.replies.CloseReply.TheVariants as close;
ghost use Rattle.node_core.specs.declared.exchange.Exchange.TheVariants as call;

use crate::call::Call;
use crate::call_answer::CallAnswer;
use crate::call_note::CallNote;
use crate::log::Log;
use crate::numbers::{push_link, push_permit, push_server_key};
use node_core::{
    CloseReply, DatabaseNo, Exchange, Lease, LinkRecord, NodeCore, Permit, PermitRecord,
    ReleaseReply, UpFailedReply, UpReply,
};
use pg_ids::{Kind, ServerKey};

/// A link is open, over this stream, and its server cancels by this key.
pub struct Up<S>(pub Permit, pub S, pub ServerKey);

impl<S: Drop> Call<S> for Up<S> {
    type Reply = UpReply<Lease<S>, Permit, S>;

    type Details = (PermitRecord, ServerKey);

    ghost handed = { λ made. (made.0, made.2) };

    ghost exchange = { λ made reply. call.Up made.0 made.1 (up_said reply) };

    ghost streams = { λ made reply. UpStreams made.1 reply };

    ghost at_end = { λ made. up.AtEnd made.1 };

    #[inline(always)]
    fn details(&self) -> Self::Details {
        (self.0.details(), self.2)
    }

    #[inline(always)]
    fn make(self, core: &mut NodeCore<S>) -> Self::Reply {
        let Up(permit, stream, key) = self;
        core.up(permit, stream, key)
    }

    #[inline(always)]
    fn database(&self, _core: &NodeCore<S>) -> Option<DatabaseNo> {
        None
    }

    #[inline(always)]
    fn record(details: &Self::Details, reply: &Self::Reply, log: &mut Log, note: &mut CallNote) {
        let (permit, key) = details;
        match reply {
            UpReply::Up(lease) => {
                let lease = lease.details();
                log.put(&Exchange::Up(*permit, *key, UpReply::Up(lease)));
                note.begin(CallAnswer::WentUp, Kind::Short);
                push_permit(&mut note.numbers, permit);
                push_link(&mut note.numbers, &lease);
            }
            UpReply::Exhausted(again, _) => {
                let again = again.details();
                log.put(&Exchange::Up(*permit, *key, UpReply::Exhausted(again, ())));
                note.begin(CallAnswer::UpExhausted, Kind::Short);
                push_permit(&mut note.numbers, permit);
                push_permit(&mut note.numbers, &again);
            }
            UpReply::Stale(_) => {
                log.put(&Exchange::Up(*permit, *key, UpReply::Stale(())));
                note.begin(CallAnswer::UpStale, Kind::Short);
                push_permit(&mut note.numbers, permit);
            }
            UpReply::AtEnd(_) => {
                log.put(&Exchange::Up(*permit, *key, UpReply::AtEnd(())));
                note.begin(CallAnswer::UpAtEnd, Kind::Short);
                push_permit(&mut note.numbers, permit);
            }
        }
        push_server_key(&mut note.numbers, key);
    }

    fn forfeit(self) -> Self::Reply {
        let Up(permit, stream, _) = self;
        permit.forfeit();
        UpReply::AtEnd(stream)
    }
}

/// A link couldn't be opened.
pub struct UpFailed(pub Permit);

impl<S: Drop> Call<S> for UpFailed {
    type Reply = UpFailedReply;

    type Details = PermitRecord;

    ghost handed = { λ made. made.0 };

    ghost exchange = { λ made reply. call.UpFailed made reply };

    ghost at_end = { λ _. failing.Exhausted };

    #[inline(always)]
    fn details(&self) -> Self::Details {
        self.0.details()
    }

    #[inline(always)]
    fn make(self, core: &mut NodeCore<S>) -> Self::Reply {
        let UpFailed(permit) = self;
        core.up_failed(permit)
    }

    #[inline(always)]
    fn database(&self, _core: &NodeCore<S>) -> Option<DatabaseNo> {
        Some(self.0.details().at.database)
    }

    #[inline(always)]
    fn record(details: &Self::Details, reply: &Self::Reply, log: &mut Log, note: &mut CallNote) {
        let answer = match reply {
            UpFailedReply::Freed => CallAnswer::UpFailedFreed,
            UpFailedReply::Stale => CallAnswer::UpFailedStale,
            UpFailedReply::Exhausted => CallAnswer::UpFailedExhausted,
        };
        log.put(&Exchange::UpFailed(*details, *reply));
        note.begin(answer, Kind::Short);
        push_permit(&mut note.numbers, details);
    }

    fn forfeit(self) -> Self::Reply {
        let UpFailed(permit) = self;
        permit.forfeit();
        UpFailedReply::Exhausted
    }
}

/// A client gives its link back.
pub struct Release<S>(pub Lease<S>);

impl<S: Drop> Call<S> for Release<S> {
    type Reply = ReleaseReply<S>;

    type Details = LinkRecord;

    ghost handed = { λ made. made.0.details };

    ghost exchange = { λ made reply. call.Release made (release_said reply) };

    ghost streams = { λ made reply. ReleaseStreams made.0 reply };

    ghost at_end = { λ made. release.Exhausted made.0.stream };

    #[inline(always)]
    fn details(&self) -> Self::Details {
        self.0.details()
    }

    #[inline(always)]
    fn make(self, core: &mut NodeCore<S>) -> Self::Reply {
        let Release(lease) = self;
        core.release(lease)
    }

    #[inline(always)]
    fn database(&self, _core: &NodeCore<S>) -> Option<DatabaseNo> {
        Some(self.0.details().at.database)
    }

    #[inline(always)]
    fn record(details: &Self::Details, reply: &Self::Reply, log: &mut Log, note: &mut CallNote) {
        match reply {
            ReleaseReply::Idle => {
                log.put_released(details);
                note.begin(CallAnswer::ReleasedIdle, Kind::Short);
            }
            ReleaseReply::Quarantined => {
                log.put(&Exchange::Release(*details, ReleaseReply::Quarantined));
                note.begin(CallAnswer::ReleasedQuarantined, Kind::Short);
            }
            ReleaseReply::Closed(_) => {
                log.put(&Exchange::Release(*details, ReleaseReply::Closed(())));
                note.begin(CallAnswer::ReleasedClosed, Kind::Short);
            }
            ReleaseReply::Stale(_) => {
                log.put(&Exchange::Release(*details, ReleaseReply::Stale(())));
                note.begin(CallAnswer::ReleaseStale, Kind::Short);
            }
            ReleaseReply::Exhausted(_) => {
                log.put(&Exchange::Release(*details, ReleaseReply::Exhausted(())));
                note.begin(CallAnswer::ReleaseExhausted, Kind::Short);
            }
        }
        push_link(&mut note.numbers, details);
    }

    fn forfeit(self) -> Self::Reply {
        let Release(lease) = self;
        ReleaseReply::Exhausted(lease.forfeit())
    }
}

/// A link leaves the pool.
pub struct Close<S>(pub Lease<S>);

impl<S: Drop> Call<S> for Close<S> {
    type Reply = CloseReply<S>;

    type Details = LinkRecord;

    ghost handed = { λ made. made.0.details };

    ghost exchange = { λ made reply. call.Close made (close_said reply) };

    ghost streams = { λ made reply. CloseStreams made.0 reply };

    ghost at_end = { λ made. close.Exhausted made.0.stream };

    #[inline(always)]
    fn details(&self) -> Self::Details {
        self.0.details()
    }

    #[inline(always)]
    fn make(self, core: &mut NodeCore<S>) -> Self::Reply {
        let Close(lease) = self;
        core.close(lease)
    }

    #[inline(always)]
    fn database(&self, _core: &NodeCore<S>) -> Option<DatabaseNo> {
        Some(self.0.details().at.database)
    }

    #[inline(always)]
    fn record(details: &Self::Details, reply: &Self::Reply, log: &mut Log, note: &mut CallNote) {
        let (answer, said) = match reply {
            CloseReply::Closed(_) => (CallAnswer::Closed, CloseReply::Closed(())),
            CloseReply::Stale(_) => (CallAnswer::CloseStale, CloseReply::Stale(())),
            CloseReply::Exhausted(_) => (CallAnswer::CloseExhausted, CloseReply::Exhausted(())),
        };
        log.put(&Exchange::Close(*details, said));
        note.begin(answer, Kind::Short);
        push_link(&mut note.numbers, details);
    }

    fn forfeit(self) -> Self::Reply {
        let Close(lease) = self;
        CloseReply::Exhausted(lease.forfeit())
    }
}
