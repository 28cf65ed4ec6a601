//! What a node's replies are called in a world.
ghost use Rattle.std.specs.Prelude.{◌≡◌};
ghost use Rattle.world.specs.LinkEvents.{failing_said, released, closed};
ghost use Rattle.world.specs.CancelEvents.{ended_as, failed_as};

use crate::reply::Reply;
use node_core::{CloseReply, EndedReply, FailedReply, ReleaseReply, UpFailedReply};

/// That no link could be opened.
pub(super) fn failing(reply: UpFailedReply) -> Reply
    ensures { result ≡ failing_said reply }
{
    match reply {
        UpFailedReply::Freed => Reply::Freed,
        UpFailedReply::Stale => Reply::Stale,
        UpFailedReply::Exhausted => Reply::Exhausted,
    }
}

/// That a link was given back.
pub(super) fn releasing(reply: ReleaseReply<()>) -> Reply
    ensures { result ≡ released reply }
{
    match reply {
        ReleaseReply::Idle => Reply::Idle,
        ReleaseReply::Quarantined => Reply::Quarantined,
        ReleaseReply::Closed(()) => Reply::Closed,
        ReleaseReply::Stale(()) => Reply::Stale,
        ReleaseReply::Exhausted(()) => Reply::Exhausted,
    }
}

/// That a link was closed.
pub(super) fn closing(reply: CloseReply<()>) -> Reply
    ensures { result ≡ closed reply }
{
    match reply {
        CloseReply::Closed(()) => Reply::Closed,
        CloseReply::Stale(()) => Reply::Stale,
        CloseReply::Exhausted(()) => Reply::Exhausted,
    }
}

/// That a cancel request ended cleanly.
pub(super) fn ending(reply: EndedReply) -> Reply
    ensures { result ≡ ended_as reply }
{
    match reply {
        EndedReply::Freed => Reply::Freed,
        EndedReply::Counted => Reply::Counted,
        EndedReply::Stale => Reply::Stale,
        EndedReply::Exhausted => Reply::Exhausted,
    }
}

/// That a cancel request didn't end cleanly.
pub(super) fn breaking(reply: FailedReply<()>) -> Reply
    ensures { result ≡ failed_as reply }
{
    match reply {
        FailedReply::Condemned => Reply::Condemned,
        FailedReply::Closed(()) => Reply::Closed,
        FailedReply::Stale => Reply::Stale,
        FailedReply::Exhausted => Reply::Exhausted,
    }
}
