//! Steps for the tests, through a lock: what each hands out, or that it was another answer.
ghost use Rattle.std.specs.Prelude.{◌≡◌, ◌<◌, length};

use crate::lock::nodes::{Caller, Shared, Stream};
use node_core::{AcquireReply, DatabaseNo, Lease, Pass, Permit, UpReply};
use pg_ids::{Kind, Secret, ServerKey};
use std::sync::Wait;

const SHOP: DatabaseNo = DatabaseNo(0);

// Another answer than the one that is waited for.
#[derive(Clone, Copy, Debug, PartialEq, Eq)]
pub(crate) struct Other;

fn opened(reply: AcquireReply<Lease<Stream>, Permit>) -> Result<Permit, Other> {
    match reply {
        AcquireReply::Open(permit) => Ok(permit),
        AcquireReply::Got(lease) => {
            let _stream = lease.forfeit();
            Err(Other)
        }
        AcquireReply::Waiting
        | AcquireReply::Cancelled
        | AcquireReply::Holding
        | AcquireReply::Exhausted
        | AcquireReply::Stale => Err(Other),
    }
}

// Whether the client was to wait for a link.
pub(crate) fn waits(reply: AcquireReply<Lease<Stream>, Permit>) -> bool {
    match reply {
        AcquireReply::Waiting => true,
        AcquireReply::Got(lease) => {
            let _stream = lease.forfeit();
            false
        }
        AcquireReply::Open(permit) => {
            let _details = permit.forfeit();
            false
        }
        AcquireReply::Cancelled
        | AcquireReply::Holding
        | AcquireReply::Exhausted
        | AcquireReply::Stale => false,
    }
}

fn went_up(reply: UpReply<Lease<Stream>, Permit, Stream>) -> Result<Lease<Stream>, Other> {
    match reply {
        UpReply::Up(lease) => Ok(lease),
        UpReply::Exhausted(permit, _stream) => {
            let _details = permit.forfeit();
            Err(Other)
        }
        UpReply::Stale(_stream) | UpReply::AtEnd(_stream) => Err(Other),
    }
}

// A client logs in, and gets a key of this kind.
pub(crate) fn login<R: Wait>(
    rt: &R,
    shared: &Shared,
    caller: &mut Caller,
    secret: u32,
    kind: Kind,
) -> Result<Pass, Other>
    requires own { caller.old.lock ≡ shared.now }
    requires database { 0 < length caller.old.start.view.pools }
    ensures { (caller.new.lock ≡ caller.old.lock) × (caller.new.start ≡ caller.old.start) }
{
    shared
        .join(rt, caller, SHOP, Secret(secret), kind)
        .map_err(|_| Other)
}

// The client of a pass opens a link, whose server has this key.
pub(crate) fn open<R: Wait>(
    rt: &R,
    shared: &Shared,
    caller: &mut Caller,
    pass: &Pass,
    stream: u8,
    key: ServerKey,
) -> Result<Lease<Stream>, Other>
    requires own { caller.old.lock ≡ shared.now }
    ensures { (caller.new.lock ≡ caller.old.lock) × (caller.new.start ≡ caller.old.start) }
{
    let permit = opened(shared.acquire(rt, caller, pass))?;
    went_up(shared.up(rt, caller, permit, Stream(stream), key))
}
