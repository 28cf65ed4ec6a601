//! Turns on leased links over streams in memory, and which call each makes of its desk.
ghost use Rattle.std.specs.Prelude.{◌≡◌, IfOk};
ghost use Rattle.node_threads.specs.Progress.{asking};

use crate::linked::link_over;
use crate::wire::Wire;
use client_state::{Act, Client, DatabaseNo, Request};
use lease::{Lease, LinkPlace, LinkRecord, Permit, PermitRecord};
use node_threads::{Context, DeskCall, ListDesk, Open, Stayed, turn};
use pg_frames::{Body, Cutter, Frame, MessageLimit};
use pg_ids::{LinkNo, PeerNo};
use std::alloc::AllocError;
use std::process::Abort;
use std::sync::Wait;
use std::test::Fail;

// Where the link of a lease is in its node's pool.
const AT: LinkPlace = LinkPlace {
    database: DatabaseNo(3),
    index: 5,
};

// The record of a lease of link 7.
fn link_record(peer: PeerNo) -> LinkRecord {
    LinkRecord {
        peer,
        incarnation: 3,
        link: LinkNo(7),
        at: AT,
    }
}

// The lease of this link.
fn lease_of<S>(details: LinkRecord, stream: S) -> Lease<S>
    ensures { result.stream ≡ stream }
{
    let permit = Permit::new(PermitRecord {
        peer: details.peer,
        incarnation: details.incarnation,
        number: 4,
        at: details.at,
    });
    permit.up(details.link, stream)
}

// How a stay ends.
#[derive(Clone, Copy, Debug, PartialEq, Eq)]
enum Ending<'a> {
    Release,
    Close,
    End(&'a [u8]),
}

use Ending::{Close, End, Release};

fn ending_of(stayed: &Stayed) -> Ending<'_> {
    match stayed {
        Stayed::Release => Release,
        Stayed::Close => Close,
        Stayed::End(reply) => End(reply.as_slice()),
    }
}

// A client with this limit that asks for the begin of a transaction, and its request.
fn begin(
    rt: &(impl Abort + AllocGlobal),
    limit: MessageLimit,
) -> Result<(Client, Request), AllocError>
    ensures session { IfOk result (λ made. made.0 ≡ asking made.0.limit made.0.database) }
    ensures limit { IfOk result (λ made. made.0.limit ≡ limit) }
{
    let mut client = Client::with_limit(rt.alloc(), limit, DatabaseNo(3));
    let body = Body::from_slice(rt.alloc(), b"begin\0")?;
    match client.on_client(&Frame { kind: b'Q', body }) {
        Act::Need(request) => Ok((client, request)),
        _ => Err(AllocError),
    }
}

// Replies: a query's, with a row; and BEGIN's.
const ROW: &[u8] = b"T\0\0\0\x1a\0\x01a\0\0\0\0\0\0\0\0\0\0\x17\0\x04\xff\xff\xff\xff\0\0\
    D\0\0\0\x0b\0\x01\0\0\0\x011C\0\0\0\x0dSELECT 1\0Z\0\0\0\x05I";

const BEGUN: &[u8] = b"C\0\0\0\x0aBEGIN\0Z\0\0\0\x05T";

// A turn on such a link ends so, and makes this one call of its desk.
fn assert_turn<'a, R: Abort + AllocGlobal + Wait>(
    rt: &R,
    record: LinkRecord,
    on_link: &'a [&'a [u8]],
    ending: Ending<'_>,
    call: DeskCall,
) -> Result<(), Fail> {
    let (mut session, request) = begin(rt, MessageLimit::DEFAULT)?;
    let mut client = Wire::new(rt.alloc(), &[])?;
    let mut cutter = Cutter::new(rt.alloc());
    let mut desk = ListDesk::new(rt.alloc(), 1)?;
    let wire = Wire::new(rt.alloc(), on_link)?;
    let link = link_over(rt, rt.alloc(), MessageLimit::DEFAULT, wire)?;
    let lease = lease_of(record, link);
    let stayed = turn(
        Context { rt, gate: &Open },
        &mut desk,
        &mut session,
        &mut client,
        &mut cutter,
        lease,
        request,
    );
    assert_eq!(rt; ending_of(&stayed), ending);
    assert_eq!(rt; desk.calls(), [call].as_slice());
    Ok(())
}

// The link is given back only after a reply with which it is idle and behind which nothing stands.
#[test]
fn leases_handed_in(rt: HostRuntime) -> Result<(), Fail> {
    let record = link_record(PeerNo::new(2).ok_or("no peer 2")?);
    let release = DeskCall::Release(record);
    let close = DeskCall::Close(record);
    assert_turn(&rt, record, &[ROW], Release, release)?;
    assert_turn(&rt, record, &[b"Z\0\0\0\x05IN"], Close, close)?;
    assert_turn(&rt, record, &[BEGUN], End(b""), close)
}
