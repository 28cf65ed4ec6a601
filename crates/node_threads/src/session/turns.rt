//! A session's turn on the link of its lease.
ghost use Rattle.std.specs.Prelude.{◌≡◌, [], None};
ghost use Rattle.pg_frames.specs.Passage.{start};
ghost use Rattle.session_io.specs.declared.session.outcome.Stayed.TheVariants.{Release};
ghost use Rattle.session_io.specs.StreamCalls.{SomeCalls};
ghost use Rattle.session_io.specs.Progress.{asking, LeavesBehind};
ghost use Rattle.session_io.specs.Stay.{Stay};
ghost use Rattle.node_threads.specs.Turn.{handed_in, GoesOnWithout};

use crate::{Context, Desk, Gate, Link, Point, Stayed, stay};
use client_state::{Client, Request};
use lease::Lease;
use peer_forward::{ReadCalls, WriteCalls};
use pg_frames::Cutter;
use std::sync::Wait;

/// Stays on the link of a lease with a request in hand, as `stay` does, and hands the lease in: the
/// link is given back exactly after `Release`, and closed otherwise. The gate is passed at `Ready`
/// in between.
pub fn turn<R, D, G, C, L>(
    context: Context<'_, R, G>,
    desk: &mut D,
    session: &mut Client,
    client: &mut C,
    cutter: &mut Cutter,
    lease: Lease<Link<L>>,
    request: Request,
) -> Stayed
where
    R: Wait,
    D: Desk<Link<L>>,
    G: Gate,
    C: WriteCalls + ReadCalls,
    L: WriteCalls + ReadCalls,
    requires ready { D.ready desk.old }
    requires session { session.old ≡ asking session.old.limit session.old.database }
    requires cutter { cutter.old.limit ≡ session.old.limit }
    requires link { lease.stream.flow.limit ≡ session.old.limit }
    requires between { lease.stream.flow.left ≡ None }
    requires written { lease.stream.flow.passed ≡ [] }
    // The desk gets the link as the stay left it: with nothing of a reply where it is given back.
    ensures stay { (link : _) × SomeCalls L.wrote L.gave lease.stream.stream link.stream
        (λ on_link. SomeCalls C.wrote C.gave client.old client.new
        (λ on_client. Stay session.old.limit request lease.stream.flow.bytes cutter.old.bytes on_link
        on_client result cutter.new.bytes))
        × (result ≡ Release → link.flow ≡ start session.old.limit) × D.took desk.old link desk.new }
    ensures session { GoesOnWithout result session.old session.new }
    ensures limit { cutter.new.limit ≡ cutter.old.limit }
    // One call, with the session's own lease.
    ensures told { D.told desk.old (handed_in result lease.details) desk.new }
{
    let mut lease = lease;
    let Context { rt, gate } = context;
    let stayed = stay(rt, session, client, cutter, lease.stream_mut(), request);
    gate.pass(rt, Point::Ready);
    match &stayed {
        Stayed::Release => desk.release(rt, lease),
        Stayed::Close | Stayed::End(_) => desk.close(rt, lease),
    }
    stayed
}
