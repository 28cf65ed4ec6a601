//! A session's stay on a link.
ghost use Rattle.std.specs.Prelude.{◌≡◌, [], None};
ghost use Rattle.session_io.specs.StreamCalls.{SomeCalls};
ghost use Rattle.session_io.specs.Progress.{asking, LeavesBehind};
ghost use Rattle.session_io.specs.Stay.{Stay};

use crate::session::channel::Channel;
use crate::session::replies::{lost, pass_reply};
use crate::session::requests::next_request;
use crate::{Link, Stayed};
use client_state::{Client, Request};
use peer_forward::{ReadCalls, WriteCalls, write_whole};
use pg_frames::Cutter;
use std::sync::Wait;

/// Stays on a link with a request in hand: writes it to the link, passes the reply on to the
/// client, and goes on with the client's next request for as long as a transaction is open. The
/// streams are any readers and writers of std, or streams that list their calls. A call that is
/// interrupted has failed, and none is tried again.
pub fn stay<R: Wait, C: WriteCalls + ReadCalls, L: WriteCalls + ReadCalls>(
    rt: &R,
    session: &mut Client,
    client: &mut C,
    cutter: &mut Cutter,
    link: &mut Link<L>,
    request: Request,
) -> Stayed
    // The session waits for the reply to the request, and its link is between two frames.
    requires session { session.old ≡ asking session.old.limit session.old.database }
    requires cutter { cutter.old.limit ≡ session.old.limit }
    requires link { link.old.flow.limit ≡ session.old.limit }
    requires between { link.old.flow.left ≡ None }
    requires written { link.old.flow.passed ≡ [] }
    ensures stay { SomeCalls L.wrote L.gave link.old.stream link.new.stream
        (λ on_link. SomeCalls C.wrote C.gave client.old client.new
        (λ on_client. Stay session.old.limit request link.old.flow.bytes cutter.old.bytes on_link
        on_client result cutter.new.bytes)) }
    // Where the session goes on it has no lease, and a link that is given back is as at its start.
    ensures leaves { LeavesBehind session.old.limit result session.old session.new link.new.flow }
    ensures limit { cutter.new.limit ≡ cutter.old.limit }
{
    stay_on(rt, session, client, cutter, &mut link.channel, request)
}

// The same on what the link is connected to.
#[inline(always)]
fn stay_on<R: Wait, C: WriteCalls + ReadCalls, L: WriteCalls + ReadCalls>(
    rt: &R,
    session: &mut Client,
    client: &mut C,
    cutter: &mut Cutter,
    link: &mut Channel<L>,
    request: Request,
) -> Stayed
    requires session { session.old ≡ asking session.old.limit session.old.database }
    requires cutter { cutter.old.limit ≡ session.old.limit }
    requires link { link.old.flow.limit ≡ session.old.limit }
    requires between { link.old.flow.left ≡ None }
    requires written { link.old.flow.passed ≡ [] }
    ensures stay { SomeCalls L.wrote L.gave link.old.stream link.new.stream
        (λ on_link. SomeCalls C.wrote C.gave client.old client.new
        (λ on_client. Stay session.old.limit request link.old.flow.bytes cutter.old.bytes on_link
        on_client result cutter.new.bytes)) }
    ensures leaves { LeavesBehind session.old.limit result session.old session.new link.new.flow }
    ensures limit { cutter.new.limit ≡ cutter.old.limit }
{
    let mut request = request;
    for _ in rt.forever() {
        if !write_whole(&mut link.stream, request.as_slice()) {
            return Stayed::End(lost(session));
        }
        take_back(session, cutter, request);
        if let Some(stayed) = pass_reply(rt, session, client, link) {
            return stayed;
        }
        match next_request(rt, session, client, cutter) {
            Ok(next) => request = next,
            Err(reply) => return Stayed::End(reply),
        }
    }
    unreachable!()
}

// Takes back a request that was written.
#[inline]
fn take_back(session: &mut Client, cutter: &mut Cutter, request: Request)
    ensures session { session.new ≡ session.old }
    ensures cutter { cutter.new ≡ cutter.old }
{
    if let Some(memory) = session.recycle(request) {
        cutter.keep_memory(memory);
    }
}
