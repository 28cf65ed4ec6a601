//! Requests that are carried and reported, over streams that log what happens to them.
ghost use Rattle.std.specs.Prelude.{◌≡◌, ◌+◌, ◌<◌};

use crate::heard::{Heard, Notice, assert_heard};
use crate::log::{Event, Log, LoggedDesk, Marks, Reply, Wire, assert_logged};
use lease::{Lease, LinkPlace, LinkRecord, Permit, PermitRecord, Ticket, TicketRecord};
use node_threads::{
    Context, Desk, DeskCall, ListDesk, NoObserver, Open, Point, Requested, relay, report,
};
use peer_forward::{Outcome, Verdict};
use pg_ids::{DatabaseNo, LinkNo, PeerNo};
use startup::Packet;
use std::alloc::Global;
use std::process::Abort;
use std::sync::Wait;
use std::test::Fail;

// The CancelRequest of peer 2, slot 0, secret 1, with two hops.
const PACKET: Packet = Packet::Short([0, 0, 0, 16, 4, 0xd2, 0x16, 0x2e, 0, 8, 0, 0, 0, 0, 0, 6]);

const AT: LinkPlace = LinkPlace {
    database: DatabaseNo(1),
    index: 8,
};

fn ticket_record(peer: PeerNo) -> TicketRecord {
    TicketRecord {
        peer,
        incarnation: 3,
        number: 6,
        link: LinkNo(7),
        at: AT,
    }
}

fn link_record(peer: PeerNo, number: u64) -> LinkRecord {
    LinkRecord {
        peer,
        incarnation: 3,
        link: LinkNo(number),
        at: AT,
    }
}

// The lease of a link, whose stream is the link's number.
fn lease(peer: PeerNo, number: u64) -> Lease<u64> {
    let permit = Permit::new(PermitRecord {
        peer,
        incarnation: 3,
        number: 4,
        at: AT,
    });
    permit.up(LinkNo(number), number)
}

// Streams by how much they take and what is read then, how carrying over them ends, and what they
// are written.
const STREAMS: [(usize, Reply, Outcome, Event); 5] = [
    (16, Reply::End, Outcome::Ended, Event::Sent(PACKET)),
    (7, Reply::End, Outcome::Failed, Event::Part(7)),
    (5, Reply::End, Outcome::Failed, Event::Part(5)),
    (16, Reply::Byte(0x4e), Outcome::Failed, Event::Sent(PACKET)),
    (16, Reply::Fails, Outcome::Failed, Event::Sent(PACKET)),
];

// What is reported of the ticket's request after this outcome.
fn told(outcome: Outcome) -> Event {
    match outcome {
        Outcome::Ended => Event::Ended(6),
        Outcome::Failed => Event::Failed(6),
    }
}

// What happens: the packet is written and the end awaited, if it was taken whole, then come these
// events, and the byte for the requester, if the request may still be acted on. Then the seen byte is
// taken.
fn happens(
    alloc: Global,
    written: Event,
    between: &[Event],
    outcome: Outcome,
) -> Result<Vec<Event>, Fail> {
    let mut events = Vec::new(alloc);
    events.push(written)?;
    if written == Event::Sent(PACKET) {
        events.push(Event::Read)?;
    }
    events.extend_from_slice(between)?;
    if outcome == Outcome::Failed {
        events.push(Event::Byte(0x45))?;
    }
    events.push(Event::TakesSeen)?;
    Ok(events)
}

fn assert_reported(
    rt: &(impl Abort + Wait),
    alloc: Global,
    log: &Log,
    peer: PeerNo,
    room: usize,
    reply: Reply,
    expected: Outcome,
) {
    let mut requester = Wire::new(log, 16, Reply::End);
    let mut desk = Requested {
        desk: LoggedDesk(log),
        requester: &mut requester,
    };
    let mut server = Wire::new(log, room, reply);
    let ticket = Ticket::new(ticket_record(peer));
    let gate = Marks(log);
    let heard = Heard::new(alloc);
    let outcome = report(
        Context { rt, gate: &gate },
        &heard,
        &mut desk,
        &mut server,
        ticket,
        PACKET,
    );
    assert_eq!(rt; outcome, expected);
    assert_heard(
        rt,
        &heard,
        &[Notice::CancelEnded(Verdict::Carried(outcome))],
    );
}

// Each request is reported by its own ticket, after it was carried and before the requester learns
// of it.
#[test]
fn reports(rt: HostRuntime) -> Result<(), Fail> {
    let peer = PeerNo::new(2).ok_or("no peer 2")?;
    for (room, reply, outcome, written) in STREAMS {
        let log = Log::new(rt.alloc());
        assert_reported(&rt, rt.alloc(), &log, peer, room, reply, outcome);
        let between = [Event::Passed(Point::Carried), told(outcome)];
        let events = happens(rt.alloc(), written, &between, outcome)?;
        assert_logged(&rt, &log, events.as_slice());
    }
    Ok(())
}

fn assert_relayed(
    rt: &impl Abort,
    alloc: Global,
    log: &Log,
    room: usize,
    reply: Reply,
    expected: Outcome,
) {
    let heard = Heard::new(alloc);
    let mut requester = Wire::new(log, 16, Reply::End);
    let mut peer = Wire::new(log, room, reply);
    let outcome = relay(&heard, &mut requester, &mut peer, PACKET);
    assert_eq!(rt; outcome, expected);
    assert_heard(
        rt,
        &heard,
        &[Notice::CancelEnded(Verdict::Carried(outcome))],
    );
}

#[test]
fn relays(rt: HostRuntime) -> Result<(), Fail> {
    for (room, reply, outcome, written) in STREAMS {
        let log = Log::new(rt.alloc());
        assert_relayed(&rt, rt.alloc(), &log, room, reply, outcome);
        let events = happens(rt.alloc(), written, &[], outcome)?;
        assert_logged(&rt, &log, events.as_slice());
    }
    Ok(())
}

// A request over a stream that fails, whose requester takes nothing, ends so at this desk.
fn report_failed<R: Wait + Abort>(
    rt: &R,
    desk: ListDesk<u64>,
    log: &Log,
    peer: PeerNo,
) -> ListDesk<u64>
    requires ready { 0 < desk.room }
    ensures room { result.room + 1 ≡ desk.room }
{
    let mut requester = Wire::new(log, 0, Reply::End);
    let requester = &mut requester;
    let mut desk = Requested { desk, requester };
    let mut server = Wire::new(log, 16, Reply::Fails);
    let outcome = report(
        Context { rt, gate: &Open },
        &NoObserver,
        &mut desk,
        &mut server,
        Ticket::new(ticket_record(peer)),
        PACKET,
    );
    assert_eq!(rt; outcome, Outcome::Failed);
    assert_logged(rt, log, &[Event::Sent(PACKET), Event::Read]);
    desk.desk
}

fn assert_listed(rt: &impl Abort, desk: &ListDesk<u64>, peer: PeerNo) {
    let calls = [
        DeskCall::Failed(ticket_record(peer)),
        DeskCall::Release(link_record(peer, 7)),
        DeskCall::Close(link_record(peer, 8)),
    ];
    assert_eq!(rt; desk.calls(), calls.as_slice());
    assert_eq!(rt; desk.streams(), [7u64, 8].as_slice());
}

// A desk that is a list has each call, and the streams of the leases.
#[test]
fn listed_calls(rt: HostRuntime) -> Result<(), Fail> {
    let peer = PeerNo::new(2).ok_or("no peer 2")?;
    let desk = ListDesk::new(rt.alloc(), 3)?;
    let mut desk = report_failed(&rt, desk, &Log::new(rt.alloc()), peer);
    desk.release(&rt, lease(peer, 7));
    desk.close(&rt, lease(peer, 8));
    assert_listed(&rt, &desk, peer);
    Ok(())
}
