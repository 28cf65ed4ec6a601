//! Each change of a value, once.
ghost use Rattle.std.specs.Prelude.{◌≡◌, IfOk};

use crate::checks::assert_same;
use lease::{
    IdleLink, Lease, LinkPlace, LinkRecord, Pass, PassRecord, Permit, PermitRecord, TicketRecord,
    Token,
};
use pg_ids::{AnyKey, DatabaseNo, Kind, LinkNo, PeerNo};
use std::fmt::Debug;
use std::process::Abort;
use std::test::Fail;

const AT: LinkPlace = LinkPlace {
    database: DatabaseNo(1),
    index: 8,
};

fn node() -> Result<PeerNo, Fail> {
    Ok(PeerNo::new(2).ok_or("no peer 2")?)
}

fn permit_record() -> Result<PermitRecord, Fail> {
    Ok(PermitRecord {
        peer: node()?,
        incarnation: 3,
        number: 4,
        at: AT,
    })
}

fn permit() -> Result<Permit, Fail> {
    Ok(Permit::new(permit_record()?))
}

// A token with this record says it, and returns it, spent either way.
fn expect_record<R: Copy + Debug + Drop + PartialEq>(rt: &impl Abort, said: R) {
    let token = Token::new(said);
    assert_eq!(rt; token.details(), said);
    assert_eq!(rt; token.spend(), said);
    assert_eq!(rt; Token::new(said).forfeit(), said);
}

// The key of peer 2, slot 0, secret 1, and behind a long one boot 1 and serial 515.
fn key(kind: Kind) -> AnyKey {
    match kind {
        Kind::Short => AnyKey::from_short_bytes([0, 8, 0, 0, 0, 0, 0, 7]),
        Kind::Long => AnyKey::from_long_bytes([
            0, 8, 0, 0, 0, 0, 0, 7, 0, 0, 0, 0, 0, 0, 0, 1, 0, 0, 0, 0, 0, 0, 2, 3,
        ]),
    }
}

fn pass_record(kind: Kind) -> PassRecord {
    PassRecord {
        key: key(kind),
        incarnation: 3,
        number: 5,
    }
}

#[test]
fn a_pass(rt: HostRuntime) {
    for kind in [Kind::Short, Kind::Long] {
        expect_record(&rt, pass_record(kind));
    }
}

#[test]
fn the_key_of_a_pass(rt: HostRuntime) {
    for kind in [Kind::Short, Kind::Long] {
        let pass = Pass::new(pass_record(kind));
        assert_eq!(rt; pass.key(), key(kind));
        assert_eq!(rt; pass.spend(), pass_record(kind));
    }
}

#[test]
fn a_permit(rt: HostRuntime) -> Result<(), Fail> {
    expect_record(&rt, permit_record()?);
    Ok(())
}

fn ticket_record() -> Result<TicketRecord, Fail> {
    Ok(TicketRecord {
        peer: node()?,
        incarnation: 3,
        number: 6,
        link: LinkNo(7),
        at: AT,
    })
}

#[test]
fn a_ticket(rt: HostRuntime) -> Result<(), Fail> {
    expect_record(&rt, ticket_record()?);
    Ok(())
}

// A link's value says this of it.
fn assert_link(rt: &impl Abort, found: LinkRecord, said: &LinkRecord) {
    assert_eq!(rt; found, *said);
}

#[test]
fn a_link_in_each_of_its_places(rt: HostRuntime) -> Result<(), Fail> {
    let said = LinkRecord {
        peer: node()?,
        incarnation: 3,
        link: LinkNo(7),
        at: AT,
    };
    let mut lease = permit()?.up(LinkNo(7), 100);
    assert_link(&rt, lease.details(), &said);
    *lease.stream_mut() += 1;
    assert_link(&rt, lease.details(), &said);
    assert_same(&rt, *lease.stream(), 101);
    let idle = lease.idle();
    assert_link(&rt, idle.details(), &said);
    let quarantined = idle.hold().quarantine();
    assert_link(&rt, quarantined.details(), &said);
    let quarantined = quarantined.hold().quarantine();
    let idle = quarantined.free();
    assert_link(&rt, idle.details(), &said);
    assert_same(&rt, idle.hold().close(), 101);
    let quarantined = permit()?.up(LinkNo(8), 102).quarantine();
    assert_same(&rt, quarantined.close(), 102);
    assert_same(&rt, permit()?.up(LinkNo(9), 103).forfeit(), 103);
    Ok(())
}

// A stream that takes `left` more messages.
#[derive(Debug, Drop)]
struct Stream {
    left: u8,
}

impl Stream {
    fn send(&mut self) -> Result<(), Broken> {
        self.left = self.left.checked_sub(1).ok_or(Broken)?;
        Ok(())
    }
}

#[derive(Clone, Copy, Debug, PartialEq, Eq)]
struct Broken;

// A `?` after `send` would drop a lease, and doesn't compile: the error waits until the lease is
// spent. Whoever wrote to the stream has the same lease.
fn send_once(mut lease: Lease<Stream>) -> Result<IdleLink<Stream>, (Stream, Broken)>
    ensures { IfOk result (λ idle. idle.details ≡ lease.details) }
{
    let sent = lease.stream_mut().send();
    match sent {
        Ok(()) => Ok(lease.idle()),
        Err(broken) => Err((lease.close(), broken)),
    }
}

#[test]
fn an_error_while_a_link_is_held(rt: HostRuntime) -> Result<(), Fail> {
    let lease = permit()?.up(LinkNo(7), Stream { left: 1 });
    let idle = send_once(lease).ok().ok_or("the stream took nothing")?;
    assert_eq!(rt; idle.details().link, LinkNo(7));
    let (stream, broken) = send_once(idle.hold())
        .err()
        .ok_or("the stream took two messages")?;
    assert_eq!(rt; (stream.left, broken), (0, Broken));
    Ok(())
}
