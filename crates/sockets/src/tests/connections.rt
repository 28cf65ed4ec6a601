//! Which connections are admitted, and which are evicted for them.
use crate::{Begun, Capacity, Connections, PendingId};
use std::process::Abort;
use std::time::Duration;

// How many connections above the capacity are admitted while evicted ones are still open.
const SPARE: usize = 8;

// Admits a connection, for which none has to be evicted.
fn admit<R: Abort>(rt: &R, connections: &mut Connections, socket: i32, second: u64) -> PendingId {
    let admission = connections.admit(socket, Duration::from_secs(second));
    assert_eq!(rt; admission.evicted, None);
    admission.pending.expect(rt, "not admitted")
}

const fn capacity(connections: usize, pending: usize) -> Capacity {
    Capacity {
        connections,
        pending,
        kept: 0,
    }
}

#[test]
fn the_oldest_pending_connection_is_evicted(rt: HostRuntime) {
    let mut connections = Connections::new(rt.alloc(), capacity(10, 3));
    let first = admit(&rt, &mut connections, 5, 1);
    let second = admit(&rt, &mut connections, 6, 2);
    assert!(&rt; connections.activate(first));
    let third = admit(&rt, &mut connections, 7, 3);
    let _fourth = admit(&rt, &mut connections, 8, 4);
    let fifth = connections.admit(9, Duration::from_secs(5));
    assert_eq!(&rt; fifth.evicted, Some(6));
    assert!(&rt; fifth.pending.is_some());
    assert!(&rt; !connections.activate(second), "it was evicted");
    assert!(&rt; connections.activate(third));
}

#[test]
fn an_id_is_not_valid_for_a_reused_slot(rt: HostRuntime) {
    let mut connections = Connections::new(rt.alloc(), capacity(10, 1));
    let first = admit(&rt, &mut connections, 5, 1);
    let admission = connections.admit(6, Duration::from_secs(2));
    assert_eq!(&rt; admission.evicted, Some(5));
    let second = admission.pending.expect(&rt, "not admitted");
    assert!(&rt; !connections.activate(first));
    assert!(&rt; connections.activate(second));
    assert!(&rt; !connections.activate(second));
}

#[test]
fn only_connections_from_before_a_time_are_evicted(rt: HostRuntime) {
    let mut connections = Connections::new(rt.alloc(), capacity(10, 10));
    let _first = admit(&rt, &mut connections, 5, 10);
    assert_eq!(&rt; connections.evict(Duration::from_secs(10)), None);
    assert_eq!(&rt; connections.evict(Duration::from_secs(11)), Some(5));
    assert_eq!(&rt; connections.evict(Duration::MAX), None);
}

#[test]
fn active_connections_are_not_evicted(rt: HostRuntime) {
    let mut connections = Connections::new(rt.alloc(), capacity(2, 100));
    for socket in 0..2 {
        let pending = admit(&rt, &mut connections, socket, 1);
        assert!(&rt; connections.activate(pending));
    }
    let third = connections.admit(2, Duration::from_secs(2));
    assert_eq!(&rt; (third.pending, third.evicted), (None, None));
    connections.closed();
    admit(&rt, &mut connections, 2, 3);
}

#[test]
fn evicted_connections_count_until_they_are_closed(rt: HostRuntime) {
    let mut connections = Connections::new(rt.alloc(), capacity(2, 100));
    admit(&rt, &mut connections, 0, 1);
    admit(&rt, &mut connections, 1, 1);
    for socket in 0..SPARE {
        let admission = connections.admit(10 + socket as i32, Duration::from_secs(2));
        assert!(&rt; admission.evicted.is_some() && admission.pending.is_some());
    }
    let admission = connections.admit(30, Duration::from_secs(3));
    assert!(&rt; admission.evicted.is_some() && admission.pending.is_none());
    connections.closed();
    let admission = connections.admit(31, Duration::from_secs(3));
    assert!(&rt; admission.evicted.is_some() && admission.pending.is_some());
}

// Connections of which some are kept.
const KEEPING: Capacity = Capacity {
    connections: 4,
    pending: 100,
    kept: 2,
};

#[test]
fn sessions_have_no_connection_that_is_kept(rt: HostRuntime) {
    let mut connections = Connections::new(rt.alloc(), KEEPING);
    for socket in 0..2 {
        let pending = admit(&rt, &mut connections, socket, 1);
        assert_eq!(&rt; connections.begin_session(pending), Begun::Begun);
    }
    // At the limit one is admitted that can't begin a session, and is pending.
    let third = admit(&rt, &mut connections, 2, 2);
    assert_eq!(&rt; connections.begin_session(third), Begun::Full);
    assert_eq!(&rt; connections.pending_count(), 1);
    assert!(&rt; connections.activate(third), "a cancel request is served");
    let fourth = admit(&rt, &mut connections, 3, 3);
    connections.end_session();
    assert_eq!(&rt; connections.begin_session(fourth), Begun::Begun);
    assert_eq!(&rt; connections.begin_session(fourth), Begun::Full);
    connections.end_session();
    assert_eq!(&rt; connections.begin_session(fourth), Begun::Gone);
}

#[test]
fn those_that_were_told_their_last_error_are_evicted_first(rt: HostRuntime) {
    let mut connections = Connections::new(rt.alloc(), capacity(3, 3));
    let first = admit(&rt, &mut connections, 5, 1);
    let _second = admit(&rt, &mut connections, 6, 2);
    assert_eq!(&rt; connections.begin_session(first), Begun::Begun);
    connections.end_session();
    let lingering = connections.linger(5, Duration::from_secs(3));
    assert_eq!(&rt; lingering.evicted, None);
    admit(&rt, &mut connections, 7, 4);
    let fourth = connections.admit(8, Duration::from_secs(5));
    assert_eq!(&rt; fourth.evicted, Some(5));
    let gone = lingering.pending.expect(&rt, "it may be evicted");
    assert!(&rt; !connections.activate(gone));
    let fifth = connections.admit(9, Duration::from_secs(6));
    assert_eq!(&rt; fifth.evicted, Some(6));
}

#[test]
fn as_many_linger_as_may_be_pending(rt: HostRuntime) {
    let mut connections = Connections::new(rt.alloc(), capacity(10, 1));
    let first = admit(&rt, &mut connections, 5, 1);
    assert!(&rt; connections.activate(first));
    let second = connections.linger(5, Duration::from_secs(2));
    assert!(&rt; second.pending.is_some());
    let third = connections.linger(6, Duration::from_secs(3));
    assert_eq!(&rt; third.evicted, Some(5));
    assert!(&rt; third.pending.is_some());
}
