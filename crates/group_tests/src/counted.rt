//! Counts of what a node's dialer observes.
use crate::group::ANY_PORT;
use crate::host::TestHost;
use crate::reported::reports_of;
use crate::settings::group;
use group_server::Dialer;
use node_threads::{CancelOrder, Observer};
use peer_forward::{Outcome, Verdict};
use pg_ids::PeerNo;
use sockets::Connection;
use std::alloc::Global;
use std::net::{TcpListener, TcpStream};
use std::sync::Arc;
use std::test::Fail;
use telemetry::{Level, Log, NodeCounters};

// The dialer of node 1, whose peer is node 2, and what it counts at.
fn counting<R: TestHost>(rt: &R) -> Result<(Dialer<R>, Arc<NodeCounters, Global>), Fail> {
    let alloc = rt.alloc();
    let group = Arc::new(alloc, group(alloc, &[1, 2], 3, &[&[0, 1]])?)?;
    let settings = group.get(0).ok_or("no node")?;
    let counters = Arc::new(alloc, NodeCounters::new(alloc, settings)?)?;
    let theirs = Arc::try_clone(&counters)?;
    let log = Arc::new(alloc, Log::new(alloc, Level::Warn))?;
    let reports = Arc::new(alloc, reports_of(alloc, &[])?)?;
    let mut dialer = Dialer::new(*rt, alloc, group, 0, log, reports);
    dialer.count_at(theirs);
    Ok((dialer, counters))
}

// Of cancel requests for a peer those are counted that failed: one whose connection ended cleanly
// isn't, and one whose connection failed, and one that had none, are.
#[test]
fn failed_forwards_are_counted(rt: HostRuntime) -> Result<(), Fail> {
    let (dialer, counters) = counting(&rt)?;
    let listener = TcpListener::bind(&rt, ANY_PORT)?;
    let _client = TcpStream::connect(&rt, ("127.0.0.1", listener.local_addr()?.port()))?;
    let (socket, _address) = listener.accept()?;
    let connection = Connection::metered(socket, dialer.meter());
    let peer = PeerNo::new(2).ok_or("no peer")?;
    for (verdict, count) in [
        (Verdict::Carried(Outcome::Ended), 0),
        (Verdict::Carried(Outcome::Failed), 1),
        (Verdict::NoConnect, 2),
    ] {
        let opener = dialer.on_behalf(&connection);
        opener.cancel_ordered(CancelOrder::Peer(peer));
        opener.cancel_ended(verdict);
        let failed = counters.failed_forwards(rt.alloc())?;
        assert_eq!(&rt; failed.last().copied(), Some((2, count)));
    }
    Ok(())
}
