//! Nodes by their settings, and connections that are served there.
use ini_config::{Group, read_settings};
use node_threads::{Calling, Context, Gate, NodePlace, Opener, serve_connection};
use peer_forward::{Arrival, ReadCalls, Requester, WriteCalls};
use pg_frames::MessageLimit;
use pg_ids::Boot;
use startup::Reports;
use std::alloc::Global;
use std::sync::Wait;
use std::test::Fail;

// Node 2 with the peer 3, one link and one slot.
pub(crate) const NODE: &str = "[pgbouncer]
pool_mode = transaction
auth_type = trust
listen_addr = 127.0.0.1
peer_id = 2
default_pool_size = 1
max_client_conn = 1
[databases]
plain = host=127.0.0.1 port=5432 user=plain
[peers]
3 = host=127.0.0.1 port=6433
";

// Node 2 with one link and two slots.
pub(crate) const TWO_SLOTS: &str = "[pgbouncer]
pool_mode = transaction
auth_type = trust
listen_addr = 127.0.0.1
peer_id = 2
default_pool_size = 1
max_client_conn = 2
[databases]
plain = host=127.0.0.1 port=5432 user=plain
";

// A seed: the bytes 0 to 31.
pub(crate) const SEED: [u8; 32] = [
    0, 1, 2, 3, 4, 5, 6, 7, 8, 9, 10, 11, 12, 13, 14, 15, 16, 17, 18, 19, 20, 21, 22, 23, 24, 25,
    26, 27, 28, 29, 30, 31,
];

// The node with these settings, alone in its group, with this seed and boot.
pub(crate) fn calling<S: Drop>(
    alloc: Global,
    settings: &str,
    seed: [u8; 32],
    boot: Boot,
) -> Result<Calling<S>, Fail> {
    let settings = read_settings(alloc, settings)?;
    let group = Group::check(vec![in alloc; settings]?)?;
    let (_group, mut places) = NodePlace::of_group(alloc, group)?;
    let at = places.pop().ok_or("no node")?;
    Ok(Calling::new(alloc, at, seed, boot)?)
}

// A connection is served from its first packet to its end. A login reports nothing further.
pub(crate) fn serve<R, O, G, C>(
    rt: &R,
    alloc: Global,
    calling: &mut Calling<O::Stream>,
    opener: &O,
    gate: &G,
    client: &mut C,
)
where
    R: Wait,
    O: Opener,
    G: Gate,
    C: WriteCalls + ReadCalls + Requester + Arrival,
{
    let limit = MessageLimit::DEFAULT;
    serve_within(rt, alloc, calling, opener, gate, client, &limit);
}

// The same with this limit of a message.
pub(crate) fn serve_within<R, O, G, C>(
    rt: &R,
    alloc: Global,
    calling: &mut Calling<O::Stream>,
    opener: &O,
    gate: &G,
    client: &mut C,
    limit: &MessageLimit,
)
where
    R: Wait,
    O: Opener,
    G: Gate,
    C: WriteCalls + ReadCalls + Requester + Arrival,
{
    let (context, reports) = (Context { rt, gate }, Reports::new(alloc));
    serve_connection(context, alloc, calling, opener, &reports, limit, client);
}
