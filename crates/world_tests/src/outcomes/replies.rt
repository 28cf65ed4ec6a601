//! Each reply, alone in its outcome.
use super::expect_outcome;
use cancel_router::RouteRefusal;
use node_core::{CancelRefusal, JoinRefusal};
use pg_ids::AnyKey;
use std::alloc::Global;
use std::process::Abort;
use std::test::Fail;
use world::{ArrivalNo, BackendNo, ConnectionNo, FlightNo, Label, Reply, Took};

// Replies with no key, and what is written of them.
const REPLIES: [(Reply, &str); 30] = [
    (Reply::JoinRefused(JoinRefusal::Full), "refused 30"),
    (Reply::JoinRefused(JoinRefusal::Exhausted), "refused 33"),
    (Reply::Got(BackendNo(3)), "got 3"),
    (Reply::Open, "open"),
    (Reply::Waiting, "waiting"),
    (Reply::Cancelled, "cancelled"),
    (Reply::Lease(BackendNo(3)), "lease 3"),
    (Reply::Freed, "freed"),
    (Reply::Idle, "idle"),
    (Reply::Quarantined, "quarantined"),
    (Reply::Closed, "closed"),
    (Reply::Left, "left"),
    (
        Reply::Flight(FlightNo(18446744073709551615)),
        "flight 18446744073709551615",
    ),
    (Reply::Serve(ArrivalNo(1), ConnectionNo(2)), "serve 1 2"),
    (Reply::Forward(ArrivalNo(1), FlightNo(2)), "forward 1 2"),
    (Reply::Unwait(ArrivalNo(1)), "unwait 1"),
    (
        Reply::CancelRefused(ArrivalNo(1), CancelRefusal::Route(RouteRefusal::Spent)),
        "refused 1 60",
    ),
    (
        Reply::CancelRefused(ArrivalNo(1), CancelRefusal::Route(RouteRefusal::Unknown)),
        "refused 1 61",
    ),
    (
        Reply::CancelRefused(ArrivalNo(1), CancelRefusal::Route(RouteRefusal::NoPeer)),
        "refused 1 62",
    ),
    (
        Reply::CancelRefused(ArrivalNo(1), CancelRefusal::Route(RouteRefusal::NoLink)),
        "refused 1 63",
    ),
    (
        Reply::CancelRefused(ArrivalNo(1), CancelRefusal::Busy),
        "refused 1 31",
    ),
    (
        Reply::CancelRefused(ArrivalNo(1), CancelRefusal::Exhausted),
        "refused 1 33",
    ),
    (Reply::NoCancel, "no-cancel"),
    (Reply::Struck(BackendNo(1), Label(10)), "struck 1 10"),
    (Reply::Nothing, "nothing"),
    (Reply::Counted, "counted"),
    (Reply::Condemned, "condemned"),
    (Reply::Stale, "stale"),
    (Reply::Exhausted, "refused 33"),
    (Reply::Done, "ok"),
];

#[test]
fn replies(rt: HostRuntime) -> Result<(), Fail> {
    for (reply, text) in REPLIES {
        expect_reply(&rt, reply, text)?;
    }
    Ok(())
}

fn expect_reply(
    rt: &(impl Abort + Alloc<A = Global>),
    reply: Reply,
    text: &str,
) -> Result<(), Fail> {
    let wanted = format!(in rt.alloc(); "1 {text}\nevents 1 skipped 0 interrupts 0\n")?;
    expect_outcome(rt, &[Took::Done(reply)], wanted.as_str())
}

#[test]
fn keys(rt: HostRuntime) -> Result<(), Fail> {
    let short = AnyKey::from_short_bytes([0, 8, 0, 4, 0, 0, 0, 0x17]);
    expect_reply(&rt, Reply::Key(short), "key 0008000400000017")?;
    let long = AnyKey::from_long_bytes([
        0, 8, 0, 0, 0, 0, 0, 7, 0, 0, 0, 0, 0, 0, 0, 1, 0, 0, 0, 0, 0, 0, 0, 0xaf,
    ]);
    expect_reply(
        &rt,
        Reply::Key(long),
        "key 0008000000000007000000000000000100000000000000af",
    )
}
