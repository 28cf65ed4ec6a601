//! Worked schedules by single steps, each with its outcome to the byte; `command_stories` plays them
//! and others by `pgpeer world`.
use cancel_router::RouteRefusal;
use ini_config::{Group, Settings};
use node_core::{CancelRefusal, JoinRefusal};
use pg_ids::{AnyKey, ClientKey, LongPart};
use std::alloc::{AllocError, Global};
use std::process::Abort;
use std::test::Fail;
use world::{Event, Interrupt, Reply, Took, World};
use world_script::{Script, ScriptError, read_script, write_outcome};

// What events brought about: whom they interrupted, and the text of their outcome.
#[derive(Drop)]
pub struct Played {
    pub interrupts: Vec<Interrupt>,
    pub text: Vec<u8>,
}

// What these events bring about in this group, by single steps. Out of memory is returned as
// `AllocError`.
pub(crate) fn play(alloc: Global, group: Group, events: &[Event]) -> Result<Played, Fail> {
    play_behind(alloc, group, events, &[], Vec::new(alloc))
}

// A text, and behind it that of an outcome in which nothing was interrupted.
pub(crate) fn text_alone(alloc: Global, took: &[Took], text: Vec<u8>) -> Result<Vec<u8>, Fail> {
    let group = group_of(Vec::new(alloc))?;
    let played = play_behind(alloc, group, &[], took, text)?;
    Ok(played.text)
}

// The same, where events took this before, and this text stands before the outcome's. Only here a
// world is owned, and dropped.
fn play_behind(
    alloc: Global,
    group: Group,
    events: &[Event],
    first: &[Took],
    text: Vec<u8>,
) -> Result<Played, Fail> {
    match World::new(alloc, group) {
        Ok(world) => {
            let mut world = world;
            take_steps(alloc, &mut world, events, first, text)
        }
        Err(_) => Err(Fail::from(AllocError)),
    }
}

fn take_steps(
    alloc: Global,
    world: &mut World,
    events: &[Event],
    first: &[Took],
    text: Vec<u8>,
) -> Result<Played, Fail> {
    let mut took = Vec::new(alloc);
    took.extend_from_slice(first)?;
    for event in events {
        take_step(world, event, &mut took, None)?;
    }
    collect(alloc, world, &took, text)
}

// One step. The last argument does nothing: the checker finds the types that a reply may hold in
// signatures alone.
fn take_step(
    world: &mut World,
    event: &Event,
    took: &mut Vec<Took>,
    _: Option<ReplyTypes>,
) -> Result<(), Fail> {
    match world.step(event) {
        Ok(did) => Ok(took.push(did)?),
        Err(_) => Err(Fail::from(AllocError)),
    }
}

type ReplyTypes = (
    Reply,
    AnyKey,
    ClientKey,
    LongPart,
    JoinRefusal,
    CancelRefusal,
    RouteRefusal,
);

// Whom the world has interrupted, and the text of the outcome behind this one.
fn collect(alloc: Global, world: &World, took: &[Took], text: Vec<u8>) -> Result<Played, Fail> {
    let mut interrupts = Vec::new(alloc);
    interrupts.extend_from_slice(world.interrupts())?;
    let mut text = text;
    write(took, world, &mut text)?;
    Ok(Played { interrupts, text })
}

fn write(took: &[Took], world: &World, text: &mut Vec<u8>) -> Result<(), Fail> {
    match write_outcome(took, world, text) {
        Ok(()) => Ok(()),
        Err(_) => Err(Fail::from(AllocError)),
    }
}

pub(crate) fn group_of(nodes: Vec<Settings>) -> Result<Group, Fail> {
    match Group::check(nodes) {
        Ok(group) => Ok(group),
        Err(fault) => Err(Fail::from(fault)),
    }
}

// The script of a text without a fault. Out of memory is returned as `AllocError`.
fn script_of(alloc: Global, text: &str) -> Result<Script, Fail> {
    match read_script(alloc, text) {
        Ok(script) => Ok(script),
        Err(ScriptError::Memory) => Err(Fail::from(AllocError)),
        Err(fault) => Err(Fail::from(fault)),
    }
}

// A script, and the outcome of its schedule.
struct Schedule {
    name: &'static str,
    script: &'static str,
    outcome: &'static str,
}

// Single steps bring about what the definition says, for each kind of event and of reply.
#[test]
fn steps(rt: HostRuntime) -> Result<(), Fail> {
    for schedule in &SCHEDULES {
        expect_outcome(&rt, schedule)?;
    }
    Ok(())
}

fn expect_outcome(rt: &(impl Abort + Alloc<A = Global>), schedule: &Schedule) -> Result<(), Fail> {
    let Script { nodes, events } = script_of(rt.alloc(), schedule.script)?;
    let group = group_of(nodes)?;
    let played = play(rt.alloc(), group, &events)?;
    expect_text(rt, schedule, &played);
    Ok(())
}

fn expect_text(rt: &impl Abort, schedule: &Schedule, played: &Played) {
    assert_eq!(rt;
        played.text.as_slice(),
        schedule.outcome.as_bytes(),
        "{}",
        schedule.name
    );
}

const SCHEDULES: [Schedule; 8] = [
    // A cancel connection breaks, and the server may act on it later: the link is condemned and
    // closed, and the next client gets another one.
    Schedule {
        name: "broken_cancel_condemns",
        script: "node 2 1 2\nlogin 2 10 1\nlogin 2 11 5\nacquire 10\nup 10 0000000100000002\n\
            put 0000001004d2162e0008000000000007\ndeliver 0 2\nbroken 0\nrelease 10\n\
            acquire 11\nup 11 0000000300000004\nsend 11\ntake 1\nact 0\n",
        outcome: "1 key 0008000000000007\n2 key 0008000400000017\n3 open\n4 lease 0\n5 flight 0\n\
            6 serve 0 0\n7 condemned\n8 closed\n9 open\n10 lease 1\n11 ok\n12 ok\n13 nothing\n\
            events 13 skipped 0 interrupts 0\n",
    },
    // A node gives no key twice: a client that would get one given before does not log in.
    Schedule {
        name: "no_key_twice",
        script: "node 2 1 1\nlogin 2 10 1\nlogin 2 11 5\nleave 10\nlogin 2 11 1\nlogin 2 11 2\n",
        outcome: "1 key 0008000000000007\n2 refused 30\n3 left\n4 skipped\n5 key 000800000000000b\n\
            events 5 skipped 1 interrupts 0\n",
    },
    // Bytes that are no CancelRequest, and a node that is not there.
    Schedule {
        name: "empty_flight",
        script: "node 2 1 1\nput -\ndeliver 0 2\ndeliver 0 3\n",
        outcome: "1 flight 0\n2 no-cancel\n3 skipped\nevents 3 skipped 1 interrupts 0\n",
    },
    // The race that strikes the wrong client in a plain pooler. Ann (10) runs a query and cancels
    // it. The cancel comes to the wrong pooler (1), which forwards it to hers (2), where it is sent
    // on to the server. Meanwhile the query has ended, and Ann gives the link back. A plain pooler
    // would give it to Bob (11) now; the cancel, which names the server process and not the client,
    // would strike his query. Here the link is quarantined. Bob waits until the server has ended
    // the cancel, which found nothing to interrupt; then he gets the link, and his query runs to
    // its end.
    Schedule {
        name: "the_race",
        script: "node 1 1 1\nnode 2 1 2\nlogin 2 10 1\nlogin 2 11 5\nacquire 10\n\
            up 10 0000000100000002\nsend 10\ntake 0\nput 0000001004d2162e0008000000000007\n\
            deliver 0 1\naccept 1 2\nfinish 0\nready 10\nrelease 10\nacquire 11\nact 0\nend 0\n\
            told 0\nfend 1\nftold 1\nacquire 11\nsend 11\ntake 0\nfinish 0\nready 11\n\
            release 11\n",
        outcome: "1 key 0008000000000007\n2 key 0008000400000017\n3 open\n4 lease 0\n5 ok\n6 ok\n\
            7 flight 0\n8 forward 0 1\n9 serve 1 0\n10 ok\n11 ok\n12 quarantined\n13 waiting\n\
            14 nothing\n15 ok\n16 freed\n17 ok\n18 ok\n19 got 0\n20 ok\n21 ok\n22 ok\n23 ok\n\
            24 idle\nevents 24 skipped 0 interrupts 0\n",
    },
    // A client that closes its link, with a request on its way, leaves the place free; so does one
    // that could not open one. Who waits gets its turn. After a restart its permit is stale.
    Schedule {
        name: "close_and_fail",
        script: "node 2 1 2\nlogin 2 10 1\nlogin 2 11 5\nacquire 10\nacquire 11\nupfail 10\n\
            acquire 10\nacquire 11\nup 11 0000000100000002\nsend 11\nclose 11\nready 11\ntake 0\n\
            finish 0\nacquire 10\nupfail 11\nclose 10\nrestart 2\nupfail 10\nclose 10\n",
        outcome: "1 key 0008000000000007\n2 key 0008000400000017\n3 open\n4 waiting\n5 freed\n\
            6 waiting\n7 open\n8 lease 0\n9 ok\n10 closed\n11 skipped\n12 ok\n13 ok\n14 open\n\
            15 skipped\n16 skipped\n17 ok\n18 stale\n19 skipped\n\
            events 19 skipped 4 interrupts 0\n",
    },
    // A cancel connection breaks while its link is quarantined: the link is closed, and a second
    // cancel for it is stale. Its client may open another one.
    Schedule {
        name: "broken_in_quarantine",
        script: "node 2 1 2\nlogin 2 10 1\nacquire 10\nup 10 0000000100000002\n\
            put 0000001004d2162e0008000000000007\ndeliver 0 2\ndeliver 0 2\nrelease 10\n\
            broken 0\nbroken 1\ntold 1\nacquire 10\nact 0\n",
        outcome: "1 key 0008000000000007\n2 open\n3 lease 0\n4 flight 0\n5 serve 0 0\n\
            6 serve 1 1\n7 quarantined\n8 closed\n9 stale\n10 skipped\n11 open\n12 nothing\n\
            events 12 skipped 1 interrupts 0\n",
    },
    // A forwarded request ends a wait, and the next one is refused: both forward connections may
    // end at once.
    Schedule {
        name: "answered_without_server",
        script: "node 1 1 1\nnode 2 1 2\nlogin 2 10 1\nlogin 2 11 5\nacquire 10\nacquire 11\n\
            put 0000001004d2162e0008000400000017\ndeliver 0 1\naccept 1 2\nfend 1\nftold 1\n\
            deliver 0 1\naccept 2 2\naccept 2 2\nfend 2\nfend 2\nfbroken 2\nftold 2\nacquire 11\n\
            accept 0 2\n",
        outcome: "1 key 0008000000000007\n2 key 0008000400000017\n3 open\n4 waiting\n5 flight 0\n\
            6 forward 0 1\n7 unwait 1\n8 ok\n9 ok\n10 forward 2 2\n11 refused 3 63\n12 skipped\n\
            13 ok\n14 skipped\n15 ok\n16 skipped\n17 cancelled\n18 skipped\n\
            events 18 skipped 4 interrupts 0\n",
    },
    // A node starts with a boot that it never had. A longer key is forwarded and served by its
    // boot and serial, and found by no other.
    Schedule {
        name: "boots_and_long_keys",
        script: "node 1 1 1\nnode 2 1 1\nrestart 2 7\nrestart 2 7\nrestart 2 0\nlogin32 2 10 1\n\
            login32 2 11 1\nacquire 10\nup 10 0000000100000002\nsend 10\ntake 0\n\
            put 0000002004d2162e000800000000000700000000000000070000000000000000\ndeliver 0 1\n\
            accept 1 2\nact 0\n\
            put 0000002004d2162e000800000000000700000000000000000000000000000000\ndeliver 2 2\n\
            put 0000002004d2162e000800000000000700000000000000070000000000000001\ndeliver 3 2\n\
            restart 2\nrestart 2 8\nlogin32 2 12 1\ndeliver 0 2\n",
        outcome: "1 ok\n2 skipped\n3 skipped\n\
            4 key 000800000000000700000000000000070000000000000000\n5 refused 30\n6 open\n\
            7 lease 0\n8 ok\n9 ok\n10 flight 0\n11 forward 0 1\n12 serve 1 0\n13 struck 0 10\n\
            14 flight 2\n15 refused 2 61\n16 flight 3\n17 refused 3 61\n18 ok\n19 skipped\n\
            20 key 000800000000000700000000000000080000000000000000\n21 refused 4 61\n\
            interrupt 0 10 1\nevents 21 skipped 3 interrupts 1\n",
    },
];
