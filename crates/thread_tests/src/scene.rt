//! One thread is held, while another serves a client or starts the node anew, and lets it go.
ghost use Rattle.std.specs.Prelude.{◌≡◌, ◌<◌, length};
ghost use Rattle.std.specs.Thread.{IsSync};

use crate::calls::assert_calls;
use crate::gates::{HeldClient, Hold, LOOKS, LetsGo, Where};
use crate::messages::{SERVED_AT_0, Script};
use crate::owner::Owner;
use crate::scene_node::{BOOT, Caller, Node, PLAIN, Visit};
use crate::tracked::{Ends, Tracker};
use locked_node::CallAnswer;
use node_threads::{Gate, Open, restart};
use pg_ids::Secret;
use std::alloc::{AllocError, Global};
use std::process::Abort;
use std::sync::{Arc, Wait};
use std::test::Fail;
use std::thread;
use std::thread::Threads;

// What a thread serves.
#[derive(Clone, Copy, Debug)]
pub(crate) enum Task {
    Session,
    // A cancel request with this key.
    Cancel([u8; 8]),
}

// A thread that is held, with the owner of a link beside it, and another thread that serves a
// client meanwhile.
#[derive(Clone, Copy, Debug)]
pub(crate) struct Scene {
    pub(crate) task: Task,
    pub(crate) script: Script,
    pub(crate) held_at: Where,
    // How many links the node has, and so how many clients its semaphore lets in.
    pub(crate) links: u16,
    // Whether the node is started anew while the thread is held.
    pub(crate) restarts: bool,
    // The client that is served while the thread is held.
    pub(crate) other: Script,
    // How many clients there are in all, cancel requests among them.
    pub(crate) clients: u64,
    // How many connections to servers the thread and its owner make, and how many of them are
    // closed before the node is.
    pub(crate) connections: u64,
    pub(crate) closed: u64,
    // The calls of all callers.
    pub(crate) calls: &'static [(CallAnswer, u128)],
}

// The ends of all streams: of clients, of connections that the held thread and its owner make, and
// of those that the other makes.
#[derive(Drop)]
struct Trackers {
    clients: Arc<Tracker, Global>,
    held: Arc<Tracker, Global>,
    other: Arc<Tracker, Global>,
}

impl Trackers {
    fn new(alloc: Global) -> Result<Trackers, AllocError> {
        Ok(Trackers {
            clients: Tracker::new(alloc)?,
            held: Tracker::new(alloc)?,
            other: Tracker::new(alloc)?,
        })
    }

    // The visit that is held.
    fn held(&self, script: Script) -> Visit<'_> {
        Visit {
            script,
            clients: &self.clients,
            servers: &self.held,
            secret: Secret(5),
        }
    }

    // The visit of another client.
    fn other(&self, script: Script) -> Visit<'_> {
        Visit {
            script,
            clients: &self.clients,
            servers: &self.other,
            secret: Secret(9),
        }
    }

    // All clients got just what they take. The connections that are stale are closed, and those
    // that aren't are open.
    fn assert_open(&self, rt: &impl Abort, scene: &Scene) {
        assert_eq!(rt; self.clients.ends(), all_done(scene.clients));
        let held = self.held.ends();
        assert_eq!(rt; held.made, scene.connections);
        assert_eq!(rt; held.closed, scene.closed);
        let other = self.other.ends();
        assert_eq!(rt; other.made, 1);
        assert_eq!(rt; other.closed, 0);
    }

    // All servers got just what they take.
    fn assert_closed(&self, rt: &impl Abort, scene: &Scene) {
        assert_eq!(rt; self.held.ends(), all_done(scene.connections));
        assert_eq!(rt; self.other.ends(), all_done(1));
    }
}

// This many streams are closed, which took all their turns and nothing else.
pub(crate) fn all_done(count: u64) -> Ends {
    Ends {
        made: count,
        closed: count,
        done: count,
        strayed: 0,
        given_up: 0,
    }
}

// What the threads of a scene share.
#[derive(Clone, Copy)]
struct Stage<'a> {
    alloc: Global,
    scene: &'a Scene,
    node: &'a Node,
    hold: &'a Hold,
    trackers: &'a Trackers,
}

// The thread that is held: an owner opens a link, the task is served, and the owner leaves.
fn held<R: Wait>(rt: &R, stage: &Stage<'_>, mut caller: Caller) -> Caller
    requires own { caller.lock ≡ stage.now.node.now.lock }
    requires database { 0 < length caller.start.view.pools }
    ensures { (result.lock ≡ caller.lock) × (result.start ≡ caller.start) }
{
    let servers = &stage.trackers.held;
    let Some(owner) = Owner::new(rt, stage.alloc, stage.node, &mut caller, servers) else {
        return caller;
    };
    serve_task(rt, stage, &mut caller);
    owner.leave(rt, stage.node, &mut caller);
    caller
}

fn serve_task<R: Wait>(rt: &R, stage: &Stage<'_>, caller: &mut Caller)
    requires own { caller.old.lock ≡ stage.now.node.now.lock }
    requires database { 0 < length caller.old.start.view.pools }
    ensures { (caller.new.lock ≡ caller.old.lock) × (caller.new.start ≡ caller.old.start) }
{
    let visit = stage.trackers.held(stage.scene.script);
    let Some(mut client) = visit.client() else {
        return;
    };
    let Stage { node, hold, .. } = *stage;
    match stage.scene.task {
        Task::Session => {
            let mut client = HeldClient::new(client, hold);
            node.serve(rt, caller, hold, &visit, &mut client);
        }
        Task::Cancel(key) => node.cancel(rt, caller, hold, &visit, &mut client, key),
    }
}

// Another client is served.
fn serve_other<R: Wait, G: Gate>(
    rt: &R,
    stage: &Stage<'_>,
    caller: &mut Caller,
    gate: &G,
    script: Script,
)
    requires own { caller.old.lock ≡ stage.now.node.now.lock }
    requires database { 0 < length caller.old.start.view.pools }
    ensures { (caller.new.lock ≡ caller.old.lock) × (caller.new.start ≡ caller.old.start) }
{
    let visit = stage.trackers.other(script);
    if let Some(mut client) = visit.client() {
        stage.node.serve(rt, caller, gate, &visit, &mut client);
    }
}

// The thread that comes once the other is held, and lets it go.
fn other<R: Wait>(rt: &R, stage: &Stage<'_>, mut caller: Caller) -> Caller
    requires own { caller.lock ≡ stage.now.node.now.lock }
    requires database { 0 < length caller.start.view.pools }
    ensures { (result.lock ≡ caller.lock) × (result.start ≡ caller.start) }
{
    await_held(rt, stage, &mut caller);
    if stage.scene.restarts {
        let mut boot = BOOT;
        let _reply = restart(rt, &stage.node.lock, &mut caller, &mut boot);
    }
    let gate = LetsGo::new(stage.hold);
    serve_other(rt, stage, &mut caller, &gate, stage.scene.other);
    caller
}

// Waits until the other thread is held, or its client waits for a link.
fn await_held<R: Wait>(rt: &R, stage: &Stage<'_>, caller: &mut Caller)
    requires own { caller.old.lock ≡ stage.now.node.now.lock }
    ensures { (caller.new.lock ≡ caller.old.lock) × (caller.new.start ≡ caller.old.start) }
{
    if stage.scene.held_at != Where::Turn {
        stage.hold.await_reached();
        return;
    }
    for _look in 0..LOOKS {
        if stage.node.has_waiting(rt, caller) {
            stage.hold.reach();
            return;
        }
        thread::yield_now();
    }
}

// Both threads run, each with a caller of its own, and their callers are joined.
fn run<R: Threads + Wait + Sync>(rt: &R, stage: &Stage<'_>, mut caller: Caller) -> Caller
    requires own { caller.lock ≡ stage.now.node.now.lock }
    requires database { 0 < length caller.start.view.pools }
    ensures { (result.lock ≡ caller.lock) × (result.start ≡ caller.start) }
{
    let Some(second) = caller.split(&stage.node.lock) else {
        return caller;
    };
    let (mut one, two) = thread::join(
        rt,
        || -> Caller
            requires { IsSync R.row × (caller.lock ≡ stage.now.node.now.lock)
                × (0 < length caller.start.view.pools) }
            ensures { (result.lock ≡ caller.lock) × (result.start ≡ caller.start) }
        { held(rt, stage, caller) },
        || -> Caller
            requires { IsSync R.row × (second.lock ≡ stage.now.node.now.lock)
                × (0 < length second.start.view.pools) }
            ensures { result.lock ≡ second.lock }
        { other(rt, stage, second) },
    );
    one.join(&stage.node.lock, two);
    one
}

// A client that comes after all this is served over the link that was opened after the restart.
fn serve_later<R: Wait>(rt: &R, stage: &Stage<'_>, caller: &mut Caller)
    requires own { caller.old.lock ≡ stage.now.node.now.lock }
    requires database { 0 < length caller.old.start.view.pools }
    ensures { (caller.new.lock ≡ caller.old.lock) × (caller.new.start ≡ caller.old.start) }
{
    if stage.scene.restarts {
        serve_other(rt, stage, caller, &Open, SERVED_AT_0);
    }
}

// The scene is played at a node of its own. All that happens is as the scene says, and the calls
// that the node made are those that its joined caller counted.
pub(crate) fn assert_played<R: Threads + Wait + Sync + Abort>(
    rt: &R,
    alloc: Global,
    scene: &Scene,
) -> Result<(), Fail> {
    let trackers = Trackers::new(alloc)?;
    let hold = Hold::new(scene.held_at);
    let (node, caller) = Node::new(alloc, scene.links)?;
    let stage = Stage {
        alloc,
        scene,
        node: &node,
        hold: &hold,
        trackers: &trackers,
    };
    let mut caller = run(rt, &stage, caller);
    serve_later(rt, &stage, &mut caller);
    assert_eq!(rt; trackers.clients.ends().strayed, 0, "strayed");
    assert!(rt; hold.was_let_go());
    trackers.assert_open(rt, scene);
    assert_eq!(rt; node.admission.used(PLAIN), 0);
    let counted = assert_calls(rt, &caller, scene.calls);
    assert_eq!(rt; node.total_calls(caller), counted);
    trackers.assert_closed(rt, scene);
    Ok(())
}
