//! A node behind its lock, and its sessions and cancel requests.
ghost use Rattle.std.specs.Prelude.{◌≡◌, ◌<◌, length, IfOk};

use crate::messages::Script;
use crate::tracked::{Dialer, Talk, Tracker};
use ini_config::Settings;
use link_pool::Claim;
use locked_node::{Caller as LockCaller, Journal, Shared};
use node_core::NodeCore;
use node_threads::{
    Admission, Context, Counting, Gate, Link, Opener, Service, SingleUse, serve_cancel,
    serve_client,
};
use pg_frames::{Cutter, MessageLimit};
use pg_ids::{AnyKey, Boot, DatabaseNo, Kind, PeerNo, Secret};
use startup::Reports;
use std::alloc::Global;
use std::io::{Read, Write};
use std::sync::{Arc, Wait};
use std::test::Fail;

pub(crate) type Lock = Shared<Link<Talk>>;

pub(crate) type Caller = LockCaller<Link<Talk>>;

// The only database.
pub(crate) const PLAIN: DatabaseNo = DatabaseNo(0);

// The boot with which the node begins.
pub(crate) const BOOT: Boot = Boot(9);

// A connection: what its two sides do, who counts their ends, and the secret of its session.
#[derive(Clone, Copy)]
pub(crate) struct Visit<'a> {
    pub(crate) script: Script,
    pub(crate) clients: &'a Arc<Tracker, Global>,
    pub(crate) servers: &'a Arc<Tracker, Global>,
    pub(crate) secret: Secret,
}

impl Visit<'_> {
    // Its client, if there is memory for one.
    pub(crate) fn client(&self) -> Option<Talk> {
        Talk::new(self.clients, self.script.client).ok()
    }

    // What connects to its server or peer.
    fn dialer(&self) -> Dialer<'_> {
        Dialer {
            tracker: self.servers,
            turns: self.script.server,
        }
    }
}

// It has one semaphore, as a running node has, which its sessions share.
#[derive(Drop)]
pub(crate) struct Node {
    pub(crate) lock: Lock,
    pub(crate) admission: Admission,
    settings: Settings,
    alloc: Global,
}

impl Node {
    // Node 2 with the peer 3, this many links and four slots, and its first caller.
    pub(crate) fn new(alloc: Global, links: u16) -> Result<(Node, Caller), Fail>
        ensures own { IfOk result (λ made. made.1.lock ≡ made.0.lock) }
        ensures database { IfOk result (λ made. 0 < length made.1.start.view.pools) }
    {
        if links == 0 {
            return Err(Fail::from("no link"));
        }
        let me = PeerNo::new(2).ok_or("no such peer")?;
        let peer = PeerNo::new(3).ok_or("no such peer")?;
        let settings = Settings::plain(alloc, me, vec![in alloc; peer]?, links, 4)?;
        let admission = Admission::new(alloc, &settings)?;
        let core = NodeCore::new(alloc, &settings, BOOT)?;
        let (lock, caller) = Shared::new(alloc, Journal::new(alloc, core)?)?;
        let node = Node {
            lock,
            admission,
            settings,
            alloc,
        };
        Ok((node, caller))
    }

    // A client's session is served to its end.
    pub(crate) fn serve<R: Wait, G: Gate, C: Read + Write>(
        &self,
        rt: &R,
        caller: &mut Caller,
        gate: &G,
        visit: &Visit<'_>,
        client: &mut C,
    )
        requires own { caller.old.lock ≡ self.now.lock }
        requires database { 0 < length caller.old.start.view.pools }
        ensures { (caller.new.lock ≡ caller.old.lock) × (caller.new.start ≡ caller.old.start) }
    {
        self.serve_over(rt, caller, gate, &visit.dialer(), visit.secret, client);
    }

    // The same over the links of this opener, with this secret.
    pub(crate) fn serve_over<R: Wait, G: Gate, O: Opener<Stream = Talk>, C: Read + Write>(
        &self,
        rt: &R,
        caller: &mut Caller,
        gate: &G,
        opener: &O,
        secret: Secret,
        client: &mut C,
    )
        requires own { caller.old.lock ≡ self.now.lock }
        requires database { 0 < length caller.old.start.view.pools }
        ensures { (caller.new.lock ≡ caller.old.lock) × (caller.new.start ≡ caller.old.start) }
    {
        let alloc = self.alloc;
        let mut cutter = Cutter::new(alloc);
        let service = Service {
            rt,
            alloc,
            shared: &self.lock,
            settings: &self.settings,
            reports: &Reports::new(alloc),
            limit: &MessageLimit::DEFAULT,
            admission: &self.admission,
            opener,
            gate,
        };
        let kind = Kind::Short;
        serve_client(service, caller, client, &mut cutter, PLAIN, secret, kind);
    }

    // A cancel request with this key is served to its end.
    pub(crate) fn cancel<R: Wait, G: Gate>(
        &self,
        rt: &R,
        caller: &mut Caller,
        gate: &G,
        visit: &Visit<'_>,
        client: &mut Talk,
        key: [u8; 8],
    )
        requires own { caller.old.lock ≡ self.now.lock }
        ensures { (caller.new.lock ≡ caller.old.lock) × (caller.new.start ≡ caller.old.start) }
    {
        let Ok(mut counting) = Counting::new(self.alloc) else {
            return;
        };
        let context = Context { rt, gate };
        let dialer = visit.dialer();
        let opener = SingleUse { opener: &dialer };
        let key = AnyKey::from_short_bytes(key);
        serve_cancel(
            context,
            dialer.observer(),
            &self.lock,
            caller,
            &mut counting,
            opener,
            client,
            key,
        );
    }

    // How many calls were made in all. The node is at its end.
    pub(crate) fn total_calls(self, caller: Caller) -> u128
        requires own { caller.lock ≡ self.lock }
    {
        let Node { lock, .. } = self;
        lock.total_calls(caller)
    }

    // Whether a client waits for a link now. One that waits for a permit asks first, as where the
    // console looks.
    pub(crate) fn has_waiting<R: Wait>(&self, rt: &R, caller: &mut Caller) -> bool
        requires own { caller.old.lock ≡ self.now.lock }
        ensures { caller.new ≡ caller.old }
    {
        self.admission.tell_all_to_ask(rt);
        match self.lock.copy_view(rt, self.alloc, caller) {
            Ok(view) => has_waiting(view.claims()),
            Err(_) => false,
        }
    }
}

fn has_waiting(claims: &[Claim]) -> bool {
    for claim in claims {
        if let Claim::Waiting(_) = claim {
            return true;
        }
    }
    false
}
