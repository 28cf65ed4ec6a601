//! A client's connection, from its first packet to its end.
ghost use Rattle.std.specs.Prelude.{◌≡◌, ◌≤◌, ◌⊎◌, [], length, slice_get};
ghost use Rattle.std.specs.Arc.{arc_value};
ghost use Rattle.std.specs.Option.{ForSome};
ghost use Rattle.stat_board.specs.Seats.{SeatView};
ghost use Rattle.peer_forward.specs.Finishing.{Finishes};
ghost use Rattle.session_io.specs.StreamCalls.{SomeCalls};
ghost use Rattle.node_threads.specs.Balance.{Balanced};
ghost use Rattle.node_threads.specs.Cancelling.{IsCarried, ServesCancel};
ghost use Rattle.node_threads.specs.Meaning.{meaning_of, moment};
ghost use Rattle.node_threads.specs.Connection.{place_of, ServesAt, ServesConnection};

use crate::{
    CONSOLE, Calling, CancelOpener, Context, Gate, Link, Node, Observer, Opened, Opener, Service,
    SingleUse, open, serve_cancel, serve_client, serve_console,
};
use locked_node::Caller;
use peer_forward::{Arrival, Asks, ReadCalls, Requester, WriteCalls};
use pg_frames::{Cutter, MessageLimit};
use pg_ids::{AnyKey, Kind};
use session_io::refuse;
use startup::{ErrorCode, Reports};
use std::alloc::Global;
use std::sync::Wait;

/// Serves a connection from its first packet to its end: a client's session on the database that it
/// asks for or on the console, or a cancel request, where the connection is admitted for that. A
/// database that isn't in the settings is refused. A cancel request for which no seat at the board is
/// free is given up without an order: its connection is reset. The opener's observer is notified of
/// what happens.
pub fn serve_connection<R, O, G, C>(
    context: Context<'_, R, G>,
    alloc: Global,
    calling: &mut Calling<O::Stream>,
    opener: &O,
    reports: &Reports,
    limit: &MessageLimit,
    client: &mut C,
)
where
    R: Wait,
    O: Opener,
    G: Gate,
    C: WriteCalls + ReadCalls + Requester + Arrival,
    // Each pass, permit, lease and ticket that was made was spent.
    ensures balanced { Balanced calling.old.caller calling.new.caller }
    // The first packets were read, and then what they ask for was served.
    ensures served { ForSome
        (slice_get (arc_value (arc_value calling.old.node).group) (arc_value calling.old.node).place)
        (λ settings. ServesConnection (record {
          limit = limit.now;
          link_wrote = O.Stream.WriteCalls.wrote;
          link_gave = O.Stream.ReadCalls.gave;
          wrote = C.wrote;
          gave = C.gave;
          saw = C.saw;
          takes = C.takes;
          resets = C.resets;
          admitted = C.admitted;
          refused = C.refused;
          connects = O.connects opener.now;
          cancels = O.cancels opener.now;
          reaches = O.reaches opener.now;
          secrets = (arc_value calling.old.node).secrets;
          reports = reports.now;
          settings = settings;
        }) client.old client.new calling.old.caller calling.new.caller) }
{
    match open(context.rt, alloc, client) {
        Opened::Session { database, kind } => {
            let name = database.as_str();
            let mut cutter = Cutter::with_limit(alloc, *limit);
            if name == CONSOLE {
                if client.admits(Asks::Console) {
                    let rt = context.rt;
                    let observer = opener.observer();
                    serve_console(rt, alloc, observer, reports, calling, client, &mut cutter);
                }
            } else if client.admits(Asks::Session) {
                let node: &Node<O::Stream> = &calling.node;
                let service = Service::of_node(node, context, alloc, opener, reports, limit);
                let caller = &mut calling.caller;
                serve_session(service, node, caller, client, &mut cutter, name, kind);
            }
        }
        Opened::Cancel(key) => {
            if client.admits(Asks::Cancel) {
                let observer = opener.observer();
                let opener = SingleUse { opener };
                serve_cancel_connection(context, observer, opener, calling, client, key);
            }
        }
        Opened::Over => {}
    }
}

// Serves a session on the database of this name.
fn serve_session<R, O, G, C>(
    service: Service<'_, R, Link<O::Stream>, O, G>,
    node: &Node<O::Stream>,
    caller: &mut Caller<Link<O::Stream>>,
    client: &mut C,
    cutter: &mut Cutter,
    name: &str,
    kind: Kind,
)
where
    R: Wait,
    O: Opener,
    G: Gate,
    C: WriteCalls + ReadCalls,
    requires own { caller.old.lock ≡ service.shared.now }
    requires databases { length service.settings.now.databases
        ≤ length caller.old.start.view.pools }
    requires cutter { cutter.old.limit ≡ service.limit.now }
    ensures balanced { Balanced caller.old caller.new }
    ensures served { SomeCalls C.wrote C.gave client.old client.new (λ calls. ServesAt
        (meaning_of O.Opener O.Stream.WriteCalls O.Stream.ReadCalls service.entry)
        node.now.secrets (place_of name.now service.entry.settings.now.databases) kind
        (moment cutter.old.bytes caller.old) calls (moment cutter.new.bytes caller.new)) }
{
    let Some(database) = service.settings.find_database(name) else {
        refuse(service.alloc, client, ErrorCode::InvalidCatalogName);
        let observer = service.opener.observer();
        observer.login_refused(ErrorCode::InvalidCatalogName);
        return;
    };
    let secret = node.secret();
    serve_client(service, caller, client, cutter, database, secret, kind);
}

// Serves a cancel request with this key. A client that waits to ask for a link asks first, so that
// the request finds it waiting.
#[inline(never)]
fn serve_cancel_connection<R, S, O, G, C, V>(
    context: Context<'_, R, G>,
    observer: &V,
    opener: O,
    calling: &mut Calling<S>,
    client: &mut C,
    key: AnyKey,
)
where
    R: Wait,
    S: Drop,
    O: CancelOpener,
    G: Gate,
    C: WriteCalls + Requester,
    V: Observer<O::Stream>,
    ensures balanced { Balanced calling.old.caller calling.new.caller }
    ensures served { (C.resets client.old client.new × (calling.new.caller ≡ calling.old.caller))
        ⊎ ((seat next : SeatView) × ServesCancel
        (IsCarried ⟦<O::Stream as WriteCalls>⟧.wrote ⟦<O::Stream as ReadCalls>⟧.gave
        (O.cancels opener))
        (IsCarried ⟦<O::Stream as WriteCalls>⟧.wrote ⟦<O::Stream as ReadCalls>⟧.gave
        (O.reaches opener))
        key calling.old.caller calling.new.caller seat next
        (λ verdict. Finishes ⟦<C as WriteCalls>⟧.wrote C.takes client.old verdict client.new)) }
{
    let rt = context.rt;
    observer.cancel_asked(key.peer(), key.slot());
    let is_own = key.peer() == calling.node.settings().peer_id();
    let to = calling.node.destination(rt, key, is_own);
    let Some(mut seat) = calling.node.seats.take(rt, key, to) else {
        client.give_up();
        observer.cancel_unserved();
        return;
    };
    if is_own {
        calling.node.admission.tell_to_ask(rt, key.slot());
    }
    serve_cancel(
        context,
        observer,
        &calling.node.shared,
        &mut calling.caller,
        seat.counting(),
        opener,
        client,
        key,
    );
    calling.node.seats.give_back(rt, seat);
}
