//! A session on the admin console.
ghost use Rattle.std.specs.Prelude.{◌≡◌, slice_get};
ghost use Rattle.std.specs.Arc.{arc_value};
ghost use Rattle.std.specs.Option.{ForSome};
ghost use Rattle.session_io.specs.StreamCalls.{SomeCalls};
ghost use Rattle.node_threads.specs.ConsoleSession.{Takes, TakesQuery, Queries, GreetsConsole, ServesConsole};

use crate::session::admin_input::next_message;
use crate::session::admin_replies::{query_of, reply, texts};
use crate::{Calling, Link, Node, Observer, SessionEnd};
use locked_node::Caller;
use peer_forward::{ReadCalls, WriteCalls, write_whole};
use pg_frames::{Cutter, Frame};
use session_io::refuse;
use startup::{ErrorCode, Reports, write_login};
use std::alloc::Global;
use std::sync::Wait;

/// The database of the console, by which a client asks for it.
pub const CONSOLE: &str = "pgbouncer";

/// Serves a session on the console from its login to its end. Its client has no pass, and gets no
/// key. It is answered by a copy of the node's state, and the node's steps aren't counted.
#[inline(never)]
pub fn serve_console<R: Wait, L: Drop, C: WriteCalls + ReadCalls, V: Observer<L>>(
    rt: &R,
    alloc: Global,
    observer: &V,
    reports: &Reports,
    calling: &mut Calling<L>,
    client: &mut C,
    cutter: &mut Cutter,
)
    ensures same { calling.new.caller ≡ calling.old.caller }
    // The client was greeted, each of its queries was answered before more was read, and what ended
    // the session was written.
    ensures served { ForSome
        (slice_get (arc_value (arc_value calling.old.node).group) (arc_value calling.old.node).place)
        (λ settings. SomeCalls C.wrote C.gave client.old client.new (λ calls. ServesConsole
        cutter.old.limit reports.now settings calling.old.caller cutter.old.bytes calls
        cutter.new.bytes)) }
{
    let mut code = None;
    if greet(alloc, reports, client, &mut code) {
        observer.console_logged_in();
        let node = &calling.node;
        serve_queries(
            rt,
            alloc,
            node,
            &mut calling.caller,
            client,
            cutter,
            &mut code,
        );
        let refusal = None;
        observer.session_ended(SessionEnd { code, refusal });
    } else if let Some(code) = code {
        observer.login_refused(code);
    }
}

// Writes the messages of a login. Returns whether the session goes on. The code of an error that
// ends it is noted, here and below.
fn greet<C: WriteCalls + ReadCalls>(
    alloc: Global,
    reports: &Reports,
    client: &mut C,
    code: &mut Option<ErrorCode>,
) -> bool
    ensures { SomeCalls C.wrote C.gave client.old client.new (GreetsConsole reports.now result) }
{
    let mut login = Vec::new(alloc);
    if write_login(None, reports, &mut login).is_err() {
        refuse(alloc, client, ErrorCode::OutOfMemory);
        *code = Some(ErrorCode::OutOfMemory);
        return false;
    }
    write_whole(client, login.as_slice())
}

// Serves the messages of a client that was greeted, up to the end of its session.
fn serve_queries<R: Wait, L: Drop, C: WriteCalls + ReadCalls>(
    rt: &R,
    alloc: Global,
    node: &Node<L>,
    caller: &mut Caller<Link<L>>,
    client: &mut C,
    cutter: &mut Cutter,
    code: &mut Option<ErrorCode>,
)
    requires own { caller.old.lock ≡ node.now.shared }
    ensures same { caller.new ≡ caller.old }
    ensures queries { ForSome (slice_get (arc_value node.now.group) node.now.place) (λ settings.
        SomeCalls C.wrote C.gave client.old client.new (λ calls. Queries cutter.old.limit settings
        caller.old cutter.old.bytes calls cutter.new.bytes)) }
{
    for _ in rt.forever() {
        let Some(message) = next_message(rt, alloc, client, cutter, code) else {
            return;
        };
        if !serve_message(rt, alloc, node, caller, client, &message, code) {
            return;
        }
    }
    unreachable!()
}

// Serves one message of the client. Returns whether the session goes on.
fn serve_message<R: Wait, L: Drop, C: WriteCalls + ReadCalls>(
    rt: &R,
    alloc: Global,
    node: &Node<L>,
    caller: &mut Caller<Link<L>>,
    client: &mut C,
    message: &Frame,
    code: &mut Option<ErrorCode>,
) -> bool
    requires own { caller.old.lock ≡ node.now.shared }
    ensures same { caller.new ≡ caller.old }
    ensures takes { ForSome (slice_get (arc_value node.now.group) node.now.place) (λ settings.
        SomeCalls C.wrote C.gave client.old client.new
        (Takes settings caller.old message.now result)) }
{
    match message.kind {
        b'Q' => serve_query(
            rt,
            alloc,
            node,
            caller,
            client,
            message.body.as_slice(),
            code,
        ),
        b'X' => false,
        _ => {
            refuse(alloc, client, ErrorCode::FeatureNotSupported);
            *code = Some(ErrorCode::FeatureNotSupported);
            false
        }
    }
}

// Serves a Query with this body. Returns whether the session goes on.
fn serve_query<R: Wait, L: Drop, C: WriteCalls + ReadCalls>(
    rt: &R,
    alloc: Global,
    node: &Node<L>,
    caller: &mut Caller<Link<L>>,
    client: &mut C,
    body: &[u8],
    code: &mut Option<ErrorCode>,
) -> bool
    requires own { caller.old.lock ≡ node.now.shared }
    ensures same { caller.new ≡ caller.old }
    ensures takes { ForSome (slice_get (arc_value node.now.group) node.now.place) (λ settings.
        SomeCalls C.wrote C.gave client.old client.new
        (TakesQuery settings caller.old body.now result)) }
{
    let Some(query) = query_of(body) else {
        refuse(alloc, client, ErrorCode::ProtocolViolation);
        *code = Some(ErrorCode::ProtocolViolation);
        return false;
    };
    let Ok(frames) = reply(rt, alloc, node, caller, query) else {
        return false;
    };
    let Ok(bytes) = texts(alloc, &frames) else {
        return false;
    };
    write_whole(client, bytes.as_slice())
}
