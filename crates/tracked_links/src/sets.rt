//! A query of the pooler's own is carried to a server.
ghost use Rattle.std.specs.Prelude.{◌≡◌, IfOk, IsTrue, OnErr};
ghost use Rattle.pg_frames.specs.Passage.{start};
ghost use Rattle.client_state.specs.Request.{IsRequest};
ghost use Rattle.session_io.specs.StreamCalls.{SomeCalls};
ghost use Rattle.session_io.specs.declared.session.outcome.Stayed.TheVariants.{Release};
ghost use Rattle.tracked_links.specs.Sets.{SetsLink, HasAnswered, IsRefusal, IsSet};

use crate::set_error::SetError;
use crate::sink::Sink;
use client_state::{Client, DatabaseNo};
use link_state::first_error;
use peer_forward::{ReadCalls, WriteCalls};
use pg_frames::Cutter;
use session_io::{Link, Stayed, stay};
use std::alloc::Global;
use std::sync::Wait;

/// How a query of the pooler's own ended on a link.
#[derive(Debug, Drop)]
#[must_use]
pub enum SetEnd {
    /// The server has answered it without an error. The link is as it was.
    Set,
    /// The server has answered it with an error, which is this message. The link is as it was.
    Refused(Vec<u8>),
    /// The link is to be closed.
    Lost,
}

/// Sends a query of the pooler's own on a link that is at its start, and reads the whole reply, as
/// `stay` does for a client: here no client is told of it. A reply is `Lost` that doesn't end in an
/// idle ReadyForQuery with nothing behind it, or of which more than 4,096 bytes came without an error
/// among the first, and so is an error for whose copy memory is refused. An `Err` leaves the link
/// untouched.
pub fn set_link<R: Wait, L: WriteCalls + ReadCalls>(
    rt: &R,
    alloc: Global,
    link: &mut Link<L>,
    database: DatabaseNo,
    query: Vec<u8>,
) -> Result<SetEnd, SetError>
    requires { link.old.flow ≡ start link.old.flow.limit }
    // The link is sent this query and nothing else, and read up to the end of the reply.
    ensures sets { IfOk result (λ end. SomeCalls L.wrote L.gave link.old.stream link.new.stream
        (λ on_link. SetsLink link.old.flow.limit query.items on_link end link.new.flow)) }
    ensures request { IfOk result (λ _. IsRequest link.old.flow.limit query.items) }
    ensures err { OnErr result (link.new ≡ link.old) }
{
    let limit = link.limit();
    let mut session = Client::with_limit(alloc, limit, database);
    if !session.is_request(query.as_slice()) {
        return Err(SetError::TooLong);
    }
    let mut sink = Sink::new(alloc)?;
    let mut cutter = Cutter::with_limit(alloc, limit);
    let len = query.len();
    let request = session.ask(query, len);
    let stayed = stay(rt, &mut session, &mut sink, &mut cutter, link, request);
    Ok(end_of(alloc, &stayed, &sink))
}

// How it ended, by how the stay ended and what the sink took.
fn end_of(alloc: Global, stayed: &Stayed, sink: &Sink) -> SetEnd
    ensures { HasAnswered sink.now stayed.now result }
{
    if !is_release(stayed) {
        return SetEnd::Lost;
    }
    match first_error(sink.kept()) {
        Some(error) => refused(alloc, error),
        None => whole(sink.is_over()),
    }
}

// The end where no error is among what was kept.
fn whole(is_over: bool) -> SetEnd
    ensures { IsSet is_over result }
{
    if is_over { SetEnd::Lost } else { SetEnd::Set }
}

// The end at this error.
fn refused(alloc: Global, error: &[u8]) -> SetEnd
    ensures { IsRefusal error.now result }
{
    let mut copy = Vec::new(alloc);
    match copy.extend_from_slice(error) {
        Ok(()) => SetEnd::Refused(copy),
        Err(_) => SetEnd::Lost,
    }
}

// Whether the link is to be given back.
fn is_release(stayed: &Stayed) -> bool
    ensures { IsTrue result → stayed.now ≡ Release }
{
    match stayed {
        Stayed::Release => true,
        Stayed::Close | Stayed::End(_) => false,
    }
}
