//! Messages above the limit are reported to the observer.
use crate::{Link, Observer, Opener, Sender};
use client_state::{Client, Refusal};
use pg_frames::Cutter;
use pg_ids::DatabaseNo;
use session_io::length_above;

/// Notifies the observer if a session has ended because its client's next message, or the messages of
/// an extended query together, are above the limit.
#[cold]
#[inline(never)]
pub fn tell_of_client<O: Opener>(opener: &O, session: &Client, cutter: &Cutter) {
    let limit = session.limit();
    let bytes = match session.refusal() {
        Some(Refusal::TooLong(bytes)) => Some(bytes),
        // A message that is above the limit alone isn't cut, so it is still there.
        Some(Refusal::Malformed) | None => length_above(limit, cutter.pending()),
        Some(_) => None,
    };
    if let Some(bytes) = bytes {
        let database = session.database();
        let observer = opener.observer();
        observer.message_refused(database, Sender::Client, bytes, limit.get());
    }
}

/// Notifies the observer if the next message on this link to a database is above the limit.
#[cold]
#[inline(never)]
pub fn tell_of_server<O: Opener, L>(opener: &O, database: DatabaseNo, link: &mut Link<L>) {
    let limit = link.limit();
    if let Some(bytes) = link.next_above() {
        let observer = opener.observer();
        observer.message_refused(database, Sender::Server, bytes, limit.get());
    }
}
