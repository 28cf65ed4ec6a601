//! The whole table of acts, groups of an extended query's messages, recorded conversations, and
//! each call with enough memory.
use client_state::{Act, Client, DatabaseNo, HeadAct, Reply};
use pg_frames::{Body, Frame};
use startup::{ErrorCode, Severity};
use std::alloc::{AllocError, Global};
use std::process::Abort;
use std::test::Fail;

mod first_frames;
mod groups;
mod link_frames;
mod other_limits;
mod refusals;
mod session_ends;
mod transcripts;
mod whole_requests;

const VIOLATION: &[u8] = b"E\0\0\0\x2eSFATAL\0VFATAL\0C08P01\0Mprotocol violation\0\0";

const LEFT_OUT: &[u8] = b"E\0\0\0\x2fSFATAL\0VFATAL\0C0A000\0Mnot in this profile\0\0";

const LOST: &[u8] = b"E\0\0\0\x32SFATAL\0VFATAL\0C08006\0Mserver connection lost\0\0";

// An act, with the text that it writes.
#[derive(Clone, Copy, Debug, PartialEq, Eq)]
enum Done<'a> {
    ToLink(&'a [u8]),
    ToClient(&'a [u8]),
    Need(&'a [u8]),
    Release(&'a [u8]),
    Close(&'a [u8]),
    End(&'a [u8]),
}

use Done::{Close, End, Need, Release, ToClient, ToLink};

fn done_by(act: &Act) -> Done<'_> {
    match act {
        Act::ToLink(request) => ToLink(request.as_slice()),
        Act::ToClient(reply) => ToClient(reply.as_slice()),
        Act::Need(request) => Need(request.as_slice()),
        Act::Release(reply) => Release(reply.as_slice()),
        Act::Close(reply) => Close(reply.as_slice()),
        Act::End(reply) => End(reply.as_slice()),
    }
}

// The frame whose text this is.
fn frame(alloc: Global, text: &[u8]) -> Result<Frame, AllocError> {
    let [kind, _, _, _, _, body @ ..] = text else {
        return Err(AllocError);
    };
    Ok(Frame {
        kind: *kind,
        body: Body::from_slice(alloc, body)?,
    })
}

// The act, and the text that it writes.
fn assert_done(rt: &impl Abort, act: &Act, expected: Done<'_>) {
    assert_eq!(rt; done_by(act), expected);
}

// The client sends this frame, and this is what is done.
fn assert_client(rt: &impl Abort, client: &mut Client, frame: Frame, expected: Done<'_>) {
    assert!(rt; client.may_read());
    assert_done(rt, &client.on_client(&frame), expected);
}

fn assert_ready(rt: &impl Abort, client: &mut Client, status: u8, expected: Done<'_>) {
    assert!(rt; client.holds_lease());
    assert_done(rt, &client.on_ready(status), expected);
}

const BEGIN: &[u8] = b"Q\0\0\0\x0abegin\0";

const IN_TRANSACTION: &[u8] = b"Z\0\0\0\x05T";

fn new(alloc: Global) -> Client {
    Client::new(alloc, DatabaseNo(3))
}

// A client whose query was sent, and isn't answered.
fn asking(rt: &(impl Abort + AllocGlobal)) -> Result<Client, AllocError> {
    let mut client = new(rt.alloc());
    assert_client(rt, &mut client, frame(rt.alloc(), BEGIN)?, Need(BEGIN));
    Ok(client)
}

// A client whose query was answered, and whose transaction is open.
fn in_transaction(rt: &(impl Abort + AllocGlobal)) -> Result<Client, AllocError> {
    let mut client = asking(rt)?;
    assert_ready(rt, &mut client, b'T', ToClient(IN_TRANSACTION));
    Ok(client)
}

// What a frame asks for.
#[derive(Clone, Copy)]
enum Asks {
    Request,
    Part,
    Leave,
    Violation,
    LeftOut,
}

impl Asks {
    // What a session does about it that holds a lease, or none.
    fn act(self, leased: bool, text: &[u8]) -> Done<'_> {
        match (self, leased) {
            (Asks::Request, false) => Need(text),
            (Asks::Request, true) => ToLink(text),
            (Asks::Part, _) => ToClient(b""),
            (Asks::Leave, false) => End(b""),
            (Asks::Leave, true) => Close(b""),
            (Asks::Violation, false) => End(VIOLATION),
            (Asks::Violation, true) => Close(VIOLATION),
            (Asks::LeftOut, false) => End(LEFT_OUT),
            (Asks::LeftOut, true) => Close(LEFT_OUT),
        }
    }
}
