//! The reply to a request is read from the link and passed on to the client.
ghost use Rattle.std.specs.Prelude.{◌≡◌, ◌≤◌, ◌+◌, ◌-◌, ◌++◌, ◌∷◌, [], ℕ, List, true, false, length, take, drop, IsTrue, None, Some, IfSome};
ghost use Rattle.peer_forward.specs.Calls.{Call, Makes};
ghost use Rattle.pg_frames.specs.FrameText.{HasFault};
ghost use Rattle.pg_frames.specs.Passage.{start, fed, forgotten, after, HasNoNext, BeginsWith};
ghost use Rattle.startup.specs.declared.error_code.ErrorCode.TheVariants.{ConnectionFailure};
ghost use Rattle.client_state.specs.Acts.{ready_text, head_act, after_head};
ghost use Rattle.client_state.specs.LinkMessage.{link_message};
ghost use Rattle.client_state.specs.declared.link_message.LinkMessage.TheVariants.{PassOn};
ghost use Rattle.session_io.specs.StreamCalls.{SomeCalls, Wrote, WroteSome, Read, IsFailedRead};
ghost use Rattle.session_io.specs.Asking.{IsError};
ghost use Rattle.session_io.specs.Replying.{EndsStay, Replies};
ghost use Rattle.session_io.specs.Progress.{asking, in_transaction, HandedOut, HandedLast, HandsOut, IsDry, KeepsSession, EndsHere, GoesOn, LeavesBehind, ArePassedOn, HeadMeans, PieceMeans, after_part, after_tail, Refuses, FinishesIdle, FinishesOpen};
ghost use Rattle.session_io.specs.declared.session.outcome.Stayed.{Stayed};
ghost use Rattle.session_io.specs.declared.session.place.Place.{Place as PlaceOf};

use crate::Stayed;
use crate::session::channel::{Channel, read_more};
use crate::session::place::{Handed, Place};
use client_state::{Act, Client, HeadAct, Reply, is_passed_on};
use peer_forward::{ReadCalls, WriteCalls, write_whole};
use pg_frames::{Flow, FrameError, Header, MessageLimit, Piece, whole_head_of};
use std::sync::Wait;

// How many bytes a ReadyForQuery takes.
const READY_LEN: usize = 6;

/// Passes the reply to a request on to the client. It returns nothing where the reply leaves a
/// transaction open and the stay goes on.
pub fn pass_reply<R: Wait, C: WriteCalls + ReadCalls, L: WriteCalls + ReadCalls>(
    rt: &R,
    session: &mut Client,
    client: &mut C,
    link: &mut Channel<L>,
) -> Option<Stayed>
    requires session { session.old ≡ asking session.old.limit session.old.database }
    requires between { link.old.flow.left ≡ None }
    requires written { link.old.flow.passed ≡ [] }
    ensures goes_on { result ≡ None → SomeCalls L.wrote L.gave link.old.stream link.new.stream
        (λ reads. SomeCalls C.wrote C.gave client.old client.new
        (λ tells. GoesOn link.old.flow.limit link.old.flow.bytes [] reads tells)) }
    ensures open { result ≡ None → session.new ≡ in_transaction session.old.limit session.old.database }
    ensures drained { result ≡ None → link.new.flow ≡ start link.old.flow.limit }
    ensures ends { IfSome result (λ stayed.
        SomeCalls L.wrote L.gave link.old.stream link.new.stream
        (λ reads. SomeCalls C.wrote C.gave client.old client.new
        (λ tells. EndsHere link.old.flow.limit link.old.flow.bytes [] reads tells stayed))) }
    ensures leaves { IfSome result
        (λ stayed. LeavesBehind link.old.flow.limit stayed session.old session.new link.new.flow) }
{
    let mut place = Place::Between;
    for _ in rt.forever() {
        match hand_out(session, &mut link.flow, place) {
            Handed::More(now) => {
                if let Some(stayed) = read_on(session, client, link, now) {
                    return Some(stayed);
                }
                place = now;
            }
            Handed::Ready(status) => return finish(session, client, &mut link.flow, status),
            Handed::Refused(error) => return Some(refuse(client, &mut link.flow, 5, error)),
        }
    }
    unreachable!()
}

// Hands out what is there of a reply.
fn hand_out(session: &mut Client, flow: &mut Flow, place: Place) -> Handed
    requires { session.old ≡ asking session.old.limit session.old.database }
    ensures handed { (limit : ℕ) (stream written : List ℕ)
        → HandedOut limit stream written place flow.old
        → HandsOut limit stream written result flow.new }
    ensures dry { IsDry result flow.new }
    ensures session { KeepsSession result session.old session.new }
{
    if flow.is_at_start() {
        return Handed::More(place);
    }
    let mut place = place;
    loop {
        if let Some(status) = pass_frames(flow) {
            return Handed::Ready(status);
        }
        let Some(piece) = flow.next() else {
            return Handed::More(place);
        };
        match on_piece(session, place, piece) {
            Handed::More(next) => place = next,
            Handed::Ready(status) => return Handed::Ready(status),
            Handed::Refused(error) => return Handed::Refused(error),
        }
    }
}

// Hands out the whole frames at the front that are passed on, where no frame was begun, and with
// them the ReadyForQuery behind them, if it is whole. It returns its status then.
fn pass_frames(flow: &mut Flow) -> Option<u8>
    ensures more { result ≡ None → (limit : ℕ) (stream written : List ℕ) (place : PlaceOf)
        → HandedOut limit stream written place flow.old
        → HandedOut limit stream written place flow.new }
    ensures ready { IfSome result (λ status. (limit : ℕ) (stream written : List ℕ) (place : PlaceOf)
        → HandedOut limit stream written place flow.old
        → HandedLast limit stream written (ready_text status) flow.new) }
    ensures fewer { length flow.new.bytes ≤ length flow.old.bytes }
    ensures left { flow.new.left ≡ flow.old.left }
{
    if !flow.is_between() {
        return None;
    }
    let limit = flow.limit();
    // Each limit admits a ReadyForQuery.
    prove!(limit.get() as usize >= READY_LEN);
    let bytes = flow.pending();
    let len = passed_len(limit, bytes);
    match ready_status(bytes.split_at(len).1) {
        Some(status) => {
            flow.pass_frames(len + READY_LEN);
            Some(status)
        }
        None => {
            flow.pass_frames(len);
            None
        }
    }
}

// How many bytes at the front are whole frames that are passed on.
fn passed_len(limit: MessageLimit, bytes: &[u8]) -> usize
    ensures within { result ≤ length bytes.now }
    ensures frames { ArePassedOn limit (take result bytes.now) }
{
    let mut at = 0;
    while let Some(head) = passed_head(limit, bytes.split_at(at).1) {
        at += 1 + head.length;
    }
    at
}

// The head of the whole frame at the front, if it is passed on.
fn passed_head(limit: MessageLimit, bytes: &[u8]) -> Option<Header>
    ensures { IfSome result (λ head. BeginsWith limit bytes.now head
        × (1 + head.length ≤ length bytes.now)
        × (link_message head.kind head.length ≡ PassOn)) }
{
    // Most types are passed on, and the type is judged in fewer steps than the whole head.
    let (kind, after) = bytes.split_first()?;
    if is_passed_on(*kind) {
        whole_head_of(limit, *kind, after)
    } else {
        None
    }
}

// The status of the whole ReadyForQuery at the front.
fn ready_status(bytes: &[u8]) -> Option<u8>
    ensures { IfSome result (λ status. (6 ≤ length bytes.now)
        × (bytes.now ≡ ready_text status ++ drop 6 bytes.now)) }
{
    match bytes {
        [b'Z', 0, 0, 0, 5, status, ..] => Some(*status),
        _ => None,
    }
}

// What a piece of a reply means at this place.
fn on_piece(session: &mut Client, place: Place, piece: Piece<'_>) -> Handed
    requires { IsTrue session.old.leased }
    ensures { PieceMeans place session.old piece.entry result session.new }
{
    match piece {
        Piece::Head { kind, length } => on_head(session, kind, length),
        Piece::Part(part) => Handed::More(after_part(place, part)),
        Piece::Tail => after_tail(place),
    }
}

// What the head of a frame means.
fn on_head(session: &mut Client, kind: u8, length: usize) -> Handed
    requires { IsTrue session.old.leased }
    ensures means { HeadMeans (head_act session.old kind length) result }
    ensures session { session.new ≡ after_head session.old kind length }
{
    match session.on_link_head(kind, length) {
        HeadAct::PassOn => Handed::More(Place::Inside),
        HeadAct::Ready => Handed::More(Place::AtReady),
        HeadAct::Close(error) => Handed::Refused(error),
    }
}

// Where a reader is after a part of a body.
fn after_part(place: Place, part: &[u8]) -> Place
    ensures { result ≡ after_part place part.now }
{
    match (place, part.first()) {
        (Place::AtReady, Some(status)) => Place::Status(*status),
        _ => place,
    }
}

// What the end of a frame means.
fn after_tail(place: Place) -> Handed
    ensures { result ≡ after_tail place }
{
    match place {
        Place::Status(status) => Handed::Ready(status),
        _ => Handed::More(Place::Between),
    }
}

// Writes to the client what was handed out, except the last `withheld` bytes, and forgets it. It
// returns whether the client took it.
fn pass_on<C: WriteCalls + ReadCalls>(client: &mut C, flow: &mut Flow, withheld: usize) -> bool
    requires { withheld ≤ length flow.old.passed }
    ensures told { result ≡ true → SomeCalls C.wrote C.gave client.old client.new
        (Wrote (take (length flow.old.passed - withheld) flow.old.passed)) }
    ensures untold { result ≡ false → SomeCalls C.wrote C.gave client.old client.new
        (WroteSome (take (length flow.old.passed - withheld) flow.old.passed)) }
    ensures flow { flow.new ≡ forgotten flow.old (length flow.old.passed - withheld) }
{
    let passed = flow.passed();
    let count = passed.len() - withheld;
    if count == 0 {
        return true;
    }
    let told = write_whole(client, passed.split_at(count).0);
    flow.forget(count);
    told
}

// Passes on what was handed out, and reads more of the reply. It returns how the stay ended, if it
// did.
fn read_on<C: WriteCalls + ReadCalls, L: WriteCalls + ReadCalls>(
    session: &mut Client,
    client: &mut C,
    link: &mut Channel<L>,
    place: Place,
) -> Option<Stayed>
    requires session { session.old ≡ asking session.old.limit session.old.database }
    requires dry { HasNoNext link.old.flow.limit link.old.flow.left link.old.flow.bytes }
    requires handed { (limit : ℕ) × (stream : List ℕ) × (written : List ℕ)
        × HandedOut limit stream written place link.old.flow }
    ensures more { result ≡ None → (call : Call)
        × Makes L.wrote L.gave link.old.stream (call ∷ []) link.new.stream
        × SomeCalls C.wrote C.gave client.old client.new
        (λ tells. (bytes : List ℕ) × Read bytes (call ∷ []) × (text : List ℕ) × Wrote text tells
        × ((limit : ℕ) (stream written : List ℕ)
        → HandedOut limit stream written place link.old.flow
        → HandedOut limit (stream ++ bytes) (written ++ text) place link.new.flow)) }
    ensures sound { result ≡ None → HasFault link.old.flow.limit (after link.old.flow) None }
    ensures session { result ≡ None → session.new ≡ session.old }
    ensures ends { IfSome result (λ stayed.
        SomeCalls L.wrote L.gave link.old.stream link.new.stream
        (λ reads. SomeCalls C.wrote C.gave client.old client.new
        (λ tells. (limit : ℕ) (stream written : List ℕ)
        → HandedOut limit stream written place link.old.flow
        → EndsHere limit stream written reads tells stayed))) }
    ensures leaves { IfSome result
        (λ stayed. LeavesBehind link.old.flow.limit stayed session.old session.new link.new.flow) }
{
    if !pass_on(client, &mut link.flow, place.withheld()) {
        return Some(Stayed::End(Reply::nothing()));
    }
    if fault_of(&link.flow).is_some() {
        return Some(Stayed::End(lost(session)));
    }
    if read_more(link) {
        return None;
    }
    match place {
        Place::Inside => Some(Stayed::End(Reply::nothing())),
        _ => Some(Stayed::End(lost(session))),
    }
}

// The fault at the front of the rest of what was read.
fn fault_of(flow: &Flow) -> Option<FrameError>
    ensures { HasFault flow.now.limit (after flow.now) result }
{
    // Mostly nothing was read: this is before a reply.
    if flow.pending().is_empty() {
        None
    } else {
        flow.fault()
    }
}

// The error of a lost link.
pub fn lost(session: &mut Client) -> Reply
    requires { IsTrue session.old.leased }
    ensures { IsError ConnectionFailure result }
{
    match session.on_link_fault() {
        Act::Close(error) => error,
        _ => Reply::nothing(),
    }
}

// Passes on a reply up to its ReadyForQuery. It returns how the stay ended, unless the reply leaves
// a transaction open and nothing follows it.
fn finish<C: WriteCalls + ReadCalls>(
    session: &mut Client,
    client: &mut C,
    flow: &mut Flow,
    status: u8,
) -> Option<Stayed>
    requires session { session.old ≡ asking session.old.limit session.old.database }
    requires handed { (limit : ℕ) × (stream : List ℕ) × (written : List ℕ)
        × HandedLast limit stream written (ready_text status) flow.old }
    ensures goes_on { result ≡ None → SomeCalls C.wrote C.gave client.old client.new
        (λ tells. (limit : ℕ) (stream written : List ℕ)
        → HandedLast limit stream written (ready_text status) flow.old
        → GoesOn limit stream written [] tells) }
    ensures open { result ≡ None → session.new ≡ in_transaction session.old.limit session.old.database }
    ensures drained { result ≡ None → flow.new ≡ start flow.old.limit }
    ensures ends { IfSome result (λ stayed. SomeCalls C.wrote C.gave client.old client.new
        (λ tells. (limit : ℕ) (stream written : List ℕ)
        → HandedLast limit stream written (ready_text status) flow.old
        → EndsHere limit stream written [] tells stayed)) }
    ensures leaves { IfSome result
        (λ stayed. LeavesBehind flow.old.limit stayed session.old session.new flow.new) }
{
    match session.on_ready(status) {
        Act::Release(_) => Some(finish_idle(client, flow)),
        Act::ToClient(_) => finish_in_transaction(client, flow),
        Act::Close(error) => Some(refuse(client, flow, 6, error)),
        _ => unreachable!(),
    }
}

// Passes on a reply that leaves no transaction open.
fn finish_idle<C: WriteCalls + ReadCalls>(client: &mut C, flow: &mut Flow) -> Stayed
    ensures told { SomeCalls C.wrote C.gave client.old client.new
        (FinishesIdle flow.old.passed flow.old.bytes result) }
    ensures flow { flow.new ≡ record flow.old { passed = [] } }
{
    if !pass_on(client, flow, 0) {
        return Stayed::End(Reply::nothing());
    }
    if flow.pending().is_empty() {
        Stayed::Release
    } else {
        Stayed::Close
    }
}

// Passes on a reply that leaves a transaction open.
fn finish_in_transaction<C: WriteCalls + ReadCalls>(
    client: &mut C,
    flow: &mut Flow,
) -> Option<Stayed>
    ensures told { SomeCalls C.wrote C.gave client.old client.new
        (FinishesOpen flow.old.passed flow.old.bytes result) }
    ensures flow { flow.new ≡ record flow.old { passed = [] } }
    ensures ends { IfSome result (λ stayed. stayed ≡ Stayed.End []) }
{
    if pass_on(client, flow, 0) && flow.pending().is_empty() {
        None
    } else {
        Some(Stayed::End(Reply::nothing()))
    }
}

// Passes on what was handed out, except the last `withheld` bytes, and ends with an error.
fn refuse<C: WriteCalls + ReadCalls>(
    client: &mut C,
    flow: &mut Flow,
    withheld: usize,
    error: Reply,
) -> Stayed
    requires { withheld ≤ length flow.old.passed }
    ensures { SomeCalls C.wrote C.gave client.old client.new
        (Refuses (take (length flow.old.passed - withheld) flow.old.passed) error result) }
{
    if pass_on(client, flow, withheld) {
        Stayed::End(error)
    } else {
        Stayed::End(Reply::nothing())
    }
}
