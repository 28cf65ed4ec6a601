//! The machine of one client's session.
ghost use Rattle.std.specs.Prelude.{◌≡◌, ◌⊎◌, ◌↔◌, ◌≤◌, ◌<◌, ◌+◌, true, false, [], ◌++◌, length, take, vec_len, IsTrue, IfSome};
ghost use Rattle.pg_frames.specs.FrameText.{text};
ghost use Rattle.startup.specs.declared.error_code.ErrorCode.TheVariants.{ProtocolViolation, ConnectionFailure};
ghost use Rattle.client_state.specs.Refusal.{IsAbove};
ghost use Rattle.client_state.specs.Request.{IsRequest};
ghost use Rattle.client_state.specs.Acts.{start, over, ends, fatal, ActsOn, ActsOnClient, EndsWith, head_act, after_head, act_on_head, session_at, IsHeadAct, ready_act, after_ready, IsReadyAct};

use crate::client_message::{ClientMessage, is_request};
use crate::link_message::{LinkMessage, Status};
use crate::{Act, DatabaseNo, HeadAct, Refusal, Reply, Request};
use pg_frames::{Frame, MAX_MESSAGE, MessageLimit, put_frame_within};
use startup::{ErrorCode, Severity};
use std::alloc::Global;
use std::marker::Model;

// How many bytes of memory a session keeps at most for what it gathers.
const KEPT: usize = 1_024;

/// A client's session, from its login on. In contracts it is its limit, its database, whether it holds a
/// lease, how many requests are outstanding, and the texts that it has gathered for its next
/// request.
#[derive(Drop)]
pub struct Client {
    alloc: Global,
    limit: MessageLimit,
    database: DatabaseNo,
    stage: Stage,
    gathered: Vec<u8>,
    // Why it ended with an error.
    refusal: Option<Refusal>,
}

// A request is outstanding only on a lease, and one at most, since the next is read after its
// ReadyForQuery.
#[derive(Clone, Copy)]
enum Stage {
    NoLease,
    Leased,
    Asking,
}

impl Model for Client {
    ghost use Rattle.std.specs.Prelude.{◌≤◌, length, IfSome};
    ghost use Rattle.client_state.specs.Refusal.{IsAbove};
    ghost use Rattle.client_state.specs.Session.{Session};

    ghost Value = { Session };

    ghost use Rattle.client_state.specs.Stages.{is_leased, outstanding_of};

    ghost view = { λ c. record {
      limit = c.limit;
      database = c.database;
      leased = is_leased c.stage;
      outstanding = outstanding_of c.stage;
      gathered = c.gathered.items;
    } };

    ghost invariant = { λ c. (length c.gathered.items ≤ c.limit)
        × IfSome c.refusal (IsAbove c.limit) };
}

impl Client {
    /// A session that holds no lease, with nothing outstanding and nothing gathered. A request has
    /// at most `MAX_MESSAGE` bytes. It takes no memory.
    pub fn new(alloc: Global, database: DatabaseNo) -> Client
        ensures { result ≡ start MAX_MESSAGE database }
    {
        Client::with_limit(alloc, MessageLimit::DEFAULT, database)
    }

    /// The same with another limit of a request: of the length field of a Query, and of the bytes
    /// of an extended query's messages before their Sync.
    pub fn with_limit(alloc: Global, limit: MessageLimit, database: DatabaseNo) -> Client
        ensures { result ≡ start limit database }
    {
        Client {
            alloc,
            limit,
            database,
            stage: Stage::NoLease,
            gathered: Vec::new(alloc),
            refusal: None,
        }
    }

    /// The limit of a request.
    pub fn limit(&self) -> MessageLimit
        ensures { result ≡ self.now.limit }
    {
        self.limit
    }

    /// The database that the client logged in to.
    pub fn database(&self) -> DatabaseNo
        ensures { result ≡ self.now.database }
    {
        self.database
    }

    /// Whether nothing is outstanding, so that the client's next frame may be read.
    pub fn may_read(&self) -> bool
        ensures nothing { IsTrue result ↔ (self.now.outstanding ≡ 0) }
        // A request is outstanding only on a lease, and one at most.
        ensures one { self.now.outstanding ≤ 1 }
        ensures on_lease { self.now.leased ≡ false → self.now.outstanding ≡ 0 }
        // What is gathered has a limit.
        ensures gathered { length self.now.gathered ≤ self.now.limit }
    {
        match self.stage {
            Stage::NoLease | Stage::Leased => true,
            Stage::Asking => false,
        }
    }

    /// Whether the session holds a lease.
    pub fn holds_lease(&self) -> bool
        ensures { result ≡ self.now.leased }
    {
        match self.stage {
            Stage::NoLease => false,
            Stage::Leased | Stage::Asking => true,
        }
    }

    /// What to do with the client's next frame. A request counts as outstanding from then on. The
    /// contract also allows the end of the session without an error, which comes where memory is
    /// refused.
    pub fn on_client(&mut self, frame: &Frame) -> Act
        requires { self.old.outstanding ≡ 0 }
        ensures { ActsOnClient self.old frame.now result self.new }
    {
        match ClientMessage::of(self.limit, self.gathered.len(), frame) {
            ClientMessage::Terminate => self.end(Reply::nothing()),
            ClientMessage::Refused(code) => self.refuse(frame, code),
            ClientMessage::Gathered => self.gather(frame),
            ClientMessage::Request => self.request(frame),
        }
    }

    /// Why the session ended with an error of its own. The contract says only that messages which are
    /// together too long are above the limit.
    pub fn refusal(&self) -> Option<Refusal>
        ensures { IfSome result (IsAbove self.now.limit) }
    {
        self.refusal
    }

    /// What to do where the client's stream isn't cut into frames: it violates the protocol.
    pub fn on_client_fault(&mut self) -> Act
        ensures act { EndsWith self.old.leased ProtocolViolation result }
        ensures state { self.new ≡ over self.old }
    {
        self.end_with(Refusal::Malformed, ErrorCode::ProtocolViolation)
    }

    /// What to do with the link's next frame, by its type and its length field, which counts
    /// itself.
    pub fn on_link_head(&mut self, kind: u8, length: usize) -> HeadAct
        requires { IsTrue self.old.leased }
        ensures act { IsHeadAct (head_act self.old kind length) result }
        ensures state { self.new ≡ after_head self.old kind length }
    {
        match LinkMessage::of(kind, length) {
            LinkMessage::PassOn => HeadAct::PassOn,
            LinkMessage::Ready => self.on_ready_head(),
            LinkMessage::Refused(code) => self.close(Refusal::of_link(kind, length), code),
        }
    }

    /// What to do with the ReadyForQuery whose status byte this is.
    pub fn on_ready(&mut self, status: u8) -> Act
        requires { IsTrue self.old.leased }
        ensures act { IsReadyAct (ready_act self.old status) result }
        ensures state { self.new ≡ after_ready self.old status }
    {
        if self.may_read() {
            return self.lose(Refusal::OutOfPlace);
        }
        match Status::of(status) {
            Status::Idle => {
                self.stage = Stage::NoLease;
                Act::Release(Reply::ready(status))
            }
            Status::InTransaction => {
                self.stage = Stage::Leased;
                Act::ToClient(Reply::ready(status))
            }
            Status::Unknown => self.lose(Refusal::LinkMessage),
        }
    }

    /// What to do where the link's stream isn't cut into frames, ends or fails: the link is lost.
    pub fn on_link_fault(&mut self) -> Act
        requires { IsTrue self.old.leased }
        ensures act { EndsWith true ConnectionFailure result }
        ensures state { self.new ≡ over self.old }
    {
        self.lose(Refusal::LinkLost)
    }

    /// Forgets the request that `Need` handed out, for which no link was acquired. It takes no
    /// memory.
    pub fn drop_request(&mut self)
        ensures { self.new ≡ over self.old }
    {
        self.stage = Stage::NoLease;
        self.gathered.clear();
    }

    /// Whether these bytes are one whole request: nothing was gathered before, and they are a Query,
    /// or messages of an extended query and their Sync.
    #[inline]
    pub fn is_request(&self, bytes: &[u8]) -> bool
        ensures whole { IsTrue result → IsRequest self.now.limit bytes.now }
        ensures first { IsTrue result → self.now.gathered ≡ [] }
    {
        self.gathered.is_empty() && is_request(self.limit, bytes)
    }

    /// Hands out the first bytes of this memory as a request, which counts as outstanding from then
    /// on. What is gathered stays.
    pub fn ask(&mut self, memory: Vec<u8>, len: usize) -> Request
        requires within { len ≤ vec_len memory }
        requires free { self.old.outstanding ≡ 0 }
        ensures request { result ≡ take len memory.items }
        ensures session { self.new ≡ record self.old { leased = true; outstanding = 1 } }
    {
        self.stage = Stage::Asking;
        Request::front(memory, len)
    }

    /// Takes back a request that was handed out, and returns the memory that was handed to `ask` for
    /// it. Other memory may be used again for what is gathered next.
    pub fn recycle(&mut self, request: Request) -> Option<Vec<u8>>
        ensures { self.new ≡ self.old }
    {
        let is_lent = request.is_lent();
        let mut text = request.into_vec();
        if is_lent {
            return Some(text);
        }
        if self.gathered.is_empty() && text.capacity() <= KEPT {
            text.clear();
            self.gathered = text;
        }
        None
    }

    // Keeps the frame for the request to which it belongs.
    fn gather(&mut self, frame: &Frame) -> Act
        requires { length self.old.gathered + (5 + length frame.now.body) ≤ self.old.limit }
        ensures { ActsOn ClientMessage.Gathered self.old frame.now result self.new }
    {
        match put_frame_within(self.limit, frame, &mut self.gathered) {
            Ok(()) => Act::ToClient(Reply::nothing()),
            Err(_) => self.end(Reply::nothing()),
        }
    }

    // Hands out the request that is whole with this frame.
    fn request(&mut self, frame: &Frame) -> Act
        requires { self.old.outstanding ≡ 0 }
        ensures { ActsOn ClientMessage.Request self.old frame.now result self.new }
    {
        let leased = self.holds_lease();
        if put_frame_within(self.limit, frame, &mut self.gathered).is_err() {
            return self.end(Reply::nothing());
        }
        let text = std::mem::replace(&mut self.gathered, Vec::new(self.alloc));
        self.stage = Stage::Asking;
        if leased {
            Act::ToLink(Request::new(text))
        } else {
            Act::Need(Request::new(text))
        }
    }

    // Ends the session with this error for a message.
    #[cold]
    fn refuse(&mut self, frame: &Frame, code: ErrorCode) -> Act
        ensures { ActsOn (ClientMessage.Refused code) self.old frame.now result self.new }
    {
        let body = frame.body.as_slice();
        let refusal = Refusal::of_client(self.limit, self.gathered.len(), frame.kind, body);
        self.end_with(refusal, code)
    }

    // Ends the session, and closes the link where one is held.
    fn end(&mut self, reply: Reply) -> Act
        ensures act { result ≡ ends self.old.leased reply }
        ensures state { self.new ≡ over self.old }
    {
        let leased = self.holds_lease();
        self.drop_request();
        if leased {
            Act::Close(reply)
        } else {
            Act::End(reply)
        }
    }

    // Ends the session whose link is lost, for this reason.
    fn lose(&mut self, refusal: Refusal) -> Act
        requires leased { IsTrue self.old.leased }
        requires above { IsAbove self.old.limit refusal }
        ensures act { EndsWith true ConnectionFailure result }
        ensures state { self.new ≡ over self.old }
    {
        self.end_with(refusal, ErrorCode::ConnectionFailure)
    }

    // Ends the session for this reason with this error, and without it where memory for it is refused.
    fn end_with(&mut self, refusal: Refusal, code: ErrorCode) -> Act
        requires { IsAbove self.old.limit refusal }
        ensures act { EndsWith self.old.leased code result }
        ensures state { self.new ≡ over self.old }
    {
        self.refusal = Some(refusal);
        let error = self.error(code);
        self.end(error)
    }

    // What to do with a ReadyForQuery, by whether a request is outstanding.
    fn on_ready_head(&mut self) -> HeadAct
        ensures act { IsHeadAct (act_on_head LinkMessage.Ready self.old.outstanding) result }
        ensures state { self.new
            ≡ session_at (act_on_head LinkMessage.Ready self.old.outstanding) self.old }
    {
        if self.may_read() {
            self.close(Refusal::OutOfPlace, ErrorCode::ConnectionFailure)
        } else {
            HeadAct::Ready
        }
    }

    // Closes the link for this reason with this error.
    fn close(&mut self, refusal: Refusal, code: ErrorCode) -> HeadAct
        requires { IsAbove self.old.limit refusal }
        ensures act { (result ≡ HeadAct.Close (fatal code)) ⊎ (result ≡ HeadAct.Close []) }
        ensures state { self.new ≡ over self.old }
    {
        self.refusal = Some(refusal);
        let error = self.error(code);
        self.drop_request();
        HeadAct::Close(error)
    }

    // The session's own error, and nothing where memory for it is refused.
    fn error(&self, code: ErrorCode) -> Reply
        ensures { (result ≡ fatal code) ⊎ (result ≡ []) }
    {
        match Reply::error(self.alloc, Severity::Fatal, code) {
            Ok(error) => error,
            Err(_) => Reply::nothing(),
        }
    }
}
