//! A login at a server.
ghost use Rattle.std.specs.Prelude.{◌≡◌, ◌↔◌, ◌+◌, ◌≤◌, ℕ, List, [], ◌∷◌, ◌++◌, length, Some, None, Ok, Err, IfOk};
ghost use Rattle.pg_frames.specs.declared.frame.Frame.{Frame};
ghost use Rattle.startup.specs.StartupMessage.{HasNoZero, startup_request};
ghost use Rattle.link_state.specs.declared.error.LinkError.{LinkError};
ghost use Rattle.link_state.specs.Login.{GoOn, IsUpAt, IsRefused, HasRead, HasHead, body_part, Reaches, ReadsOn};

use crate::head::Head;
use crate::stage::Stage;
use crate::{LinkAct, LinkError, LoginHead};
use startup::write_startup;
use std::alloc::{AllocError, Global};
use std::marker::Model;

/// A login at a server, from its StartupMessage on. In contracts it is these bytes and the stage
/// that it has reached; `HasRead` says which messages of the server lead there, and `HasReadHead`
/// which messages and the head of one more.
#[derive(Debug, Drop)]
pub struct LinkLogin {
    request: Vec<u8>,
    stage: Stage,
}

impl Model for LinkLogin {
    ghost use Rattle.link_state.specs.Login.{Login};

    ghost Value = { Login };

    ghost view = { λ l. record { request = l.request.items; stage = l.stage } };
}

impl LinkLogin {
    /// A login as this user to this database, to which the server hasn't sent anything yet.
    pub fn new(alloc: Global, user: &str, database: &str) -> Result<LinkLogin, AllocError>
        requires user { HasNoZero user.now }
        requires database { HasNoZero database.now }
        requires short { length user.now + length database.now ≤ 8000 }
        ensures request { IfOk result (λ login.
            login.request ≡ startup_request user.now database.now) }
        ensures read { IfOk result (λ login. HasRead login []) }
    {
        let mut request = Vec::new(alloc);
        if write_startup(user, database, &mut request).is_err() {
            return Err(AllocError);
        }
        Ok(LinkLogin {
            request,
            stage: Stage::Waiting(None),
        })
    }

    /// The StartupMessage, which is written to the server before anything is read (PostgreSQL
    /// manual, "Start-up").
    pub fn first_bytes(&self) -> &[u8]
        ensures { result.now ≡ self.now.request }
    {
        self.request.as_slice()
    }

    /// What to do with the server's next message, by its type and its length field, which counts
    /// itself: pass over its body, or hand the first bytes of its body to `on_body`. While those
    /// are to come, nothing changes. It takes no memory.
    pub fn on_head(&mut self, kind: u8, length: usize) -> Result<LoginHead, LinkError>
        // A body is passed over exactly where the head alone says that the login goes on.
        ensures skip { (frames : List Frame) (frame : Frame)
            → HasRead self.old frames → HasHead frame kind length → (result ≡ Ok LoginHead.Skip)
            ↔ (GoOn (frames ++ frame ∷ []) × (body_part kind length ≡ None)) }
        // Of an AuthenticationRequest four bytes are read, of a BackendKeyData eight and of a
        // ReadyForQuery one.
        ensures body { (frames : List Frame) → HasRead self.old frames → (n : ℕ)
            → (result ≡ Ok (LoginHead.Body n)) ↔ (GoOn frames × (body_part kind length ≡ Some n)) }
        // Each refusal comes exactly in its case, as soon as the head says so.
        ensures refused { (frames : List Frame) (frame : Frame)
            → HasRead self.old frames → HasHead frame kind length → (error : LinkError)
            → (result ≡ Err error) ↔ (IsRefused error (frames ++ frame ∷ [])
            × (GoOn frames → body_part kind length ≡ None)) }
        // What was refused once is refused in the same way from then on.
        ensures again { (frames : List Frame) → HasRead self.old frames → (error : LinkError)
            → IsRefused error frames → result ≡ Err error }
        ensures read { (frames : List Frame) → HasRead self.old frames
            → ReadsOn result self.new frames kind length }
        ensures request { self.new.request ≡ self.old.request }
    {
        let head = Head::of(kind, length);
        self.stage = self.stage.after_head(head);
        self.stage.head_answer()
    }

    /// What comes of the message whose head asked for these bytes of its body. Bytes that no head
    /// asked for change nothing. It takes no memory.
    pub fn on_body(&mut self, body: &[u8]) -> Result<LinkAct, LinkError>
        // More is wanted exactly while the login goes on after each message so far.
        ensures more { (frames : List Frame) (frame : Frame)
            → Reaches self.old frames frame body.now
            → (result ≡ Ok LinkAct.More) ↔ GoOn (frames ++ frame ∷ []) }
        // It is up exactly at the first ReadyForQuery, where that is idle and nothing was refused
        // before, with the key of the last BackendKeyData before it.
        ensures up { (frames : List Frame) (frame : Frame)
            → Reaches self.old frames frame body.now → (key : List ℕ)
            → (result ≡ Ok (LinkAct.Up key)) ↔ IsUpAt frames frame key }
        // Each refusal comes exactly in its case.
        ensures refused { (frames : List Frame) (frame : Frame)
            → Reaches self.old frames frame body.now → (error : LinkError)
            → (result ≡ Err error) ↔ IsRefused error (frames ++ frame ∷ []) }
        ensures read { (frames : List Frame) (frame : Frame)
            → Reaches self.old frames frame body.now → HasRead self.new (frames ++ frame ∷ []) }
        ensures request { self.new.request ≡ self.old.request }
    {
        self.stage = self.stage.after_body(body);
        self.stage.body_answer()
    }
}
