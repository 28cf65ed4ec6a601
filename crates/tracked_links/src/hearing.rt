//! What is heard on a server connection.
ghost use Rattle.std.specs.Prelude.{◌≡◌, ◌+◌, ◌<◌, ◌≤◌, ◌++◌, ℕ, List, [], false, length, IfOk, OnOk, OnErr};
ghost use Rattle.std.specs.Arc.{arc_value};
ghost use Rattle.std.specs.Option.{option_map};
ghost use Rattle.tracked_parameters.specs.Server.{new_server, after_login};
ghost use Rattle.tracked_parameters.specs.Values.{Fit, value_of};
ghost use Rattle.tracked_links.specs.Heard.{HasHeard};

use crate::heard_status::{hear_message, most_of};
use link_state::{HEAD, Incoming, Progress};
use std::alloc::{AllocError, Global};
use std::marker::Model;
use std::sync::Arc;
use tracked_parameters::{ServerValues, TrackedNames};

/// What is heard on a server connection: the values that the server reports, and the message that is
/// coming. In contracts it is a `HearingState`; `HasHeard` says which bytes it has heard.
#[derive(Drop)]
pub(crate) struct Hearing {
    names: Arc<TrackedNames, Global>,
    server: ServerValues,
    incoming: Incoming,
    // How many bytes of a body are kept at most.
    most: usize,
    stopped: bool,
}

impl Model for Hearing {
    ghost use Rattle.tracked_links.specs.Heard.{HearingState};

    ghost Value = { HearingState };

    ghost use Rattle.tracked_links.specs.HeardInside.{state_inside, IsReady};

    ghost view = { state_inside };

    ghost invariant = { IsReady };
}

impl Hearing {
    /// One that has heard nothing. It takes the memory here that reading needs.
    pub(crate) fn new(
        alloc: Global,
        names: Arc<TrackedNames, Global>,
    ) -> Result<Hearing, AllocError>
        ensures names { IfOk result (λ hearing. hearing.names ≡ arc_value names) }
        ensures server { IfOk result (λ hearing. hearing.server ≡ new_server (arc_value names)) }
        ensures heard { IfOk result (λ hearing. HasHeard hearing []) }
    {
        let server = ServerValues::new(alloc, &names)?;
        let most = most_of(&names);
        let incoming = Incoming::new(alloc, HEAD + most)?;
        Ok(Hearing {
            names,
            server,
            incoming,
            most,
            stopped: false,
        })
    }

    /// Hears the next bytes that the server sent, cut anywhere. At a length field below 4 it stops,
    /// and hears nothing of what follows.
    pub(crate) fn hear(&mut self, bytes: &[u8])
        ensures heard { (before : List ℕ) → HasHeard self.old before
            → HasHeard self.new (before ++ bytes.now) }
        ensures names { self.new.names ≡ self.old.names }
    {
        let mut rest = bytes;
        'pieces: while !rest.is_empty() && !self.stopped {
            rest = self.hear_front(rest);
        }
    }

    // Hears the message with which these bytes begin, or what belongs to the one that is coming.
    // Returns what follows. A whole message that is no ParameterStatus changes nothing.
    #[inline(always)]
    fn hear_front<'a>(&mut self, bytes: &'a [u8]) -> &'a [u8]
        requires going { self.old.stopped ≡ false }
        requires some { 0 < length bytes.now }
        ensures heard { (piece : List ℕ) × (bytes.now ≡ piece ++ result.now)
            × ((before : List ℕ) → HasHeard self.old before → HasHeard self.new (before ++ piece)) }
        ensures shorter { length result.now < length bytes.now }
        ensures names { self.new.names ≡ self.old.names }
    {
        let other = self.incoming.other_len(bytes);
        if other > 0 {
            return bytes.split_at(other).1;
        }
        let (piece, after) = bytes.split_at(self.piece_len(bytes));
        self.hear_piece(piece);
        after
    }

    // How many of these bytes belong to the message's head, or to its body.
    fn piece_len(&self, bytes: &[u8]) -> usize
        requires going { self.now.stopped ≡ false }
        requires some { 0 < length bytes.now }
        ensures some { 0 < result }
        ensures within { result ≤ length bytes.now }
        ensures part { result ≤ self.now.left }
    {
        self.incoming.left().min(bytes.len())
    }

    // Hears bytes that belong to one message.
    #[inline(never)]
    fn hear_piece(&mut self, piece: &[u8])
        requires going { self.old.stopped ≡ false }
        requires part { length piece.now ≤ self.old.left }
        ensures heard { (before : List ℕ) → HasHeard self.old before
            → HasHeard self.new (before ++ piece.now) }
        ensures names { self.new.names ≡ self.old.names }
    {
        match self.incoming.advance(piece) {
            Progress::More => {}
            Progress::Broken => self.stopped = true,
            Progress::Whole => {
                hear_message(&mut self.server, &self.names, &self.incoming, self.most);
                self.incoming.restart();
            }
        }
    }

    /// The names that are tracked.
    pub(crate) fn names(&self) -> &TrackedNames
        ensures { result.now ≡ self.now.names }
    {
        &self.names
    }

    /// What was heard.
    pub(crate) fn server(&self) -> &ServerValues
        ensures values { result.now ≡ self.now.server }
        ensures fit { Fit self.now.names self.now.server.current }
    {
        &self.server
    }

    /// The last value of a parameter.
    pub(crate) fn value_of(&self, name: &[u8]) -> Option<&[u8]>
        ensures { option_map (λ value. value.now) result
            ≡ value_of self.now.names self.now.server.current name.now }
    {
        self.server.value_of(&self.names, name)
    }

    /// The login has ended: the values so far are those of the login.
    pub(crate) fn login_done(&mut self, alloc: Global) -> Result<(), AllocError>
        ensures ok { OnOk result (self.new ≡ record self.old { server = after_login self.old.server }) }
        ensures err { OnErr result (self.new ≡ self.old) }
        ensures heard { (before : List ℕ) → HasHeard self.old before → HasHeard self.new before }
    {
        self.server.login_done(alloc)
    }
}
