//! How far a login has come.
ghost use Rattle.std.specs.Prelude.{◌≡◌};

use crate::head::Head;
use crate::message::Message;
use crate::part::Part;
use crate::{LinkAct, LinkError, LoginHead};
use pg_ids::ServerKey;

/// How far a login has come. A key is the one that the server gave last.
#[derive(Clone, Copy, Debug)]
pub enum Stage {
    /// The server isn't ready yet, and its next message is to come.
    Waiting(Option<ServerKey>),
    /// The server isn't ready yet, and this part of its message is to come.
    Reading(Part, Option<ServerKey>),
    /// The server was ready after it gave this key.
    Done(ServerKey),
    /// The login failed.
    Refused(LinkError),
}

impl Stage {
    ghost use Rattle.link_state.specs.Stages.{outcome, after_head, after_body};
    ghost use Rattle.link_state.specs.Stages.{head_answer, body_answer};

    /// How far it is after the head of the server's next message.
    pub fn after_head(self, head: Head) -> Stage
        ensures { result ≡ after_head self head }
    {
        match self {
            Stage::Waiting(key) => Stage::on_head(head, key),
            Stage::Done(_) => Stage::Refused(LinkError::OutOfProfile),
            Stage::Reading(..) | Stage::Refused(_) => self,
        }
    }

    fn on_head(head: Head, key: Option<ServerKey>) -> Stage
        ensures { result ≡ after_head (Stage.Waiting key) head }
    {
        match head {
            Head::Skipped => Stage::Waiting(key),
            Head::Fault(error) => Stage::Refused(error),
            Head::OtherReady => Stage::ready(false, key),
            Head::Body(part) => Stage::Reading(part, key),
        }
    }

    /// How far it is after the part of a message's body for which it waits, and where it was with
    /// any other bytes.
    pub fn after_body(self, bytes: &[u8]) -> Stage
        ensures { result ≡ after_body self bytes.now }
    {
        match self {
            Stage::Reading(part, key) => Stage::on_part(part, key, bytes),
            Stage::Waiting(_) | Stage::Done(_) | Stage::Refused(_) => self,
        }
    }

    fn on_part(part: Part, key: Option<ServerKey>, bytes: &[u8]) -> Stage
        ensures { result ≡ after_body (Stage.Reading part key) bytes.now }
    {
        if bytes.len() == part.len() {
            Stage::of(part.message(bytes), key)
        } else {
            Stage::Reading(part, key)
        }
    }

    // How far a login is after a message that means this, with the key that was given before.
    fn of(message: Message, key: Option<ServerKey>) -> Stage
        ensures { result ≡ outcome message key }
    {
        match message {
            Message::Passed => Stage::Waiting(key),
            Message::Key(new) => Stage::Waiting(Some(new)),
            Message::Ready { idle } => Stage::ready(idle, key),
            Message::Fault(error) => Stage::Refused(error),
        }
    }

    fn ready(idle: bool, key: Option<ServerKey>) -> Stage
        ensures { result ≡ outcome (Message.Ready idle) key }
    {
        match key {
            None => Stage::Refused(LinkError::NoKey),
            Some(key) if idle => Stage::Done(key),
            Some(_) => Stage::Refused(LinkError::OutOfProfile),
        }
    }

    /// What the login does at this stage, after the head of a message.
    pub fn head_answer(self) -> Result<LoginHead, LinkError>
        ensures { result ≡ head_answer self }
    {
        match self {
            Stage::Waiting(_) => Ok(LoginHead::Skip),
            Stage::Reading(part, _) => Ok(LoginHead::Body(part.len())),
            Stage::Done(_) => Err(LinkError::OutOfProfile),
            Stage::Refused(error) => Err(error),
        }
    }

    /// What the login does at this stage, after a whole message.
    pub fn body_answer(self) -> Result<LinkAct, LinkError>
        ensures { result ≡ body_answer self }
    {
        match self {
            Stage::Waiting(_) | Stage::Reading(..) => Ok(LinkAct::More),
            Stage::Done(key) => Ok(LinkAct::Up(key)),
            Stage::Refused(error) => Err(error),
        }
    }
}
