//! The events of a script, by their names and the words behind them.
ghost use Rattle.std.specs.Prelude.{◌≡◌};
ghost use Rattle.world_script.specs.EventLine.{numbered_event, numbered_by, one_word_event, two_word_event, login_kind, login_event};
ghost use Rattle.world_script.specs.Reads.{Finds};
ghost use Rattle.world_script.specs.Words.{number_of};

use crate::fault::LineFault;
use crate::word::{bytes, number, server_key};
use pg_ids::{Boot, DatabaseNo, Kind, Secret};
use std::alloc::Global;
use world::{BackendNo, ConnectionNo, Event, FlightNo, Label, NodeNo};

/// The event of this name, with one word behind it.
#[tactic(auto, unfolding(crate::specs::EventLine::one_word_event))]
pub(crate) fn one_word_event(alloc: Global, name: &str, word: &str) -> Result<Event, LineFault>
    ensures { Finds result (one_word_event name.now word.now) }
{
    match name {
        "put" => Ok(Event::Put(bytes(alloc, word)?)),
        _ => numbered(name, word).ok_or(LineFault::Form),
    }
}

// The event of this name, with a number behind it.
fn numbered(name: &str, word: &str) -> Option<Event>
    ensures { result ≡ numbered_by name.now word.now }
{
    numbered_event(name, number(word)?)
}

// The event of this name, with a number.
#[tactic(auto, unfolding(crate::specs::EventLine::numbered_event))]
fn numbered_event(name: &str, number: u32) -> Option<Event>
    ensures { result ≡ numbered_event name.now number }
{
    let long = u64::from(number);
    match name {
        "acquire" => Some(Event::Acquire(Label(number))),
        "upfail" => Some(Event::UpFailed(Label(number))),
        "send" => Some(Event::Send(Label(number))),
        "take" => Some(Event::Take(BackendNo(long))),
        "finish" => Some(Event::Finish(BackendNo(long))),
        "ready" => Some(Event::Ready(Label(number))),
        "release" => Some(Event::Release(Label(number))),
        "close" => Some(Event::Close(Label(number))),
        "leave" => Some(Event::Leave(Label(number))),
        "fend" => Some(Event::ForwardEnded(FlightNo(long))),
        "ftold" => Some(Event::ForwardTold(FlightNo(long))),
        "fbroken" => Some(Event::ForwardBroken(FlightNo(long))),
        "act" => Some(Event::Act(ConnectionNo(long))),
        "end" => Some(Event::End(ConnectionNo(long))),
        "told" => Some(Event::Told(ConnectionNo(long))),
        "broken" => Some(Event::Broken(ConnectionNo(long))),
        // With its next boot.
        "restart" => Some(Event::Restart(NodeNo(number), None)),
        _ => None,
    }
}

/// The event of this name, with two words behind it.
#[tactic(auto, unfolding(crate::specs::EventLine::two_word_event, crate::specs::EventLine::up_event, crate::specs::EventLine::flight_event, crate::specs::EventLine::restart_event))]
pub(crate) fn two_word_event(name: &str, first: &str, second: &str) -> Option<Event>
    ensures { result ≡ two_word_event name.now first.now second.now }
{
    match name {
        "up" => Some(Event::Up(label(first)?, server_key(second)?)),
        "deliver" => Some(Event::Deliver(flight(first)?, node(second)?)),
        "accept" => Some(Event::Accept(flight(first)?, node(second)?)),
        "restart" => Some(Event::Restart(node(first)?, Some(boot(second)?))),
        _ => None,
    }
}

fn label(word: &str) -> Option<Label>
    ensures { result ≡ number_of word.now }
{
    Some(Label(number(word)?))
}

fn node(word: &str) -> Option<NodeNo>
    ensures { result ≡ number_of word.now }
{
    Some(NodeNo(number(word)?))
}

fn flight(word: &str) -> Option<FlightNo>
    ensures { result ≡ number_of word.now }
{
    Some(FlightNo(u64::from(number(word)?)))
}

fn boot(word: &str) -> Option<Boot>
    ensures { result ≡ number_of word.now }
{
    Some(Boot(u64::from(number(word)?)))
}

/// The login of this name, with three words behind it.
#[tactic(auto, unfolding(crate::specs::EventLine::login_event))]
pub(crate) fn login_event(name: &str, first: &str, second: &str, third: &str) -> Option<Event>
    ensures { result ≡ login_event name.now first.now second.now third.now }
{
    let kind = login_kind(name)?;
    let node = node(first)?;
    let label = label(second)?;
    let secret = Secret(number(third)?);
    Some(Event::Login(node, label, DatabaseNo(0), secret, kind))
}

#[tactic(auto, unfolding(crate::specs::EventLine::login_kind))]
fn login_kind(name: &str) -> Option<Kind>
    ensures { result ≡ login_kind name.now }
{
    match name {
        "login" => Some(Kind::Short),
        "login32" => Some(Kind::Long),
        _ => None,
    }
}
