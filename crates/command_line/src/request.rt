//! What arguments ask for.
ghost use Rattle.std.specs.Prelude.{◌≡◌, Some, map};
ghost use Rattle.pg_ids.specs.AnyKey.{any_key_bytes};
ghost use Rattle.command_line.specs.Arguments.{given_in};
ghost use Rattle.command_line.specs.Finds.{Finds, Reads};
ghost use Rattle.command_line.specs.Request.{asked, asked_behind, asked_in, check_asked, decide_asked, key_asked, key_bytes_of, topic_named, topic_of, world_asked};
ghost use Rattle.command_line.specs.declared.command_name.FirstArgument.TheVariants.{Command};

use crate::arguments::{Given, ask_help};
use crate::command_name::{CommandName, FirstArgument};
use crate::decide_request::DecideRequest;
use crate::decide_texts::read_decide;
use crate::list::{at_most_one, only_one};
use crate::option_name::OptionName;
use crate::wrong::{Place, Wrong};
use hex::FromHex;
use pg_ids::AnyKey;
use std::alloc::Global;

/// What the program is asked for.
#[derive(Drop)]
pub enum Request<'a> {
    /// A key's parts.
    Key(AnyKey),
    /// What a node does with a cancel request.
    Decide(DecideRequest),
    /// Whether these files make a group, or else the first fault.
    Check(Vec<&'a str>),
    /// Whether these files make a group, or else all faults.
    CheckAll(Vec<&'a str>),
    /// What the events of this file's script bring about.
    World(&'a str),
    /// Help on a command, or on the program.
    Help(Option<CommandName>),
    /// Help on `help`.
    HelpOnHelp,
    /// The program's version.
    Version,
}

impl<'a> Request<'a> {
    /// What these arguments ask for. They ask for no answer where `Running::read` finds a command
    /// in them.
    pub fn read(alloc: Global, arguments: &[&'a str]) -> Result<Request<'a>, Wrong<'a>>
        ensures { Finds asked_in result (asked (map (λ argument. argument.now) arguments.now)) }
    {
        let Some((first, rest)) = arguments.split_first() else {
            return Err(Wrong::Form);
        };
        match FirstArgument::read(first) {
            None => Err(Wrong::Form),
            Some(FirstArgument::Help) => Ok(Request::Help(None)),
            Some(FirstArgument::Version) => Ok(Request::Version),
            Some(FirstArgument::HelpOn) => Request::topic(rest),
            Some(FirstArgument::Command(name)) => Request::of_command(alloc, name, rest),
        }
    }

    // Help on what these arguments name.
    fn topic(arguments: &[&'a str]) -> Result<Request<'a>, Wrong<'a>>
        ensures { Reads asked_in result (topic_of (map (λ argument. argument.now) arguments.now)) }
    {
        match at_most_one(arguments)? {
            None => Ok(Request::Help(None)),
            Some(name) => Request::topic_named(name),
        }
    }

    // Help on what has this name.
    fn topic_named(name: &'a str) -> Result<Request<'a>, Wrong<'a>>
        ensures { Reads asked_in result (topic_named name.now) }
    {
        if name == "help" {
            return Ok(Request::HelpOnHelp);
        }
        match CommandName::read(name) {
            Some(name) => Ok(Request::Help(Some(name))),
            None => Err(Wrong::Form),
        }
    }

    // What these arguments ask a command for.
    fn of_command(
        alloc: Global,
        name: CommandName,
        arguments: &[&'a str],
    ) -> Result<Request<'a>, Wrong<'a>>
        ensures { Finds asked_in result (asked_behind (Command name)
            (map (λ argument. argument.now) arguments.now)) }
    {
        if ask_help(arguments) {
            return Ok(Request::Help(Some(name)));
        }
        let given = Given::read(alloc, name, arguments)?;
        match name {
            CommandName::Key => Request::key(&given.plain),
            CommandName::Decide => Request::decide(alloc, &given),
            CommandName::Check => Request::check(alloc, given),
            CommandName::World => Request::world(&given.plain),
            CommandName::Serve | CommandName::Stub => Err(Wrong::Form),
        }
    }

    fn key(arguments: &[&'a str]) -> Result<Request<'a>, Wrong<'a>>
        ensures { Reads asked_in result (key_asked (map (λ argument. argument.now) arguments.now)) }
    {
        let digits = only_one(arguments)?;
        Ok(Request::Key(key_of(digits)?))
    }

    fn check(alloc: Global, given: Given<'a>) -> Result<Request<'a>, Wrong<'a>>
        ensures { Finds asked_in result (check_asked (given_in given.entry)) }
    {
        let all = given.at_most_once(alloc, OptionName::All)?;
        let files = given.plain;
        if files.is_empty() {
            return Err(Wrong::Form);
        }
        match all {
            None => Ok(Request::Check(files)),
            Some(_) => Ok(Request::CheckAll(files)),
        }
    }

    fn world(arguments: &[&'a str]) -> Result<Request<'a>, Wrong<'a>>
        ensures { Reads asked_in result
            (world_asked (map (λ argument. argument.now) arguments.now)) }
    {
        let file = only_one(arguments)?;
        Ok(Request::World(file))
    }

    fn decide(alloc: Global, given: &Given<'a>) -> Result<Request<'a>, Wrong<'a>>
        ensures { Finds asked_in result (decide_asked (given_in given.now)) }
    {
        let me = given.once(alloc, OptionName::Me)?;
        let peers = given.at_most_once(alloc, OptionName::Peers)?;
        let live = given.at_most_once(alloc, OptionName::Live)?;
        let packet = only_one(&given.plain)?;
        let request = read_decide(alloc, me, peers, live, packet)?;
        Ok(Request::Decide(request))
    }
}

// The key in these digits: 16 of a short one, or 48 of a long one.
fn key_of<'a>(digits: &'a str) -> Result<AnyKey, Wrong<'a>>
    ensures { Reads any_key_bytes result (key_bytes_of digits.now) }
{
    if let Ok(bytes) = <[u8; 8] as FromHex>::from_hex(digits) {
        return Ok(AnyKey::from_short_bytes(bytes));
    }
    match <[u8; 24] as FromHex>::from_hex(digits) {
        Ok(bytes) => Ok(AnyKey::from_long_bytes(bytes)),
        Err(_) => Err(Wrong::Value(Place::Key, digits)),
    }
}
