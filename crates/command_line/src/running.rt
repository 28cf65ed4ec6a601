//! The commands that run until they are stopped.
ghost use Rattle.std.specs.Prelude.{◌≡◌, None, Ok, map};
ghost use Rattle.std.specs.Option.{option_map};
ghost use Rattle.command_line.specs.Finds.{Finds};
ghost use Rattle.command_line.specs.Running.{asked_to_run, asks_to_run, lasting_in, runs_behind};
ghost use Rattle.command_line.specs.declared.command_name.CommandName.TheVariants as command;

use crate::arguments::{Given, ask_help};
use crate::command_name::CommandName;
use crate::serve_request::ServeRequest;
use crate::serve_texts::read_serve;
use crate::stub_request::StubRequest;
use crate::stub_texts::read_stub;
use crate::wrong::Wrong;
use std::alloc::Global;

/// A command that runs until it is stopped.
#[derive(Drop)]
pub enum Running<'a> {
    /// A group of poolers serves clients.
    Serve(ServeRequest<'a>),
    /// A stand-in server runs.
    Stub(StubRequest),
}

impl<'a> Running<'a> {
    /// The command of this kind that these arguments ask for, and none where they ask for help on
    /// it or for anything else: what that is, `Request::read` says. The text of a fault is that of
    /// `usage`.
    pub fn read(alloc: Global, arguments: &[&'a str]) -> Result<Option<Running<'a>>, Wrong<'a>>
        ensures asked { Finds (option_map lasting_in) result
            (asked_to_run (map (λ argument. argument.now) arguments.now)) }
        ensures others { asks_to_run (map (λ argument. argument.now) arguments.now) ≡ None
            → result ≡ Ok None }
    {
        let Some((first, rest)) = arguments.split_first() else {
            return Ok(None);
        };
        if ask_help(rest) {
            return Ok(None);
        }
        match CommandName::read(first) {
            Some(CommandName::Serve) => Ok(Some(Running::serve(alloc, rest)?)),
            Some(CommandName::Stub) => Ok(Some(Running::stub(alloc, rest)?)),
            _ => Ok(None),
        }
    }

    // What these arguments ask `serve` for.
    fn serve(alloc: Global, arguments: &[&'a str]) -> Result<Running<'a>, Wrong<'a>>
        ensures { Finds lasting_in result
            (runs_behind command.Serve (map (λ argument. argument.now) arguments.now)) }
    {
        let given = Given::read(alloc, CommandName::Serve, arguments)?;
        Ok(Running::Serve(read_serve(alloc, given)?))
    }

    // What these arguments ask `stub` for.
    fn stub(alloc: Global, arguments: &[&'a str]) -> Result<Running<'a>, Wrong<'a>>
        ensures { Finds lasting_in result
            (runs_behind command.Stub (map (λ argument. argument.now) arguments.now)) }
    {
        let given = Given::read(alloc, CommandName::Stub, arguments)?;
        Ok(Running::Stub(read_stub(alloc, &given)?))
    }
}
