//! Help, the version, and the texts of faults in the arguments, which clap writes.
ghost use Rattle.std.specs.Prelude.{◌≡◌, IsErr};

use crate::command_name::CommandName;
use crate::commands::{Usage, command, program};
use crate::wrong::{Place, Wrong};
use clap::error::ErrorKind;
use clap::{Command, Error};
use std::alloc::{AllocError, Global};

/// Help on a command, or on the program.
pub fn help(alloc: Global, topic: Option<CommandName>) -> Result<String, AllocError> {
    match topic {
        None => help_text(alloc, &["--help"]),
        Some(CommandName::Key) => help_text(alloc, &["key", "--help"]),
        Some(CommandName::Decide) => help_text(alloc, &["decide", "--help"]),
        Some(CommandName::Check) => help_text(alloc, &["check", "--help"]),
        Some(CommandName::World) => help_text(alloc, &["world", "--help"]),
        Some(CommandName::Serve) => help_text(alloc, &["serve", "--help"]),
        Some(CommandName::Stub) => help_text(alloc, &["stub", "--help"]),
    }
}

/// Help on `help`.
pub fn help_on_help(alloc: Global) -> Result<String, AllocError> {
    help_text(alloc, &["help", "help"])
}

/// The program's version.
pub fn version(alloc: Global) -> Result<String, AllocError> {
    help_text(alloc, &["--version"])
}

/// The message for arguments that are refused. Fails if memory runs out.
pub fn usage<'a>(
    alloc: Global,
    arguments: &'a [&'a str],
    wrong: Wrong<'_>,
) -> Result<String, AllocError>
    ensures memory { wrong.entry ≡ Wrong.Memory → IsErr result }
{
    match wrong {
        Wrong::Form => parser_text(alloc, arguments, Usage::Short),
        Wrong::Value(place, value) => value_text(alloc, place, value),
        Wrong::Memory => Err(AllocError),
    }
}

/// What is written of a packet whose CancelRequest has this length, and that has more bytes behind
/// it.
pub fn longer_packet(alloc: Global, length: usize, more: usize) -> Result<String, AllocError> {
    let message = format!(in alloc;
        "invalid value for '<HEX>': {more} bytes follow the CancelRequest, which has {length}"
    )?;
    error_text(
        command(alloc, CommandName::Decide, Usage::Short)?,
        message.as_str(),
        alloc,
    )
}

// What the parser writes where these arguments ask for help or the version.
fn help_text<'a>(alloc: Global, arguments: &'a [&'a str]) -> Result<String, AllocError> {
    parser_text(alloc, arguments, Usage::Whole)
}

// What the parser writes of these arguments.
fn parser_text<'a>(
    alloc: Global,
    arguments: &'a [&'a str],
    usage: Usage,
) -> Result<String, AllocError> {
    let error = match program(alloc, usage)?.try_get_matches_from(arguments) {
        Ok(_matches) => return error_text(program(alloc, usage)?, "invalid arguments", alloc),
        Err(error) => error,
    };
    if error.kind() == ErrorKind::OutOfMemory {
        return Err(AllocError);
    }
    written(alloc, &error)
}

fn error_text(
    mut command: Command<'_>,
    message: &str,
    alloc: Global,
) -> Result<String, AllocError> {
    let error = command.error(ErrorKind::ValueValidation, message)?;
    written(alloc, &error)
}

fn written(alloc: Global, error: &Error) -> Result<String, AllocError> {
    format!(in alloc; "{error}")
}

// The message for an invalid value.
fn value_text(alloc: Global, place: Place, value: &str) -> Result<String, AllocError> {
    let message = message(alloc, place, value)?;
    error_text(
        command(alloc, command_of(place), Usage::Short)?,
        message.as_str(),
        alloc,
    )
}

// The command that a value is of.
fn command_of(place: Place) -> CommandName {
    match place {
        Place::Key => CommandName::Key,
        Place::Front | Place::Seed | Place::SeedFile | Place::Boot => CommandName::Serve,
        Place::Report | Place::ReportFixed | Place::ReportAgain | Place::ReportTooLong => {
            CommandName::Serve
        }
        Place::MaxMessage | Place::ServerWait | Place::Metrics | Place::Log => CommandName::Serve,
        Place::Port => CommandName::Stub,
        _ => CommandName::Decide,
    }
}

fn message(alloc: Global, place: Place, value: &str) -> Result<String, AllocError> {
    let argument = argument(place);
    let expected = expected(place);
    match place {
        Place::PeerTooMany | Place::ClientTooMany => {
            format!(in alloc; "too many values for '{argument}': {expected}")
        }
        Place::Key => {
            let given = value.chars().count();
            format!(in alloc;
                "invalid value '{value}' for '{argument}': {expected}, found {given} characters"
            )
        }
        // A seed is secret.
        Place::Seed => {
            let given = value.chars().count();
            format!(in alloc;
                "invalid value for '{argument}': {expected}, found {given} characters"
            )
        }
        _ => format!(in alloc; "invalid value '{value}' for '{argument}': {expected}"),
    }
}

// The argument that a value is of, as the usage of its command names it.
fn argument(place: Place) -> &'static str {
    match place {
        Place::Key => "<HEX16|HEX48>",
        Place::Me => "--me <N>",
        Place::Peer | Place::PeerAgain | Place::PeerTooMany => "--peers <P,P..>",
        Place::Secret | Place::ServerKey | Place::ClientTooMany => "--live <C,C..>",
        Place::Packet => "<HEX>",
        Place::Front => "--front <PORT>",
        Place::Seed => "--seed <HEX64>",
        Place::SeedFile => "--seed-file <FILE>",
        Place::Boot => "--boot <N>",
        Place::Report | Place::ReportFixed | Place::ReportAgain | Place::ReportTooLong => {
            "--report <NAME=VALUE>"
        }
        Place::MaxMessage => "--max-message <BYTES>",
        Place::ServerWait => "--server-wait <SECONDS>",
        Place::Metrics => "--metrics <PORT>",
        Place::Log => "--log <LEVEL>",
        Place::Port => "<PORT>",
    }
}

// What is expected there, or what else is wrong with a value.
fn expected(place: Place) -> &'static str {
    match place {
        Place::Key => "expected 16 or 48 hexadecimal digits",
        Place::Me => "expected a number from 0 to 16383",
        Place::Peer => "expected numbers from 1 to 16383",
        Place::PeerAgain => "a number is there twice",
        Place::PeerTooMany => "expected at most 64",
        Place::Secret => "expected secrets from 0 to 4294967295",
        Place::ServerKey => "expected 16 hexadecimal digits behind the colon",
        Place::ClientTooMany => "expected at most 65535",
        Place::Packet => "expected an even number of hexadecimal digits",
        Place::Front | Place::Metrics | Place::Port => "expected a number from 1 to 65535",
        Place::Seed => "expected 64 hexadecimal digits",
        Place::SeedFile => "expected 32 bytes or 64 hexadecimal digits in the file",
        Place::Boot => "expected a number from 0 to 4294967295",
        Place::Report => "expected a name, '=' and a value, without zero bytes",
        Place::ReportFixed => "every login reports UTF8 for it",
        Place::ReportAgain => "the name is there twice",
        Place::ReportTooLong => "expected at most 8000 bytes in all",
        Place::MaxMessage => "expected a number from 8192 to 1073741823",
        Place::ServerWait => "expected a number from 0 to 3600",
        Place::Log => "expected 'warn', 'notice' or 'info'",
    }
}
