//! `serve`: serves clients until the process is stopped or the group has drained.
ghost use Rattle.std.specs.Prelude.{◌≡◌};

use crate::standing_in::stand_in_for_servers;
use command_line::{LogLevel, ServeRequest, version};
use group_server::{MessageLimit, ServeError, ServeOptions, serve_group};
use ini_config::Group;
use sockets::Host;
use std::alloc::Global;
use std::io::{Read, Write};
use telemetry::Level;

/// Serves the nodes of a group, with stand-in servers if the request asks for them, and with secrets
/// from this seed. Returns on an error, or when the group has drained.
pub(crate) fn serve<H: Host, I: Read, W: Write>(
    host: &H,
    alloc: Global,
    group: Group,
    request: &ServeRequest<'_>,
    seed: [u8; 32],
    input: &mut I,
    out: &mut W,
) -> Result<(), ServeError> {
    if request.stand_in {
        stand_in_for_servers(host, alloc, &group)?;
    }
    let version = version(alloc)?;
    let options = options_of(number_in(version.as_str()), request, seed);
    serve_group(host, alloc, group, &options, input, out)
}

// Returns the options of the group that the request asks for.
fn options_of<'a>(
    version: &'a str,
    request: &'a ServeRequest<'_>,
    seed: [u8; 32],
) -> ServeOptions<'a>
    ensures seed { result.seed ≡ seed }
    ensures boot { result.boot ≡ request.now.boot }
    ensures front { result.front ≡ request.now.front }
{
    ServeOptions {
        version,
        front: request.front,
        seed,
        boot: request.boot,
        reports: &request.reports,
        until_eof: request.until_eof,
        log: level_of(request.log),
        metrics: request.metrics,
        max_message: limit_of(request.max_message),
        server_wait: request.server_wait,
    }
}

// Returns the message limit of an argument, which is in range.
fn limit_of(bytes: u32) -> MessageLimit {
    match MessageLimit::new(bytes) {
        Some(limit) => limit,
        None => MessageLimit::DEFAULT,
    }
}

// Returns the level that an argument names.
fn level_of(level: LogLevel) -> Level {
    match level {
        LogLevel::Warn => Level::Warn,
        LogLevel::Notice => Level::Notice,
        LogLevel::Info => Level::Info,
    }
}

// Returns the number in a text that names the program and its version.
fn number_in(version: &str) -> &str {
    let version = version.trim_end();
    match version.rsplit_once(' ') {
        Some((_, number)) => number,
        None => version,
    }
}
