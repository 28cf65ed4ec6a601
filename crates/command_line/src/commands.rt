//! The program and its commands, as clap parses them.
use crate::command_arguments::{arguments_of, parsed_argument};
use crate::command_name::CommandName;
use clap::{ArgGroup, Command};
use std::alloc::{AllocError, Global};

const COMMANDS: [CommandName; 6] = [
    CommandName::Key,
    CommandName::Decide,
    CommandName::Check,
    CommandName::World,
    CommandName::Serve,
    CommandName::Stub,
];

/// Which line of usage a text has.
#[derive(Clone, Copy)]
pub enum Usage {
    /// That of help, with all arguments.
    Whole,
    /// That of a fault, without the options that few need.
    Short,
}

/// The program with its commands.
pub fn program<'a>(alloc: Global, usage: Usage) -> Result<Command<'a>, AllocError> {
    let mut program = bare_program(alloc)?;
    for name in &COMMANDS {
        program = program.subcommand(command(alloc, *name, usage)?)?;
    }
    Ok(program)
}

// The program without its commands.
fn bare_program<'a>(alloc: Global) -> Result<Command<'a>, AllocError> {
    let program = Command::new(alloc, "pgpeer").bin_name("pgpeer")?;
    Ok(
        program
            .version("0.1.0")
            .about("A peered group of PostgreSQL connection poolers")
            .after_help(AFTER_PROGRAM)
            .no_binary_name(true)
            .subcommand_required(true)
            .arg_required_else_help(true),
    )
}

/// A command with its arguments.
pub fn command<'a>(
    alloc: Global,
    name: CommandName,
    usage: Usage,
) -> Result<Command<'a>, AllocError> {
    let mut command = bare_command(alloc, name, usage)?;
    for argument in arguments_of(name) {
        command = command.arg(parsed_argument(alloc, *argument)?)?;
    }
    match name {
        CommandName::Serve => command.group(seeds(alloc)?),
        _ => Ok(command),
    }
}

// The arguments of `serve` of which one is needed, in the order in which an error names them.
fn seeds<'a>(alloc: Global) -> Result<ArgGroup<'a>, AllocError> {
    ArgGroup::new(alloc, "seeds")
        .required(true)
        .arg("seed-file")?
        .arg("seed")
}

// A command without its arguments.
fn bare_command<'a>(
    alloc: Global,
    name: CommandName,
    usage: Usage,
) -> Result<Command<'a>, AllocError> {
    let command = Command::new(alloc, word(name)).bin_name(whole_word(name))?;
    let command = command.about(about(name)).after_help(after(name));
    match usage_of(name, usage) {
        Some(line) => Ok(command.override_usage(line)),
        None => Ok(command),
    }
}

fn word<'a>(name: CommandName) -> &'a str {
    match name {
        CommandName::Key => "key",
        CommandName::Decide => "decide",
        CommandName::Check => "check",
        CommandName::World => "world",
        CommandName::Serve => "serve",
        CommandName::Stub => "stub",
    }
}

fn whole_word<'a>(name: CommandName) -> &'a str {
    match name {
        CommandName::Key => "pgpeer key",
        CommandName::Decide => "pgpeer decide",
        CommandName::Check => "pgpeer check",
        CommandName::World => "pgpeer world",
        CommandName::Serve => "pgpeer serve",
        CommandName::Stub => "pgpeer stub",
    }
}

fn about<'a>(name: CommandName) -> &'a str {
    match name {
        CommandName::Key => "Print the parts of a cancel key",
        CommandName::Decide => "Print what a pooler does with a cancel request",
        CommandName::Check => "Check that settings files make a group",
        CommandName::World => "Print what the events of a script bring about",
        CommandName::Serve => {
            "Serve clients and cancel requests as a group of poolers, until stopped"
        }
        CommandName::Stub => "Run a stand-in server, for tests without PostgreSQL",
    }
}

// The line of usage, where clap doesn't write it.
fn usage_of<'a>(name: CommandName, usage: Usage) -> Option<&'a str> {
    match name {
        CommandName::Decide => {
            Some("pgpeer decide --me <N> [--peers <P,P..>] [--live <C,C..>] <HEX>")
        }
        CommandName::Check => Some(check_usage(usage)),
        CommandName::Serve => Some(serve_usage(usage)),
        CommandName::Stub => Some("pgpeer stub [--byte] <PORT>"),
        CommandName::Key | CommandName::World => None,
    }
}

fn check_usage<'a>(usage: Usage) -> &'a str {
    match usage {
        Usage::Whole => "pgpeer check [--all] <FILE>...",
        Usage::Short => "pgpeer check <FILE>...",
    }
}

fn serve_usage<'a>(usage: Usage) -> &'a str {
    match usage {
        Usage::Whole => {
            "\
pgpeer serve --front <PORT> (--seed <HEX64> | --seed-file <FILE>)
                    [--boot <N>] [--stand-in] [--report <NAME=VALUE>]...
                    [--max-message <BYTES>] [--server-wait <SECONDS>] [--metrics <PORT>]
                    [--log <LEVEL>] [--until-eof] <FILE>..."
        }
        Usage::Short => {
            "\
pgpeer serve --front <PORT> --seed-file <FILE> [--boot <N>] [--report <NAME=VALUE>]... <FILE>..."
        }
    }
}

// What stands behind a command's arguments in its help.
fn after<'a>(name: CommandName) -> &'a str {
    match name {
        CommandName::Key => AFTER_KEY,
        CommandName::Decide => AFTER_DECIDE,
        CommandName::Check => AFTER_CHECK,
        CommandName::World => AFTER_WORLD,
        CommandName::Serve => AFTER_SERVE,
        CommandName::Stub => AFTER_STUB,
    }
}

const AFTER_PROGRAM: &str = "\
Exit status:
  0  the answer is on standard output
  1  a file can't be read, an address can't be listened at, the packet is no cancel request, memory
     ran out, or writing failed
  2  the arguments, a settings file, a script or the group are refused
'serve' and 'stub' run until they are stopped, and end by themselves only with status 1 or 2; with
'--until-eof' 'serve' ends with status 0 after the end of standard input.

Examples:
  pgpeer key 0008000000000007
  pgpeer decide --me 1 --peers 2 0000001004d2162e0008000000000007
  pgpeer check node1.ini node2.ini
  pgpeer world the_race.script
  pgpeer serve --front 6432 --seed-file /dev/urandom --boot $(date +%s) \\
        --report standard_conforming_strings=on node1.ini node2.ini
  pgpeer stub 7100";

const AFTER_KEY: &str = "\
Examples:
  $ pgpeer key 0008000000000007
  peer 2 slot 0 secret 1 hops 3

  $ pgpeer key 000800000000000700000000000000010000000000000004
  peer 2 slot 0 secret 1 hops 3 boot 1 serial 4";

const AFTER_DECIDE: &str = "\
Output, one of:
  serve KEYHEX     the client's server is asked to cancel, by this key
  forward P HEX    the request goes on to peer P, as these 16 or 32 bytes
  refused 60       the request may pass through no more poolers
  refused 61       no client has the key's slot and secret
  refused 62       the key's pooler is no peer
  refused 63       the client has no server connection

Examples:
  $ pgpeer decide --me 1 --peers 2 0000001004d2162e0008000000000007
  forward 2 0000001004d2162e0008000000000006

  $ pgpeer decide --me 2 --live 1:1112131415161718 0000001004d2162e0008000000000007
  serve 1112131415161718";

const AFTER_CHECK: &str = "\
Examples:
  $ pgpeer check node1.ini node2.ini
  group of 2 nodes

  $ pgpeer check --all pgbouncer.ini
  pgbouncer.ini:8: 22 UnknownKey: server_idle_timeout is not in this profile
  pgbouncer.ini:9: 27 NotInProfile: pool_mode asks for what is not in this profile
    'session' is refused; allowed: transaction";

const AFTER_WORLD: &str = "\
Output:
  NUMBER REPLY                      each event, from 1; one that may not take place is skipped
  interrupt B L A                   each query that was cancelled: the server process, the client
                                    and the cancel request
  events E skipped S interrupts I   how many of each

Example, where login.script has the lines 'node 2 1 1' and 'login 2 10 1':
  $ pgpeer world login.script
  1 key 0008000000000007
  events 1 skipped 0 interrupts 0";

const AFTER_SERVE: &str = "\
One file is a pooler of a group whose others run elsewhere. Several files are several poolers of a
group in one process. Each also listens at its own address, which its file names.

Give a new seed and a new boot number at each start.
Without '--report standard_conforming_strings=on' some drivers store wrong data.

Examples:
  $ pgpeer serve --front 6432 --seed-file /dev/urandom --boot $(date +%s) \\
        --report standard_conforming_strings=on node1.ini

  $ pgpeer serve --stand-in --front 6432 --seed-file /dev/urandom --boot $(date +%s) \\
        --report standard_conforming_strings=on node1.ini node2.ini";

const AFTER_STUB: &str = "\
Example:
  $ pgpeer stub 7100";
