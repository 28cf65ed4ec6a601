//! The arguments of each command, as clap reads them and help shows them.
use crate::command_name::CommandName;
use clap::{Arg, ArgAction};
use std::alloc::{AllocError, Global};

/// How an argument is given.
#[derive(Clone, Copy)]
pub enum Form {
    /// By its value alone.
    Plain,
    /// By its values alone, one or more.
    Several,
    /// By its name, and then its value, which help calls so.
    Value(&'static str),
    /// By its name, and then its value, any number of times.
    Repeated(&'static str),
    /// By its name alone.
    Flag,
}

/// An argument of a command.
#[derive(Clone, Copy)]
pub struct Argument {
    /// Its name.
    pub name: &'static str,
    /// How it is given.
    pub form: Form,
    /// Whether the command needs it.
    pub required: bool,
    /// What help says of it.
    pub help: &'static str,
}

/// The arguments of a command, in the order in which help shows them.
pub fn arguments_of(name: CommandName) -> &'static [Argument] {
    match name {
        CommandName::Key => KEY,
        CommandName::Decide => DECIDE,
        CommandName::Check => CHECK,
        CommandName::World => WORLD,
        CommandName::Serve => SERVE,
        CommandName::Stub => STUB,
    }
}

/// An argument as clap reads it.
pub fn parsed_argument<'a>(alloc: Global, argument: Argument) -> Result<Arg<'a>, AllocError> {
    let parsed = Arg::new(alloc, argument.name)
        .required(argument.required)
        .help(argument.help);
    match argument.form {
        Form::Plain => Ok(parsed),
        Form::Several => Ok(parsed.num_args(1..)),
        Form::Value(value) => Ok(parsed.long(argument.name).value_name(value)),
        Form::Repeated(value) => Ok(
            parsed
                .long(argument.name)
                .value_name(value)
                .action(ArgAction::Append),
        ),
        Form::Flag => Ok(parsed.long(argument.name).action(ArgAction::SetTrue)),
    }
}

const KEY: &[Argument] = &[Argument {
    name: "HEX16|HEX48",
    form: Form::Plain,
    required: true,
    help: "The key's eight bytes in 16 hexadecimal digits, or a long key's 24 in 48",
}];

const DECIDE: &[Argument] = &[
    Argument {
        name: "me",
        form: Form::Value("N"),
        required: true,
        help: "The pooler's own number, 0 to 16383",
    },
    Argument {
        name: "peers",
        form: Form::Value("P,P.."),
        required: false,
        help: "The numbers of its peers, at most 64, each 1 to 16383 and none twice",
    },
    Argument {
        name: "live",
        form: Form::Value("C,C.."),
        required: false,
        help: "\
Its clients in the order of their logins, at most 65535, each by its secret,
0 to 4294967295, or as SECRET:KEYHEX if it has a server connection, with that
connection's cancel key in 16 hexadecimal digits",
    },
    Argument {
        name: "HEX",
        form: Form::Plain,
        required: true,
        help: "A connection's first packet, in hexadecimal digits; a cancel request has 16 or 32 bytes",
    },
];

const CHECK: &[Argument] = &[
    Argument {
        name: "all",
        form: Form::Flag,
        required: false,
        help: "Report every error, each with its cause, instead of the first one",
    },
    Argument {
        name: "FILE",
        form: Form::Several,
        required: true,
        help: "Settings files, one for each pooler of the group",
    },
];

const WORLD: &[Argument] = &[Argument {
    name: "FILE",
    form: Form::Plain,
    required: true,
    help: "A script: the poolers of a group, and the events, in order",
}];

const SERVE: &[Argument] = &[
    Argument {
        name: "front",
        form: Form::Value("PORT"),
        required: true,
        help: "\
The port of 127.0.0.1 that all poolers of this process share, 1 to
65535. Other machines use the poolers' own addresses",
    },
    Argument {
        name: "seed",
        form: Form::Value("HEX64"),
        required: false,
        help: "\
What the secrets of keys are drawn from, 32 bytes in 64 hexadecimal
digits: give another one at each start, which nobody can guess. Every
user of the machine can read it in the list of processes",
    },
    Argument {
        name: "seed-file",
        form: Form::Value("FILE"),
        required: false,
        help: "\
In place of --seed, a file that holds 32 bytes, or 64 hexadecimal
digits and perhaps a line's end. With /dev/urandom each start has
another seed",
    },
    Argument {
        name: "boot",
        form: Form::Value("N"),
        required: false,
        help: "\
The number of this start, part of longer keys, 0 to 4294967295 and 0
where it isn't given: give another one at each start",
    },
    Argument {
        name: "stand-in",
        form: Form::Flag,
        required: false,
        help: "\
Run a stand-in server at each port of 127.0.0.1 that the settings
name as a server's address, for tests without PostgreSQL",
    },
    Argument {
        name: "report",
        form: Form::Repeated("NAME=VALUE"),
        required: false,
        help: "\
Report this parameter to clients at each login, as PostgreSQL does
of its own: give it once for each parameter. Without
standard_conforming_strings=on some drivers store wrong data",
    },
    Argument {
        name: "max-message",
        form: Form::Value("BYTES"),
        required: false,
        help: "\
The longest message that is passed on, in either direction, as its
length field says, and the longest group of messages of an extended
query: 8192 to 1073741823, and 1048576 where it isn't given",
    },
    Argument {
        name: "server-wait",
        form: Form::Value("SECONDS"),
        required: false,
        help: "\
For how many seconds a server is tried again that refuses a
connection, starts, stops or has no connection left, before the
client's session ends: 0 to 3600, and 0 where it isn't given",
    },
    Argument {
        name: "metrics",
        form: Form::Value("PORT"),
        required: false,
        help: "\
Serve metrics for Prometheus over HTTP at this port of 127.0.0.1,
1 to 65535",
    },
    Argument {
        name: "log",
        form: Form::Value("LEVEL"),
        required: false,
        help: "\
Which lines of the log are written: 'warn' for those that somebody
may have to look into, 'notice' for these, what the group does and
the end of each cancel request, 'info' for these and each cancel
request that is refused. It is 'notice' where it isn't given",
    },
    Argument {
        name: "until-eof",
        form: Form::Flag,
        required: false,
        help: "\
Stop gracefully at the end of standard input: no new connections,
sessions end between transactions, then the program ends",
    },
    Argument {
        name: "FILE",
        form: Form::Several,
        required: true,
        help: "Settings files, one for each pooler of this process",
    },
];

const STUB: &[Argument] = &[
    Argument {
        name: "byte",
        form: Form::Flag,
        required: false,
        help: "Write one byte before a cancel connection is ended, as a broken server might",
    },
    Argument {
        name: "PORT",
        form: Form::Plain,
        required: true,
        help: "The port at which the server listens, 1 to 65535",
    },
];
