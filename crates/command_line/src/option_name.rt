//! The options of each command, by their names.
ghost use Rattle.std.specs.Prelude.{◌≡◌};
ghost use Rattle.std.specs.Map.{lookup};
ghost use Rattle.std.specs.Str.{bytes_eq};
ghost use Rattle.command_line.specs.Options.{check_options, decide_options, has_value, option_named, same_option, serve_options, stub_options};

use crate::command_name::CommandName;

/// An option of a command.
#[derive(Clone, Copy, Debug, PartialEq, Eq)]
pub enum OptionName {
    /// The node's own number, of `decide`.
    Me,
    /// The numbers of its peers, of `decide`.
    Peers,
    /// Its clients, of `decide`.
    Live,
    /// Whether all faults are reported, of `check`.
    All,
    /// The port, of `serve`.
    Front,
    /// What secrets are drawn from, of `serve`.
    Seed,
    /// A file that holds it, of `serve`.
    SeedFile,
    /// The number of the start, of `serve`.
    Boot,
    /// Whether stand-in servers run, of `serve`.
    StandIn,
    /// A parameter that logins report, of `serve`.
    Report,
    /// The longest message that is passed on, of `serve`.
    MaxMessage,
    /// How long a server is tried again, of `serve`.
    ServerWait,
    /// The port of the figures, of `serve`.
    Metrics,
    /// Which lines of the log are written, of `serve`.
    Log,
    /// Whether the end of standard input stops it, of `serve`.
    UntilEof,
    /// Whether a byte is written before a cancel connection is ended, of `stub`.
    Byte,
}

impl OptionName {
    /// The option of a command with this name.
    #[tactic(auto, unfolding(crate::specs::Options::option_named))]
    pub fn read(command: CommandName, name: &str) -> Option<OptionName>
        ensures { result ≡ option_named command name.now }
    {
        match command {
            CommandName::Decide => decide_option(name),
            CommandName::Serve => serve_option(name),
            CommandName::Stub => stub_option(name),
            CommandName::Check => check_option(name),
            CommandName::Key | CommandName::World => None,
        }
    }

    /// Whether the option has a value.
    pub fn has_value(self) -> bool
        ensures { result ≡ has_value self }
    {
        !matches!(
            self,
            OptionName::All | OptionName::StandIn | OptionName::UntilEof | OptionName::Byte
        )
    }

    /// Whether both are one option.
    pub fn is(self, other: OptionName) -> bool
        ensures { result ≡ same_option self other }
    {
        self == other
    }
}

fn decide_option(name: &str) -> Option<OptionName>
    ensures { result ≡ lookup (bytes_eq name.now) decide_options }
{
    match name {
        "--me" => Some(OptionName::Me),
        "--peers" => Some(OptionName::Peers),
        "--live" => Some(OptionName::Live),
        _ => None,
    }
}

fn check_option(name: &str) -> Option<OptionName>
    ensures { result ≡ lookup (bytes_eq name.now) check_options }
{
    match name {
        "--all" => Some(OptionName::All),
        _ => None,
    }
}

fn serve_option(name: &str) -> Option<OptionName>
    ensures { result ≡ lookup (bytes_eq name.now) serve_options }
{
    match name {
        "--front" => Some(OptionName::Front),
        "--seed" => Some(OptionName::Seed),
        "--seed-file" => Some(OptionName::SeedFile),
        "--boot" => Some(OptionName::Boot),
        "--stand-in" => Some(OptionName::StandIn),
        "--report" => Some(OptionName::Report),
        "--max-message" => Some(OptionName::MaxMessage),
        "--server-wait" => Some(OptionName::ServerWait),
        "--metrics" => Some(OptionName::Metrics),
        "--log" => Some(OptionName::Log),
        "--until-eof" => Some(OptionName::UntilEof),
        _ => None,
    }
}

fn stub_option(name: &str) -> Option<OptionName>
    ensures { result ≡ lookup (bytes_eq name.now) stub_options }
{
    match name {
        "--byte" => Some(OptionName::Byte),
        _ => None,
    }
}
