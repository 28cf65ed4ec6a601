//! The commands of the program, by their names.
ghost use Rattle.std.specs.Prelude.{◌≡◌};
ghost use Rattle.command_line.specs.Request.{command_named, first_of};

/// A command of the program.
#[derive(Clone, Copy, Debug, PartialEq, Eq)]
pub enum CommandName {
    /// The parts of a cancel key.
    Key,
    /// What a pooler does with a cancel request.
    Decide,
    /// Whether settings files make a group.
    Check,
    /// What the events of a script bring about.
    World,
    /// A group of poolers that serves clients.
    Serve,
    /// A stand-in server.
    Stub,
}

/// What the first argument says.
#[derive(Clone, Copy, Debug, PartialEq, Eq)]
pub enum FirstArgument {
    /// Help on the program.
    Help,
    /// The program's version.
    Version,
    /// Help on what follows.
    HelpOn,
    /// A command, whose arguments follow.
    Command(CommandName),
}

impl CommandName {
    /// The command of this name.
    #[tactic(auto, unfolding(crate::specs::Request::command_named))]
    pub fn read(name: &str) -> Option<CommandName>
        ensures { result ≡ command_named name.now }
    {
        match name {
            "key" => Some(CommandName::Key),
            "decide" => Some(CommandName::Decide),
            "check" => Some(CommandName::Check),
            "world" => Some(CommandName::World),
            "serve" => Some(CommandName::Serve),
            "stub" => Some(CommandName::Stub),
            _ => None,
        }
    }
}

impl FirstArgument {
    /// What this argument says, where it is the first.
    #[tactic(auto, unfolding(crate::specs::Request::first_of))]
    pub fn read(argument: &str) -> Option<FirstArgument>
        ensures { result ≡ first_of argument.now }
    {
        match argument {
            "-h" | "--help" => Some(FirstArgument::Help),
            "-V" | "--version" => Some(FirstArgument::Version),
            "help" => Some(FirstArgument::HelpOn),
            _ => CommandName::read(argument).map(FirstArgument::Command),
        }
    }
}
