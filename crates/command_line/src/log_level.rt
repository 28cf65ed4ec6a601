//! The levels of the log, by their names.
ghost use Rattle.std.specs.Prelude.{◌≡◌};
ghost use Rattle.std.specs.Map.{lookup};
ghost use Rattle.std.specs.Str.{bytes_eq};
ghost use Rattle.command_line.specs.RunOptions.{log_levels};

/// Which lines of the log are written.
#[derive(Clone, Copy, Debug, PartialEq, Eq)]
pub enum LogLevel {
    /// Those that somebody may have to look into.
    Warn,
    /// These, and what the group does.
    Notice,
    /// These, and each cancel.
    Info,
}

impl LogLevel {
    /// The level of this name.
    pub fn read(name: &str) -> Option<LogLevel>
        ensures { result ≡ lookup (bytes_eq name.now) log_levels }
    {
        match name {
            "warn" => Some(LogLevel::Warn),
            "notice" => Some(LogLevel::Notice),
            "info" => Some(LogLevel::Info),
            _ => None,
        }
    }
}
