//! How a group runs.
ghost use Rattle.std.specs.Prelude.{◌<◌, ◌≤◌};
ghost use Rattle.std.specs.Option.{ForSome};

use crate::log_level::LogLevel;
use startup::Reports;

/// How a group runs.
#[derive(Drop)]
pub struct RunOptions {
    /// What logins report beside the parameters that each of them reports.
    pub reports: Reports,
    /// The length in bytes of the longest message that is passed on.
    pub max_message: u32,
    /// How many seconds a server is tried again that takes no connections.
    pub server_wait: u32,
    /// The port at which figures are served, if there is one.
    pub metrics: Option<u16>,
    /// Which lines of the log are written.
    pub log: LogLevel,
    /// Whether the group stops at the end of standard input.
    pub until_eof: bool,
    ghost least_message: { 8192 ≤ max_message },
    ghost most_message: { max_message ≤ 1073741823 },
    ghost most_wait: { server_wait ≤ 3600 },
    ghost serves_figures: { ForSome metrics (λ port. 0 < port) },
}
