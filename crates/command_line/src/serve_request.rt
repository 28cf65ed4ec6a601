//! What `serve` is asked for.
ghost use Rattle.std.specs.Prelude.{◌<◌, ◌≤◌, length};
ghost use Rattle.std.specs.Option.{ForSome};

use crate::log_level::LogLevel;
use crate::seed::SeedSource;
use startup::Reports;

/// A group of poolers, or some of its nodes, that serve clients.
#[derive(Drop)]
pub struct ServeRequest<'a> {
    /// The port at which clients and cancel requests come in.
    pub front: u16,
    /// What the secrets of keys are drawn from.
    pub seed: SeedSource<'a>,
    /// The number of this start, which is part of longer keys.
    pub boot: u32,
    /// Whether stand-in servers run at those of the settings' server addresses that are 127.0.0.1.
    pub stand_in: bool,
    /// What logins report beside the parameters that each of them reports.
    pub reports: Reports,
    /// The length in bytes, as its length field says, of the longest message that is passed on, in
    /// either direction, and of the longest group of messages of an extended query.
    pub max_message: u32,
    /// How many seconds a server is tried again that takes no connections.
    pub server_wait: u32,
    /// The port of 127.0.0.1 at which figures are served for Prometheus, if there is one.
    pub metrics: Option<u16>,
    /// Which lines of the log are written.
    pub log: LogLevel,
    /// Whether the group stops gracefully at the end of standard input.
    pub until_eof: bool,
    /// The names of the settings files, one for each node of this process.
    pub files: Vec<&'a str>,
    ghost listens: { 0 < front },
    ghost least_message: { 8192 ≤ max_message },
    ghost most_message: { max_message ≤ 1073741823 },
    ghost most_wait: { server_wait ≤ 3600 },
    ghost serves_figures: { ForSome metrics (λ port. 0 < port) },
    ghost some_node: { 0 < length files.items },
}
