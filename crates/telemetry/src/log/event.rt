//! The events of the log, and their levels.
ghost use Rattle.std.specs.Prelude.{◌≤◌, ◌<◌, ◌↔◌, IsTrue};
ghost use Rattle.telemetry.specs.Levels.{rank};

use crate::limits::LINES_PER_SECOND;

/// An event of the log.
#[derive(Clone, Copy, Debug, PartialEq, Eq)]
pub enum Event {
    /// The group listens.
    Started,
    /// A node listens.
    NodeListens,
    /// A connection can't be accepted.
    AcceptFailed,
    /// A connection that was accepted can't be served.
    ServeFailed,
    /// A thread can't be started.
    ThreadFailed,
    /// A server can't be connected to for a link.
    LinkConnectFailed,
    /// A link can't log in at its server.
    LinkLoginFailed,
    /// A server closed a link while a client had it.
    LinkLost,
    /// An idle link is closed: its server has closed it, or sent something.
    LinkClosed,
    /// An idle link is closed: its server reports another value than clients get.
    LinkChanged,
    /// A server or a peer can't be connected to for a cancel request.
    CancelConnectFailed,
    /// A server or a peer didn't close the connection of a cancel request cleanly.
    CancelFailed,
    /// A client was refused.
    ClientRefused,
    /// No boot number was given.
    BootUnset,
    /// Logins don't report a parameter that drivers need.
    ReportMissing,
    /// The process may open fewer descriptors than its settings need.
    LimitLow,
    /// A client's start-up packet has parameters without effect.
    ParametersDropped,
    /// A cancel request has ended.
    CancelEnded,
    /// The group drains.
    Stopping,
    /// The group has stopped.
    Stopped,
    /// A message of a client or of a server is longer than the limit.
    MessageTooLong,
    /// The session of a client that had logged in has ended with an error of its own.
    SessionEnded,
    /// A cancel request was refused, or no seat was free for it.
    CancelRefused,
}

/// The number of kinds of events.
pub const EVENTS: usize = 23;

/// The kinds of events.
pub const KINDS: [Event; EVENTS] = [
    Event::Started,
    Event::NodeListens,
    Event::AcceptFailed,
    Event::ServeFailed,
    Event::ThreadFailed,
    Event::LinkConnectFailed,
    Event::LinkLoginFailed,
    Event::LinkLost,
    Event::LinkClosed,
    Event::CancelConnectFailed,
    Event::CancelFailed,
    Event::ClientRefused,
    Event::BootUnset,
    Event::ParametersDropped,
    Event::CancelEnded,
    Event::Stopping,
    Event::Stopped,
    Event::MessageTooLong,
    Event::ReportMissing,
    Event::LimitLow,
    Event::SessionEnded,
    Event::CancelRefused,
    Event::LinkChanged,
];

/// The importance of an event, in descending order.
#[derive(Clone, Copy, Debug, PartialEq, Eq)]
pub enum Level {
    /// May need attention.
    Warn,
    /// Rare, and may explain other events.
    Notice,
    /// Frequent and normal.
    Info,
}

impl Level {
    /// Returns its name in the log.
    pub fn name(self) -> &'static str {
        match self {
            Level::Warn => "warn",
            Level::Notice => "notice",
            Level::Info => "info",
        }
    }

    /// Returns whether lines of this level are written, if `least` is the least important level that
    /// is.
    pub fn is_written(self, least: Level) -> bool
        ensures { IsTrue result ↔ (rank self ≤ rank least) }
    {
        match least {
            Level::Warn => matches!(self, Level::Warn),
            Level::Notice => !matches!(self, Level::Info),
            Level::Info => true,
        }
    }
}

impl Event {
    /// Returns its position in `KINDS`.
    pub fn place(self) -> usize
        ensures { result < 23 }
    {
        match self {
            Event::Started => 0,
            Event::NodeListens => 1,
            Event::AcceptFailed => 2,
            Event::ServeFailed => 3,
            Event::ThreadFailed => 4,
            Event::LinkConnectFailed => 5,
            Event::LinkLoginFailed => 6,
            Event::LinkLost => 7,
            Event::LinkClosed => 8,
            Event::CancelConnectFailed => 9,
            Event::CancelFailed => 10,
            Event::ClientRefused => 11,
            Event::BootUnset => 12,
            Event::ParametersDropped => 13,
            Event::CancelEnded => 14,
            Event::Stopping => 15,
            Event::Stopped => 16,
            Event::MessageTooLong => 17,
            Event::ReportMissing => 18,
            Event::LimitLow => 19,
            Event::SessionEnded => 20,
            Event::CancelRefused => 21,
            Event::LinkChanged => 22,
        }
    }

    /// Returns its name in the log. Events of one name have different levels.
    pub fn name(self) -> &'static str {
        match self {
            Event::Started => "started",
            Event::NodeListens => "node_listens",
            Event::AcceptFailed => "accept_failed",
            Event::ServeFailed => "serve_failed",
            Event::ThreadFailed => "thread_failed",
            Event::LinkConnectFailed => "link_connect_failed",
            Event::LinkLoginFailed => "link_login_failed",
            Event::LinkLost => "link_lost",
            Event::LinkClosed | Event::LinkChanged => "link_closed",
            Event::CancelConnectFailed => "cancel_connect_failed",
            Event::CancelFailed => "cancel_failed",
            Event::ClientRefused => "client_refused",
            Event::BootUnset => "boot_unset",
            Event::ParametersDropped => "parameters_dropped",
            Event::CancelEnded => "cancel_ended",
            Event::Stopping => "stopping",
            Event::Stopped => "stopped",
            Event::MessageTooLong => "message_too_long",
            Event::ReportMissing => "report_missing",
            Event::LimitLow => "limit_low",
            Event::SessionEnded => "session_ended",
            Event::CancelRefused => "cancel_refused",
        }
    }

    /// Returns its level.
    pub fn level(self) -> Level {
        match self {
            Event::Started
            | Event::NodeListens
            | Event::LinkClosed
            | Event::ParametersDropped
            | Event::CancelEnded
            | Event::Stopping
            | Event::Stopped => Level::Notice,
            Event::CancelRefused => Level::Info,
            _ => Level::Warn,
        }
    }

    /// Returns how many of its lines are written per second, at most.
    pub fn limit(self) -> u32 {
        match self {
            Event::Started | Event::NodeListens => u32::MAX,
            Event::ParametersDropped => 1,
            _ => LINES_PER_SECOND,
        }
    }
}
