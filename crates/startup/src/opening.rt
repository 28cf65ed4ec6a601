//! The reading of a connection's first packets.
ghost use Rattle.std.specs.Prelude.{◌≡◌};

use crate::first::First;
use crate::header::{CANCEL_CODE, GSS_CODE, Header, LONG_STARTUP_CODE, SSL_CODE, STARTUP_CODE};
use crate::packets::{read_cancel, read_negotiation, unfinished};
use crate::session::read_startup;
use crate::startup_error::StartupError;
use pg_ids::Kind;
use std::alloc::Global;
use std::marker::Model;

/// A connection before its session: which negotiations it has seen.
#[derive(Debug, Drop)]
pub struct Opening {
    alloc: Global,
    ssl: bool,
    gss: bool,
}

impl Model for Opening {
    ghost use Rattle.startup.specs.Kinds.{Seen};

    ghost Value = { Seen };

    ghost view = { λ o. record { ssl = o.ssl; gss = o.gss } };
}

impl Opening {
    ghost use Rattle.startup.specs.Kinds.{none_seen};
    ghost use Rattle.startup.specs.FirstPacket.{Outcome, IsOutcome, Tells, Answers, seen_after};

    /// A connection that has seen nothing. Takes no memory; the texts of a session will.
    pub const fn new(alloc: Global) -> Opening
        ensures { result ≡ none_seen }
    {
        Opening {
            alloc,
            ssl: false,
            gss: false,
        }
    }

    /// What the connection's bytes so far ask for, which begin at the packet; `at_end` says that no
    /// more will come. Bytes may follow the packet. After `Ssl` or `Gss` the next packet is read by
    /// another call, from its own beginning (PostgreSQL manual, "Start-up" and "Message Formats").
    pub fn read(&mut self, so_far: &[u8], at_end: bool) -> Result<First, StartupError>
        // The result is the outcome of these bytes. Memory can run out only where a session begins.
        ensures found { Answers self.old so_far.now at_end result }
        // The bytes have no other outcome.
        ensures only { (outcome : Outcome) → IsOutcome self.old so_far.now at_end outcome
            → Tells result outcome }
        // A negotiation is seen from its answer on. Every other answer leaves the connection as it
        // was.
        ensures seen { self.new ≡ seen_after self.old result }
    {
        let first = self.judge(so_far, at_end)?;
        match &first {
            First::Ssl => self.ssl = true,
            First::Gss => self.gss = true,
            First::Startup { .. } | First::Cancel { .. } | First::More => {}
        }
        Ok(first)
    }

    // The answer, before the connection takes note of it.
    fn judge(&self, so_far: &[u8], at_end: bool) -> Result<First, StartupError>
        ensures { Answers self.now so_far.now at_end result }
    {
        let Some(header) = Header::read(so_far)? else {
            return unfinished(at_end);
        };
        match header.code {
            STARTUP_CODE => read_startup(self.alloc, Kind::Short, so_far, header, at_end),
            LONG_STARTUP_CODE => read_startup(self.alloc, Kind::Long, so_far, header, at_end),
            CANCEL_CODE => read_cancel(so_far, header, at_end),
            SSL_CODE => read_negotiation(self.ssl, header, First::Ssl),
            GSS_CODE => read_negotiation(self.gss, header, First::Gss),
            _ => Err(StartupError::BadVersion),
        }
    }
}
