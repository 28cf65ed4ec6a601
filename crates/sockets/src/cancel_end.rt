//! How a cancel request has ended, for the log.
ghost use Rattle.std.specs.Prelude.{◌≡◌};
ghost use Rattle.sockets.specs.CancelEnds.{end_of};

use peer_forward::{Outcome, Verdict};

/// How a cancel request has ended.
#[derive(Clone, Copy, Debug, PartialEq, Eq)]
pub enum CancelEnd {
    /// Its server or peer has closed the connection cleanly.
    Settled,
    /// It may still be acted on. The byte 45 (hexadecimal) was written to its sender, or that failed.
    Failed,
    /// It was sent nowhere: it was refused, or it has ended a client's wait.
    NothingSent,
    /// It wasn't served, and its sender's connection is reset.
    NotServed,
}

impl CancelEnd {
    /// Returns the end of a request of which this became, or nothing.
    pub fn of(verdict: Option<Verdict>) -> CancelEnd
        ensures { result ≡ end_of verdict }
    {
        match verdict {
            None => CancelEnd::NotServed,
            Some(Verdict::Refused | Verdict::Unwaited) => CancelEnd::NothingSent,
            Some(Verdict::Carried(Outcome::Ended)) => CancelEnd::Settled,
            Some(Verdict::Carried(Outcome::Failed) | Verdict::NoConnect) => CancelEnd::Failed,
        }
    }

    /// Returns its name in the log.
    pub fn name(self) -> &'static str {
        match self {
            CancelEnd::Settled => "settled",
            CancelEnd::Failed => "failed",
            CancelEnd::NothingSent => "nothing_sent",
            CancelEnd::NotServed => "not_served",
        }
    }
}
