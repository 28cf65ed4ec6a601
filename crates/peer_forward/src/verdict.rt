//! What became of a request, as its sender learns it.
ghost use Rattle.peer_forward.specs.Finishing.{Finishes};

use crate::{Outcome, Requester, WriteCalls};

// What is written where the request may still be acted on (own: the manual's server writes
// nothing).
const UNSETTLED: u8 = 0x45;

/// What became of a request.
#[derive(Clone, Copy, Debug, PartialEq, Eq, Hash)]
pub enum Verdict {
    /// It was refused.
    Refused,
    /// Its client was waiting for a link, and waits no more.
    Unwaited,
    /// It was carried on, with this outcome.
    Carried(Outcome),
    /// The connection to carry it on couldn't be made.
    NoConnect,
}

/// Finishes the connection that a request came on. Where the request is settled, no byte is written,
/// and the request's last byte, which was seen, is taken. Where it may still be acted on, the byte
/// `45` (hexadecimal) is written; the one write isn't tried again, and where it failed the seen byte
/// is left, so that the connection is reset. It takes no memory.
pub fn finish<T: WriteCalls + Requester>(stream: &mut T, verdict: Verdict)
    ensures { Finishes T.wrote T.takes stream.old verdict stream.new }
{
    match verdict {
        Verdict::Refused | Verdict::Unwaited | Verdict::Carried(Outcome::Ended) => {
            stream.take_seen();
        }
        Verdict::Carried(Outcome::Failed) | Verdict::NoConnect => {
            if let Ok(1..) = stream.write_once(&[UNSETTLED]) {
                stream.take_seen();
            }
        }
    }
}
