//! The call of a new start.
ghost use Rattle.link_pool.specs.Streams.{RestartStreams};
ghost use Rattle.link_pool.specs.declared.replies.RestartReply.TheVariants as restart;
ghost use Rattle.node_core.specs.declared.exchange.Exchange.TheVariants as call;

use crate::call::Call;
use crate::call_answer::CallAnswer;
use crate::call_note::CallNote;
use crate::log::Log;
use crate::turn::Woken;
use node_core::{DatabaseNo, Exchange, NodeCore, RestartReply};
use pg_ids::{Boot, Kind};

/// A new start, with this boot.
#[derive(Drop)]
pub struct Restart(pub Boot);

impl<S: Drop> Call<S> for Restart {
    type Reply = RestartReply;

    type Details = Boot;

    ghost handed = { λ made. made.0 };

    ghost exchange = { λ made reply. call.Restart made reply };

    ghost streams = { λ _ reply. RestartStreams reply };

    ghost at_end = { λ _. restart.Exhausted };

    #[inline(always)]
    fn details(&self) -> Self::Details {
        self.0
    }

    #[inline(always)]
    fn make(self, core: &mut NodeCore<S>) -> Self::Reply {
        core.restart(self.0)
    }

    #[inline(always)]
    fn database(&self, _core: &NodeCore<S>) -> Option<DatabaseNo> {
        None
    }

    #[inline(always)]
    fn record(details: &Self::Details, reply: &Self::Reply, log: &mut Log, note: &mut CallNote) {
        let (answer, woken) = match reply {
            RestartReply::Restarted => (CallAnswer::Restarted, Woken::All),
            RestartReply::Exhausted => (CallAnswer::RestartExhausted, Woken::Nobody),
        };
        log.put(&Exchange::Restart(*details, *reply));
        note.begin(answer, Kind::Short);
        note.numbers.push(details.get());
        note.turn.woken = woken;
    }

    fn forfeit(self) -> Self::Reply {
        RestartReply::Exhausted
    }
}
