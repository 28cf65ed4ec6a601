//! A node is started anew, while its threads run.
ghost use Rattle.std.specs.Prelude.{◌≡◌};
ghost use Rattle.node_threads.specs.Restarting.{boot_after, RestartsAt};
ghost use Rattle.node_threads.specs.Balance.{BalancedByRestart};

use link_pool::RestartReply;
use locked_node::{Caller, Shared};
use pg_ids::Boot;
use std::sync::Wait;

// How many boots a process has.
const BOOTS: u64 = 1 << 32;

/// Starts a node anew with its next boot. What was given out before is stale from then on, and
/// whoever waits for a link is woken. It returns `Exhausted`, and nothing changes, where the
/// process has no boot left.
pub fn restart<R: Wait, S: Drop>(
    rt: &R,
    shared: &Shared<S>,
    caller: &mut Caller<S>,
    boot: &mut Boot,
) -> RestartReply
    requires own { caller.old.lock ≡ shared.now }
    ensures restarts { RestartsAt (boot_after boot.old) boot.old caller.old result
        boot.new caller.new }
    ensures balanced { BalancedByRestart caller.old caller.new }
{
    let Some(next) = boot_behind(*boot) else {
        return RestartReply::Exhausted;
    };
    let reply = shared.restart(rt, caller, next);
    match reply {
        RestartReply::Restarted => *boot = next,
        RestartReply::Exhausted => {}
    }
    reply
}

// The next boot of a process, if it has one left.
fn boot_behind(boot: Boot) -> Option<Boot>
    ensures { result ≡ boot_after boot }
{
    let next = boot.0.checked_add(1)?;
    if next % BOOTS == 0 {
        None
    } else {
        Some(Boot(next))
    }
}
