//! What a state begins with.
ghost use Rattle.std.specs.Prelude.{◌≡◌, IfOk};
ghost use Rattle.world.specs.World.{first_starts};
ghost use Rattle.world.specs.Facts.{AreInRange};

use crate::request::Start;
use crate::starts::Starts;
use ini_config::{Group, Settings};
use pg_ids::Boot;
use std::alloc::{AllocError, Global};

/// The first start of each node of a group, with boot 0.
pub(super) fn starts_of(alloc: Global, group: &Group) -> Result<Starts, AllocError>
    ensures { IfOk result (λ starts. starts.rows ≡ first_starts group.now) }
{
    let mut starts = Starts::new(alloc);
    for settings in group.nodes() {
        starts.reserve()?;
        starts.push(Start {
            node: settings.peer_id(),
            boot: Boot(0),
        });
    }
    Ok(starts)
}

/// Does nothing that is needed when it runs: says that the numbers of nodes and of their slots are
/// in range. The checker knows this of each node's settings only once they were read.
pub(super) fn in_range(nodes: &[Settings])
    ensures { AreInRange nodes.now }
{
    for settings in nodes {
        settings.peer_id().get();
        settings.max_client_conn();
    }
}
