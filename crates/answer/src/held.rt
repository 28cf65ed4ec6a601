//! What the clients of a node hold until it is handed back.
ghost use Rattle.std.specs.Prelude.{◌≡◌, ◌≤◌, [], IfOk, vec_capacity, vec_len};

use lease::{Lease, Pass};
use std::alloc::{AllocError, Global};

/// What stands for the stream of a link over which nothing is carried.
#[derive(Clone, Copy, Debug)]
pub struct NoStream;

/// The passes and the leases of clients.
pub struct Held {
    /// The pass of each client.
    pub passes: Vec<Pass>,
    /// The lease of each client that has a link.
    pub leases: Vec<Lease<NoStream>>,
}

impl Held {
    /// Nothing, with room for what this many clients hold.
    pub fn with_room(alloc: Global, clients: usize) -> Result<Held, AllocError>
        ensures none { IfOk result (λ held. (vec_len held.passes ≡ 0) × (vec_len held.leases ≡ 0)) }
        ensures empty { IfOk result (λ held. (held.passes.items ≡ []) × (held.leases.items ≡ [])) }
        ensures passes { IfOk result (λ held. clients ≤ vec_capacity held.passes) }
        ensures leases { IfOk result (λ held. clients ≤ vec_capacity held.leases) }
    {
        let passes = Vec::with_capacity(alloc, clients)?;
        let Ok(leases) = Vec::with_capacity(alloc, clients) else {
            passes.destroy_empty();
            return Err(AllocError);
        };
        Ok(Held { passes, leases })
    }

    /// Spends all that is left without a step. The journal of these clients is at its end.
    pub fn forfeit(self) {
        let Held { passes, leases } = self;
        forfeit_leases(leases);
        forfeit_passes(passes);
    }
}

fn forfeit_leases(mut leases: Vec<Lease<NoStream>>) {
    while let Some(lease) = leases.pop() {
        lease.forfeit();
    }
    leases.destroy_empty();
}

fn forfeit_passes(mut passes: Vec<Pass>) {
    while let Some(pass) = passes.pop() {
        pass.forfeit();
    }
    passes.destroy_empty();
}
