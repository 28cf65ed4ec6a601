//! A world of events, which is safe by its type.
ghost use Rattle.std.specs.Prelude.{◌≡◌, ◌++◌, ◌∷◌, [], IfOk, OnOk, OnErr};
ghost use Rattle.world.specs.World.{nothing_yet};
ghost use Rattle.world.specs.Admissible.{Admissible, NeedsRoom};
ghost use Rattle.world.specs.WorldRun.{IsNew, Runs, RunsSettled, SettledRun, WorldRun, WorldStep};
ghost use Rattle.world.specs.Facts.{Facts};
ghost use Rattle.world.specs.HoldsUp.{HoldsUp};
ghost use Rattle.world.specs.SafeCancellation.{IsSafe};
ghost use Rattle.world.specs.Settled.{SettledStays, NothingToCome, EndedIsSettled};

use crate::event::Event;
use crate::memory::Memory;
use crate::reply::{Reply, Took};
use crate::request::Interrupt;
use crate::state::State;
use cancel_router::RouteRefusal;
use ini_config::Group;
use node_core::{CancelRefusal, JoinRefusal};
use pg_ids::{AnyKey, ClientKey, LongPart};
use std::alloc::Global;
use std::marker::Model;

/// A group of nodes with their clients and servers, after some events.
///
/// This is true of every value of this type, whatever the events were: each interrupted server
/// process ran a query of the client that the request's key was given to; no key was taken for two
/// clients; and each cancel connection to a server is for a request with hops left and a key that
/// was given to the client who had that server process.
#[derive(Drop)]
pub struct World {
    state: State,
}

impl Model for World {
    ghost use Rattle.world.specs.World.{World as WorldValue};
    ghost use Rattle.world.specs.Facts.{Facts};

    ghost Value = { WorldValue };

    ghost view = { λ w. w.state };

    ghost invariant = { λ w. Facts w.state };
}

impl World {
    /// The world of a group in which nothing has happened.
    pub fn new(alloc: Global, group: Group) -> Result<World, Memory>
        ensures { IfOk result (λ world. IsNew group world) }
    {
        Ok(World {
            state: State::new(alloc, group)?,
        })
    }

    /// An event, which takes place exactly where it is admissible. Where memory is refused, nothing
    /// changes.
    pub fn step(&mut self, event: &Event) -> Result<Took, Memory>
        ensures step { IfOk result (λ took. WorldStep event.now took self.old self.new) }
        ensures settled { SettledStays self.old self.new }
        ensures err { OnErr result (self.new ≡ self.old) }
        // It may be refused only to an admissible event of a kind that can make the world larger.
        ensures memory { OnErr result (NeedsRoom event.now × Admissible self.old event.now) }
    {
        self.advance(event)
    }

    /// The interruptions, in their order. What follows is true of every world.
    pub fn interrupts(&self) -> &[Interrupt]
        ensures value { result.now ≡ self.now.interrupts }
        // Only the client to whom the request's key was given is ever interrupted; no key is taken
        // for two clients; and each cancel connection is for a request of the client who had the
        // server process.
        ensures safe { IsSafe self.now }
        // Of a settled request nothing is to come, and a forward connection that was ended without
        // a byte means that the request is settled.
        ensures nothing_to_come { NothingToCome self.now }
        ensures ended_is_settled { EndedIsSettled self.now }
        // What holds this up, over all nodes at once.
        ensures holds_up { HoldsUp self.now }
    {
        self.state.known();
        self.state.interrupts()
    }
}

impl World {
    // Does nothing when it runs: says what is true of every world. A function that isn't a method
    // of `World` knows only what a method states.
    fn known(&self)
        ensures safe { IsSafe self.now }
        ensures nothing_to_come { NothingToCome self.now }
    {
        self.interrupts();
    }

    // An event, with what is true of the world before and after it.
    fn advance(&mut self, event: &Event) -> Result<Took, Memory>
        ensures step { IfOk result (λ took. WorldStep event.now took self.old self.new) }
        ensures err { OnErr result (self.new ≡ self.old) }
        ensures memory { OnErr result (NeedsRoom event.now × Admissible self.old event.now) }
        ensures facts { Facts self.old × Facts self.new }
    {
        self.state.known();
        event.in_range();
        self.state.apply(event)
    }

    // Events one after another, with what each took.
    fn steps(&mut self, alloc: Global, events: &[Event]) -> Result<Vec<Took>, Memory>
        ensures runs { IfOk result (λ took. Runs self.old events.now took.items self.new) }
        ensures settled { IfOk result
            (λ took. RunsSettled self.old events.now took.items self.new) }
    {
        let mut took = Vec::with_capacity(alloc, events.len())?;
        for event in events {
            let did = self.advance(event)?;
            note(&mut took, did, None)?;
        }
        Ok(took)
    }
}

// What one more event took. The last argument is there for its types alone: the checker has to see
// each that a reply may hold.
fn note(took: &mut Vec<Took>, did: Took, _: Option<ReplyTypes>) -> Result<(), Memory>
    ensures { OnOk result (took.new.items ≡ took.old.items ++ did ∷ []) }
{
    took.push(did)?;
    Ok(())
}

// The types that a reply may hold.
type ReplyTypes = (
    Reply,
    AnyKey,
    ClientKey,
    LongPart,
    JoinRefusal,
    CancelRefusal,
    RouteRefusal,
);

/// What a list of events brings about in a group in which nothing had happened: the world, and what
/// each event took.
pub fn run(alloc: Global, group: Group, events: &[Event]) -> Result<(World, Vec<Took>), Memory>
    ensures run { IfOk result (λ ran. WorldRun group events.now ran.1.items ran.0) }
    // What is settled at any place of the list is settled for good, and is not interrupted later.
    ensures settled { IfOk result (λ ran. SettledRun group events.now ran.1.items ran.0) }
    ensures safe { IfOk result (λ ran. IsSafe ran.0) }
    ensures nothing_to_come { IfOk result (λ ran. NothingToCome ran.0) }
{
    let mut world = World::new(alloc, group)?;
    let took = world.steps(alloc, events)?;
    world.known();
    Ok((world, took))
}
