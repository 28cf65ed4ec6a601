//! The server processes of a world.
ghost use Rattle.std.proofs.Common.{rules};
ghost use Rattle.std.specs.Prelude.{◌≡◌, ◌≢◌, ◌-◌, ◌<◌, ◌++◌, ◌∷◌, [], ℕ, List, None, Some, IfSome, OnErr, OnOk, IsTrue, IsFalse, length, slice_get, slice_set};
ghost use Rattle.std.specs.Option.{option_map};
ghost use Rattle.world.specs.World.{Backend, IsBackend};
ghost use Rattle.world.specs.Wire.{backend_of};
ghost use Rattle.world.specs.LinkEvents.{new_backend, rests};

use crate::index::Key;
use crate::numbers::{BackendNo, Label, ServerNo};
use crate::table::{Row, Table};
use node_core::LinkRecord;
use pg_ids::ServerKey;
use std::alloc::{AllocError, Global};
use std::marker::Model;

/// What no two server processes share: the server, and the key by which it cancels the process.
#[derive(Clone, Copy, Debug, PartialEq, Eq, Hash)]
pub(crate) struct ProcessKey {
    pub server: ServerNo,
    pub key: ServerKey,
}

impl Key for ProcessKey {
    ghost exact = { Prim.search rules };
}

/// A server process. The requests on its wire are all of the client that has its link, or had it
/// last, so they are counted.
#[derive(Clone, Copy, Debug, PartialEq, Eq)]
pub(crate) struct Process {
    pub server: ServerNo,
    pub key: ServerKey,
    pub link: Option<LinkRecord>,
    pub waiting: u64,
    pub running: Option<Label>,
    pub readies: u64,
    pub holder: Option<Label>,
}

impl Row for Process {
    type Key = ProcessKey;

    ghost key_of = { λ process. record { server = process.server; key = process.key } };

    fn key(&self) -> ProcessKey {
        ProcessKey {
            server: self.server,
            key: self.key,
        }
    }
}

/// The server processes of a world, in the order of their making: no two of one server have one
/// key.
#[derive(Drop)]
pub(crate) struct Backends {
    table: Table<Process>,
}

impl Model for Backends {
    ghost use Rattle.std.specs.Prelude.{map};
    ghost use Rattle.world.specs.World.{Backend};
    ghost use Rattle.world.specs.Table.{Rows};
    ghost use Rattle.world.specs.Wire.{backend_of};

    ghost Value = { Rows Backend };

    ghost view = { λ b. record { rows = map backend_of b.table.rows; room = b.table.room } };
}

impl Backends {
    /// No server processes.
    pub fn new(alloc: Global) -> Backends
        ensures { result.rows ≡ [] }
    {
        Backends {
            table: Table::new(alloc),
        }
    }

    /// How many there are.
    pub fn len(&self) -> usize
        ensures { result ≡ length self.now.rows }
    {
        self.table.len()
    }

    /// The one with this number.
    pub fn get(&self, place: BackendNo) -> Option<Process>
        ensures { option_map backend_of result ≡ slice_get self.now.rows place }
    {
        self.table.get(place.0 as usize)
    }

    /// The number of the one of this server with this key.
    pub fn find(&self, server: ServerNo, key: ServerKey) -> Option<BackendNo>
        ensures found { IfSome result (λ place. (backend : Backend)
            × IsBackend self.now.rows server key place backend) }
        // There is no other.
        ensures only { (place : ℕ) (backend : Backend)
            → IsBackend self.now.rows server key place backend → result ≡ Some place }
    {
        match self.table.find(ProcessKey { server, key }) {
            Some(found) => Some(BackendNo(found.place as u64)),
            None => None,
        }
    }

    /// Makes room for one more.
    pub fn reserve(&mut self) -> Result<(), AllocError>
        ensures rows { self.new.rows ≡ self.old.rows }
        ensures room { OnOk result (0 < self.new.room) }
    {
        self.table.reserve()
    }

    /// Adds one of this server with this new key, made for this link, which this client has, if any
    /// has it; for it there is room.
    pub fn push(
        &mut self,
        server: ServerNo,
        key: ServerKey,
        link: Option<LinkRecord>,
        holder: Option<Label>,
    )
        requires room { 0 < self.old.room }
        requires new { (place : ℕ) (backend : Backend)
            → IsBackend self.old.rows server key place backend → ⊥ }
        ensures { self.new.rows ≡ self.old.rows ++ new_backend server key link holder ∷ [] }
    {
        self.table.push(Process {
            server,
            key,
            link,
            waiting: 0,
            running: None,
            readies: 0,
            holder,
        });
    }

    // Puts another in the place of one, with the same server and key.
    fn set(&mut self, place: BackendNo, process: Process)
        requires same { (old : Process) × (slice_get self.old.rows place ≡ Some (backend_of old))
            × (old.server ≡ process.server) × (old.key ≡ process.key) }
        ensures rows { self.new.rows ≡ slice_set self.old.rows place (backend_of process) }
        ensures room { self.new.room ≡ self.old.room }
    {
        self.table.set(place.0 as usize, process);
    }

    /// The link of one, on whose wire nothing is, is in the hands of this client.
    pub fn hold(&mut self, place: BackendNo, label: Label)
        requires there { (backend : Backend) × (slice_get self.old.rows place ≡ Some backend)
            × (backend.wire ≡ []) }
        ensures { (backend : Backend) → slice_get self.old.rows place ≡ Some backend
            → self.new.rows ≡ slice_set self.old.rows place
            (record backend { holder = Some label }) }
    {
        let Some(process) = self.get(place) else {
            unreachable!()
        };
        self.set(
            place,
            Process {
                waiting: 0,
                holder: Some(label),
                ..process
            },
        );
    }

    /// One more request of the client that has its link goes on the wire of one, if it can be
    /// counted.
    pub fn send(&mut self, place: BackendNo, label: Label) -> Result<(), AllocError>
        requires there { (backend : Backend) × (slice_get self.old.rows place ≡ Some backend)
            × (backend.holder ≡ Some label) }
        ensures sent { OnOk result ((backend : Backend)
            → slice_get self.old.rows place ≡ Some backend
            → self.new.rows ≡ slice_set self.old.rows place
            (record backend { wire = backend.wire ++ label ∷ [] })) }
        ensures unchanged { OnErr result (self.new.rows ≡ self.old.rows) }
    {
        let Some(process) = self.get(place) else {
            unreachable!()
        };
        let Some(waiting) = process.waiting.checked_add(1) else {
            return Err(AllocError);
        };
        self.set(
            place,
            Process {
                waiting,
                holder: Some(label),
                ..process
            },
        );
        Ok(())
    }

    /// One runs the first request of its wire, if there is any. Returns whether there was.
    pub fn take(&mut self, place: BackendNo) -> bool
        requires there { (backend : Backend) × (slice_get self.old.rows place ≡ Some backend) }
        ensures taken { IsTrue result → (backend : Backend)
            → slice_get self.old.rows place ≡ Some backend
            → (label : ℕ) × (rest : List ℕ) × (backend.wire ≡ label ∷ rest)
            × (self.new.rows ≡ slice_set self.old.rows place
            (record backend { wire = rest; running = Some label })) }
        ensures none { IsFalse result → (self.new.rows ≡ self.old.rows)
            × ((backend : Backend) → slice_get self.old.rows place ≡ Some backend
            → backend.wire ≡ []) }
    {
        let Some(process) = self.get(place) else {
            unreachable!()
        };
        let Some(label) = process.holder else {
            return false;
        };
        let Some(waiting) = process.waiting.checked_sub(1) else {
            return false;
        };
        self.set(
            place,
            Process {
                waiting,
                running: Some(label),
                ..process
            },
        );
        true
    }

    /// One no longer runs anything, and one ReadyForQuery more is on its way, if that can be
    /// counted.
    pub fn rest(&mut self, place: BackendNo) -> Result<(), AllocError>
        requires there { (backend : Backend) × (slice_get self.old.rows place ≡ Some backend) }
        ensures rested { OnOk result ((backend : Backend)
            → slice_get self.old.rows place ≡ Some backend
            → self.new.rows ≡ slice_set self.old.rows place (rests backend)) }
        ensures unchanged { OnErr result (self.new.rows ≡ self.old.rows) }
    {
        let Some(process) = self.get(place) else {
            unreachable!()
        };
        let Some(readies) = process.readies.checked_add(1) else {
            return Err(AllocError);
        };
        self.set(
            place,
            Process {
                running: None,
                readies,
                ..process
            },
        );
        Ok(())
    }

    /// A ReadyForQuery of one has come to its client.
    pub fn ready(&mut self, place: BackendNo)
        requires there { (backend : Backend) × (slice_get self.old.rows place ≡ Some backend)
            × (0 < backend.readies) }
        ensures { (backend : Backend) → slice_get self.old.rows place ≡ Some backend
            → self.new.rows ≡ slice_set self.old.rows place
            (record backend { readies = backend.readies - 1 }) }
    {
        let Some(process) = self.get(place) else {
            unreachable!()
        };
        self.set(
            place,
            Process {
                readies: process.readies - 1,
                ..process
            },
        );
    }
}
