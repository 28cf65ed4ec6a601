//! The clients that have logged in, and those whose query runs.
ghost use Rattle.std.specs.Prelude.{◌≡◌, ◌↔◌, ◌+◌, ◌^◌, ◌≤◌, Some, None, IsTrue, IsSome, IsNone, IfSome, IfNone, OnSome, OnOk, OnErr, bytes_eq};
ghost use Rattle.std.specs.HashMap.{get, IsEmpty, Updates, IsUnchanged};
ghost use Rattle.stub_server.specs.Login.{server_key};

use crate::login::key_of;
use pg_ids::ServerKey;
use std::alloc::{AllocError, Global};
use std::collections::HashMap;

/// Whether a query that runs was interrupted.
#[derive(Clone, Copy, Debug, PartialEq, Eq)]
pub(crate) enum Hold {
    /// It runs.
    Running,
    /// It is to end.
    Interrupted,
}

/// How many clients have logged in, and the queries that run, by the keys of their clients.
#[derive(Drop)]
pub(crate) struct Backends {
    logged_in: u32,
    holds: HashMap<ServerKey, Hold>,
}

impl Backends {
    ghost use Rattle.stub_server.specs.declared.backends.Hold.TheVariants.{Running, Interrupted};

    /// Nobody has logged in, and no query runs. It takes no memory.
    pub(crate) fn new(alloc: Global) -> Backends
        ensures logged_in { result.logged_in ≡ 0 }
        ensures holds { IsEmpty result.holds }
    {
        Backends {
            logged_in: 0,
            holds: HashMap::new(alloc),
        }
    }

    /// One more client logs in, and gets its key. There is none if the numbers are used up.
    pub(crate) fn log_in(&mut self) -> Option<ServerKey>
        ensures key { IfSome result (λ key. key ≡ server_key self.new.logged_in) }
        ensures counted { OnSome result (self.new.logged_in ≡ self.old.logged_in + 1) }
        ensures none { IsNone result ↔ (2 ^ 32 ≤ self.old.logged_in + 1000001) }
        ensures err { IfNone result (self.new.logged_in ≡ self.old.logged_in) }
        ensures holds { self.new.holds ≡ self.old.holds }
    {
        let number = self.logged_in.checked_add(1)?;
        let key = key_of(number)?;
        self.logged_in = number;
        Some(key)
    }

    /// The query of this key's client runs.
    pub(crate) fn begin(&mut self, key: ServerKey) -> Result<(), AllocError>
        ensures ok { OnOk result
            (Updates bytes_eq self.old.holds self.new.holds key (Some Running)) }
        ensures err { OnErr result (IsUnchanged self.old.holds self.new.holds) }
        ensures logged_in { self.new.logged_in ≡ self.old.logged_in }
    {
        self.holds.insert(key, Hold::Running)?;
        Ok(())
    }

    /// Whether that query was interrupted.
    pub(crate) fn is_interrupted(&self, key: ServerKey) -> bool
        ensures { IsTrue result ↔ (get bytes_eq self.now.holds key ≡ Some Interrupted) }
    {
        self.holds.get(&key) == Some(&Hold::Interrupted)
    }

    /// That query has ended.
    pub(crate) fn end(&mut self, key: ServerKey)
        ensures holds { Updates bytes_eq self.old.holds self.new.holds key None }
        ensures logged_in { self.new.logged_in ≡ self.old.logged_in }
    {
        self.holds.remove(&key);
    }

    /// Marks the query of this key's client as interrupted, if one runs.
    pub(crate) fn interrupt(&mut self, key: ServerKey)
        ensures running { IsSome (get bytes_eq self.old.holds key)
            → Updates bytes_eq self.old.holds self.new.holds key (Some Interrupted) }
        ensures none { IsNone (get bytes_eq self.old.holds key)
            → IsUnchanged self.old.holds self.new.holds }
        ensures logged_in { self.new.logged_in ≡ self.old.logged_in }
    {
        if let Some(hold) = self.holds.get_mut(&key) {
            *hold = Hold::Interrupted;
        }
    }
}
