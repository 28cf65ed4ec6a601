//! What the connections of a server share.
ghost use Rattle.std.specs.Prelude.{◌≡◌};

use crate::backends::Backends;
use pg_ids::{AnyKey, ServerKey};
use std::alloc::{AllocError, Global};
use std::marker::Model;
use std::sync::{Condvar, Mutex, Wait};

/// What a server does before it ends a cancel connection.
#[derive(Clone, Copy, Debug, PartialEq, Eq)]
pub enum Mode {
    /// Nothing more, as PostgreSQL does.
    Honest,
    /// It writes the byte 4e.
    Byte,
}

/// What the connections of a server share: its mode, how many clients have logged in, and which of
/// them run a query that can be interrupted. Only `log_in`, `hold` and `cancel` lock the mutex, and
/// none of them reads or writes a stream. In contracts it is its mode.
#[derive(Drop)]
pub struct Server {
    alloc: Global,
    mode: Mode,
    backends: Mutex<Backends>,
    interrupted: Condvar,
}

impl Model for Server {
    ghost use Rattle.stub_server.specs.declared.server.Mode.{Mode};

    ghost Value = { Mode };

    ghost view = { λ s. s.mode };
}

impl Server {
    /// A server to which nobody has logged in. It takes no memory; its connections will.
    pub fn new(alloc: Global, mode: Mode) -> Server
        ensures { result ≡ mode }
    {
        Server {
            alloc,
            mode,
            backends: Mutex::new(Backends::new(alloc)),
            interrupted: Condvar::new(),
        }
    }

    /// What its connections take their memory from.
    pub(crate) fn alloc(&self) -> Global {
        self.alloc
    }

    /// What it does before it ends a cancel connection.
    pub fn mode(&self) -> Mode
        ensures { result ≡ self.now }
    {
        self.mode
    }

    /// The key of one more client. There is none if the numbers of clients are used up.
    pub(crate) fn log_in<R: Wait>(&self, rt: &R) -> Option<ServerKey> {
        self.backends.lock(rt).log_in()
    }

    /// Runs the query of this key's client until it is interrupted. Fails if memory runs out.
    pub(crate) fn hold<R: Wait>(&self, rt: &R, key: ServerKey) -> Result<(), AllocError> {
        let mut backends = self.backends.lock(rt);
        backends.begin(key)?;
        let mut backends = self
            .interrupted
            .wait_while(rt, backends, |backends| !backends.is_interrupted(key));
        backends.end(key);
        Ok(())
    }

    /// Interrupts the query of this key's client, if one runs. Long keys are nobody's.
    pub(crate) fn cancel<R: Wait>(&self, rt: &R, key: AnyKey) {
        let AnyKey::Short(key) = key else {
            return;
        };
        self.backends.lock(rt).interrupt(ServerKey(key.to_bytes()));
        self.interrupted.notify_all();
    }
}
