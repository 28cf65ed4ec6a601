//! What `stub` is asked for.
ghost use Rattle.std.specs.Prelude.{◌<◌};

/// A stand-in server.
#[derive(Clone, Copy, Debug, PartialEq, Eq)]
pub struct StubRequest {
    /// The port at which the server listens.
    pub port: u16,
    /// What it does before it ends a cancel connection.
    pub mode: StubMode,
    ghost listens: { 0 < port },
}

/// What a stand-in server does before it ends a cancel connection.
#[derive(Clone, Copy, Debug, PartialEq, Eq)]
pub enum StubMode {
    /// Nothing more, as PostgreSQL does.
    Honest,
    /// It writes one byte.
    Byte,
}
