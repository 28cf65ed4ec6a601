//! How a session's transaction stands.
ghost use Rattle.std.specs.Prelude.{◌≡◌};

/// How a session's transaction stands (PostgreSQL manual, ReadyForQuery).
#[derive(Clone, Copy, Debug, PartialEq, Eq)]
pub enum Transaction {
    /// None is open.
    Idle,
    /// One is open.
    Open,
    /// One is open, and an error failed it.
    Failed,
}

impl Transaction {
    ghost use Rattle.stub_server.specs.Answers as answer;

    /// What ReadyForQuery says of it.
    pub const fn status(self) -> u8
        ensures { result ≡ answer.status_of self }
    {
        match self {
            Transaction::Idle => b'I',
            Transaction::Open => b'T',
            Transaction::Failed => b'E',
        }
    }

    /// How it stands after an error.
    pub const fn after_error(self) -> Transaction
        ensures { result ≡ answer.after_error self }
    {
        match self {
            Transaction::Idle => Transaction::Idle,
            Transaction::Open | Transaction::Failed => Transaction::Failed,
        }
    }
}
