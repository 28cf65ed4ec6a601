//! The errors that a pooler reports to its clients.
ghost use Rattle.std.specs.Prelude.{◌≡◌};

/// A condition of the PostgreSQL manual's appendix "PostgreSQL Error Codes", by its name there.
#[derive(Clone, Copy, Debug, PartialEq, Eq)]
pub enum ErrorCode {
    /// 08P01
    ProtocolViolation,
    /// 0A000
    FeatureNotSupported,
    /// 3D000
    InvalidCatalogName,
    /// 53300
    TooManyConnections,
    /// 53200
    OutOfMemory,
    /// 08006
    ConnectionFailure,
    /// 28000
    InvalidAuthorization,
    /// 57P01
    AdminShutdown,
    /// 57014
    QueryCanceled,
}

/// How grave an error is (PostgreSQL manual, "Error and Notice Message Fields").
#[derive(Clone, Copy, Debug, PartialEq, Eq)]
pub enum Severity {
    /// The request failed, and the session goes on.
    Error,
    /// The session ends.
    Fatal,
}

// What a client reads of a condition: its code, and a text for a person (own).
#[derive(Clone, Copy)]
struct Texts {
    code: &'static str,
    message: &'static str,
}

impl Texts {
    const fn new(code: &'static str, message: &'static str) -> Texts
        ensures code { result.code.now ≡ code.now }
        ensures message { result.message.now ≡ message.now }
    {
        Texts { code, message }
    }
}

impl ErrorCode {
    ghost use Rattle.startup.specs.ErrorCode.{code_text, message_text};
    ghost use Rattle.startup.specs.Replies.{IsFieldText};

    /// The code's five characters.
    pub fn code(self) -> &'static str
        ensures text { result.now ≡ code_text self }
        ensures fits { IsFieldText result.now }
    {
        self.texts().code
    }

    /// The text that a person reads (own).
    pub fn message(self) -> &'static str
        ensures text { result.now ≡ message_text self }
        ensures fits { IsFieldText result.now }
    {
        self.texts().message
    }

    fn texts(self) -> Texts
        ensures code { result.code.now ≡ code_text self }
        ensures message { result.message.now ≡ message_text self }
        ensures code_fits { IsFieldText result.code.now }
        ensures message_fits { IsFieldText result.message.now }
    {
        match self {
            ErrorCode::ProtocolViolation => Texts::new("08P01", "protocol violation"),
            ErrorCode::FeatureNotSupported => Texts::new("0A000", "not in this profile"),
            ErrorCode::InvalidCatalogName => Texts::new("3D000", "no such database"),
            ErrorCode::TooManyConnections => Texts::new("53300", "too many clients"),
            ErrorCode::OutOfMemory => Texts::new("53200", "out of memory"),
            ErrorCode::ConnectionFailure => Texts::new("08006", "server connection lost"),
            ErrorCode::InvalidAuthorization => Texts::new("28000", "no user name"),
            ErrorCode::AdminShutdown => Texts::new("57P01", "node restarted"),
            ErrorCode::QueryCanceled => Texts::new("57014", "query canceled"),
        }
    }
}

impl Severity {
    ghost use Rattle.startup.specs.ErrorCode.{severity_text};

    /// The word in an ErrorResponse.
    pub fn text(self) -> &'static str
        ensures { result.now ≡ severity_text self }
    {
        match self {
            Severity::Error => "ERROR",
            Severity::Fatal => "FATAL",
        }
    }
}
