//! The flag of a client's gs2-header.
ghost use Rattle.std.specs.Prelude.{◌≡◌};

/// What a client that binds no channel says of binding one.
#[derive(Clone, Copy, Debug, PartialEq, Eq)]
pub enum Gs2Flag {
    /// `n`: it can't.
    Unsupported,
    /// `y`: it could, and has heard of no server here that can.
    Unadvertised,
}

impl Gs2Flag {
    ghost use Rattle.scram.specs.Flag.{gs2_header};

    /// The header: the flag and an empty identity, three bytes.
    pub const fn header(self) -> [u8; 3]
        ensures { result ≡ gs2_header self }
    {
        match self {
            Gs2Flag::Unsupported => [110, 44, 44],
            Gs2Flag::Unadvertised => [121, 44, 44],
        }
    }
}
