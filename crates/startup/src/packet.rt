//! A CancelRequest as bytes.
ghost use Rattle.std.specs.Prelude.{◌≡◌};
ghost use Rattle.startup.specs.CancelPacket.{packet_bytes};

/// A CancelRequest, whole.
#[derive(Clone, Copy, Debug, PartialEq, Eq, Hash)]
pub enum Packet {
    /// That of a short key.
    Short([u8; 16]),
    /// That of a long key.
    Long([u8; 32]),
}

impl Packet {
    /// The bytes, 16 or 32.
    pub fn as_slice(&self) -> &[u8]
        ensures { result.now ≡ packet_bytes self.now }
    {
        match self {
            Packet::Short(bytes) => bytes.as_slice(),
            Packet::Long(bytes) => bytes.as_slice(),
        }
    }
}
