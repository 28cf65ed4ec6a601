//! The numbers by which a world's events name nodes, clients and things.
ghost use Rattle.std.specs.Prelude.{ℕ, ◌≡◌, ◌≤◌, ◌^◌, IfSome, IfNone};
ghost use Rattle.std.proofs.Common.{rules};

use crate::index::Key;
use pg_ids::PeerNo;
use std::marker::Model;

/// A client, by a number of its own that no other session of the world has.
#[derive(Clone, Copy, Debug, PartialEq, Eq, PartialOrd, Ord, Hash)]
pub struct Label(pub u32);

impl Key for Label {
    ghost exact = { Prim.search rules };
}

impl Model for Label {
    ghost Value = { ℕ };

    ghost view = { λ n. n.0 };

    ghost inverse = { λ n. record { 0 = n } };
}

/// A node, by its number; there may be none with it.
#[derive(Clone, Copy, Debug, PartialEq, Eq, PartialOrd, Ord, Hash)]
pub struct NodeNo(pub u32);

impl Model for NodeNo {
    ghost Value = { ℕ };

    ghost view = { λ n. n.0 };

    ghost inverse = { λ n. record { 0 = n } };
}

impl NodeNo {
    /// The number as a node's own, which is at most 16383.
    pub(crate) fn peer(self) -> Option<PeerNo>
        ensures value { IfSome result (λ peer. peer ≡ self) }
        ensures none { IfNone result (2 ^ 14 ≤ self) }
    {
        if self.0 >= 1 << 14 {
            return None;
        }
        PeerNo::new(self.0 as u16)
    }
}

/// A server process, numbered from 0 in the order of their making.
#[derive(Clone, Copy, Debug, PartialEq, Eq, PartialOrd, Ord, Hash)]
pub struct BackendNo(pub u64);

impl Model for BackendNo {
    ghost Value = { ℕ };

    ghost view = { λ n. n.0 };

    ghost inverse = { λ n. record { 0 = n } };
}

/// Bytes that were put in flight or forwarded, numbered from 0.
#[derive(Clone, Copy, Debug, PartialEq, Eq, PartialOrd, Ord, Hash)]
pub struct FlightNo(pub u64);

impl Key for FlightNo {
    ghost exact = { Prim.search rules };
}

impl Model for FlightNo {
    ghost Value = { ℕ };

    ghost view = { λ n. n.0 };

    ghost inverse = { λ n. record { 0 = n } };
}

/// A CancelRequest that was delivered at a node, numbered from 0.
#[derive(Clone, Copy, Debug, PartialEq, Eq, PartialOrd, Ord, Hash)]
pub struct ArrivalNo(pub u64);

impl Key for ArrivalNo {
    ghost exact = { Prim.search rules };
}

impl Model for ArrivalNo {
    ghost Value = { ℕ };

    ghost view = { λ n. n.0 };

    ghost inverse = { λ n. record { 0 = n } };
}

/// A cancel connection to a server, numbered from 0.
#[derive(Clone, Copy, Debug, PartialEq, Eq, PartialOrd, Ord, Hash)]
pub struct ConnectionNo(pub u64);

impl Model for ConnectionNo {
    ghost Value = { ℕ };

    ghost view = { λ n. n.0 };

    ghost inverse = { λ n. record { 0 = n } };
}

/// A server, by the place of the first database of the group that has its host and port.
#[derive(Clone, Copy, Debug, PartialEq, Eq, PartialOrd, Ord, Hash)]
pub struct ServerNo(pub u128);

impl Model for ServerNo {
    ghost Value = { ℕ };

    ghost view = { λ n. n.0 };

    ghost inverse = { λ n. record { 0 = n } };
}
