//! The nodes of a script.
ghost use Rattle.std.specs.Prelude.{◌≡◌, ◌<◌, ◌≤◌, ◌^◌};
ghost use Rattle.world_script.specs.Script.{node_line};

use crate::word::{node_number, number_from};
use pg_ids::PeerNo;
use std::marker::Model;

const MAX_POOL: u32 = 65535;

const MAX_CLIENTS: u32 = 65536;

/// A node of a script.
#[derive(Debug, Drop)]
pub(crate) struct NodeLine {
    number: PeerNo,
    pool: u16,
    clients: u32,
}

impl Model for NodeLine {
    ghost use Rattle.std.specs.Prelude.{◌<◌, ◌≤◌, ◌^◌};
    ghost use Rattle.world_script.specs.Peers.{NodeLine as Line};

    ghost Value = { Line };

    ghost view = { λ n. record { number = n.number; pool = n.pool; clients = n.clients } };

    ghost invariant = { λ n. (0 < n.pool) × (0 < n.clients) × (n.clients ≤ 2 ^ 16) };
}

impl NodeLine {
    /// The node with these words behind `node`.
    #[tactic(auto, unfolding(crate::specs::Script::node_line))]
    pub(crate) fn read(first: &str, second: &str, third: &str) -> Option<NodeLine>
        ensures { result ≡ node_line first.now second.now third.now }
    {
        let number = node_number(first)?;
        let pool = number_from(1, MAX_POOL, second)?;
        let clients = number_from(1, MAX_CLIENTS, third)?;
        Some(NodeLine {
            number,
            pool: pool as u16,
            clients,
        })
    }

    /// The node's number.
    pub(crate) fn number(&self) -> PeerNo
        ensures { result ≡ self.now.number }
    {
        self.number
    }

    /// The size of its pool, 1 to 65535.
    pub(crate) fn pool(&self) -> u16
        ensures value { result ≡ self.now.pool }
        ensures some { 0 < result }
    {
        self.pool
    }

    /// How many clients it may have, 1 to 65536.
    pub(crate) fn clients(&self) -> u32
        ensures value { result ≡ self.now.clients }
        ensures some { 0 < result }
        ensures limit { result ≤ 2 ^ 16 }
    {
        self.clients
    }
}
