//! What `decide` is asked for.
ghost use Rattle.std.specs.Prelude.{◌≢◌, ◌<◌, ◌≤◌, All, AllPairs, length};

use crate::live_client::LiveClient;
use pg_ids::PeerNo;

/// A node, and the first packet of a connection to it.
#[derive(Drop)]
pub struct DecideRequest {
    /// The node's number.
    pub me: PeerNo,
    /// The numbers of its peers, none twice.
    pub peers: Vec<PeerNo>,
    /// Its clients, in the order in which they log in.
    pub clients: Vec<LiveClient>,
    /// The packet's bytes.
    pub packet: Vec<u8>,
    ghost few_peers: { length peers.items ≤ 64 },
    ghost numbered: { All (λ number. 0 < number) peers.items },
    ghost distinct: { AllPairs (λ a b. a ≢ b) peers.items },
    ghost few_clients: { length clients.items ≤ 65535 },
}
