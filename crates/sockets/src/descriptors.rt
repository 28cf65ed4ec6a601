//! The number of connections that the process's descriptors allow.
ghost use Rattle.std.specs.Prelude.{◌≡◌, ◌+◌, ◌-◌, ◌*◌, ◌/◌, ◌≤◌, min};

use crate::accept_threads::MAX_WAITING;
use crate::connections::Capacity;
use crate::limits::{CANCELS_PER_NODE, KEPT_PER_NODE, PENDING_PER_NODE, SPARE_CONNECTIONS};
use ini_config::Group;
use libc::types::rlimit;
use pg_ids::DatabaseNo;

// The resource number of the limit of open descriptors.
const RLIMIT_NOFILE: i32 = 7;

// Descriptors of a listener: its own, and one for each thread that waits for a connection, which
// Linux reserves before there is one.
const LISTENER: usize = 1 + MAX_WAITING as usize;

// Descriptors of the process itself: those of the group's listener, the standard streams, those of
// name look-ups, and some to spare.
const OWN: usize = 15 + LISTENER;

/// What a group needs descriptors for beside connections.
#[derive(Clone, Copy, Debug, PartialEq, Eq)]
pub struct Needs {
    /// The number of nodes.
    pub nodes: usize,
    /// The number of links that they may have together.
    pub links: usize,
    /// The number of clients that may be logged in at them together.
    pub clients: usize,
}

impl Needs {
    /// Returns the needs of a group.
    pub fn of(group: &Group) -> Needs {
        let mut links: usize = 0;
        let mut clients: usize = 0;
        for settings in group.nodes() {
            clients = clients.saturating_add(settings.max_client_conn() as usize);
            for place in 0..settings.database_count() {
                if let Some(entry) = settings.database(DatabaseNo(place as u8)) {
                    links = links.saturating_add(entry.pool_size as usize);
                }
            }
        }
        Needs {
            nodes: group.len(),
            links,
            clients,
        }
    }

    /// Returns with how many descriptors as many clients as the settings allow can be logged in.
    pub fn descriptors(self) -> usize {
        let used = self.clients.saturating_add(self.links);
        // Cancel requests have at most so many, and at most an eighth and a sixteenth of those that
        // the process leaves.
        let all = self
            .nodes
            .saturating_mul(CANCELS_PER_NODE.saturating_add(KEPT_PER_NODE));
        let share = (used / 13).saturating_add(1).saturating_mul(3);
        self.own()
            .saturating_add(used)
            .saturating_add(all.min(share))
    }

    // Returns how many descriptors the process itself needs.
    fn own(self) -> usize
        ensures { result ≡ min (32 + 9 * self.nodes) 18446744073709551615 }
    {
        self.nodes
            .saturating_mul(LISTENER)
            .saturating_add(OWN)
            .saturating_add(SPARE_CONNECTIONS)
    }

    /// Returns how many connections a process with this many descriptors may have. Links get as
    /// many as the pools may have, but at most half of them, and connections for cancel requests at
    /// most an eighth. Of the connections of clients 128 for each node are kept, but at most a
    /// sixteenth.
    pub fn capacity(self, descriptors: usize) -> Capacity
        // The process, the links and the cancel requests keep theirs.
        ensures kept { result.connections + min self.links ((descriptors - (32 + 9 * self.nodes)) / 2)
            + min (256 * self.nodes) ((descriptors - (32 + 9 * self.nodes)) / 8)
            ≡ descriptors - (32 + 9 * self.nodes) }
        // 320 of each node may be pending.
        ensures pending { result.pending ≡ min (320 * self.nodes) 18446744073709551615 }
        // 128 of each node are kept, but at most a sixteenth.
        ensures kept_connections { result.kept
            ≡ min (128 * self.nodes) ((descriptors - (32 + 9 * self.nodes)) / 16) }
    {
        let left = descriptors.saturating_sub(self.own());
        let links = self.links.min(left / 2);
        let cancels = self.nodes.saturating_mul(CANCELS_PER_NODE).min(left / 8);
        Capacity {
            connections: left.saturating_sub(links).saturating_sub(cancels),
            pending: self.nodes.saturating_mul(PENDING_PER_NODE),
            kept: self.nodes.saturating_mul(KEPT_PER_NODE).min(left / 16),
        }
    }
}

/// Returns the limit of the process's open descriptors.
pub fn descriptor_limit() -> usize {
    let mut limit = rlimit {
        rlim_cur: 0,
        rlim_max: 0,
    };
    if libc::getrlimit(RLIMIT_NOFILE, &mut limit) < 0 {
        return 1_024;
    }
    limit.rlim_cur as usize
}
