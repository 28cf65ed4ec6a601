//! How sessions have ended, how long clients wait by now, and what became of forwarded cancel requests.
use super::Page;
use super::times::seconds_text;
use crate::metrics::state::{NodeState, PoolState};
use std::alloc::AllocError;
use telemetry::{END_KINDS, MetricKind, labels_with, put_head, put_line};

// The metric of sessions' ends.
const ENDED: &str = "pgpeer_sessions_ended_total";

impl Page {
    // Appends how many sessions of each database have ended, by their kind.
    pub(super) fn put_ends(&mut self, nodes: &[NodeState]) -> Result<(), AllocError> {
        let help = "Sessions that have ended, by the code of the error and what was refused.";
        put_head(&mut self.text, ENDED, MetricKind::Counter, help)?;
        for node in nodes {
            for pool in &node.pools {
                self.put_ends_of(pool)?;
            }
        }
        Ok(())
    }

    fn put_ends_of(&mut self, pool: &PoolState) -> Result<(), AllocError> {
        for ((code, refused), count) in END_KINDS.iter().zip(&pool.passed.ends) {
            let labels = labels_with(self.alloc, &pool.labels, "code", code)?;
            self.put_with(ENDED, &labels, "refused", refused, *count)?;
        }
        Ok(())
    }

    // Appends how long the client of each database has waited that waits longest.
    pub(super) fn put_oldest_waits(&mut self, nodes: &[NodeState]) -> Result<(), AllocError> {
        let name = "pgpeer_oldest_wait_seconds";
        let help = "How long the client waits for a server connection that waits longest, or 0.";
        put_head(&mut self.text, name, MetricKind::Gauge, help)?;
        for node in nodes {
            for pool in &node.pools {
                let wait = seconds_text(self.alloc, pool.oldest_wait)?;
                put_line(&mut self.text, name, &pool.labels, wait.as_str())?;
            }
        }
        Ok(())
    }

    // Appends how many cancel requests have failed that were forwarded, by peer.
    pub(super) fn put_forwards(&mut self, nodes: &[NodeState]) -> Result<(), AllocError> {
        let name = "pgpeer_forwards_failed_total";
        let help = "Cancel requests that were forwarded to a peer, and whose connection failed.";
        put_head(&mut self.text, name, MetricKind::Counter, help)?;
        for node in nodes {
            for (peer, count) in &node.forwards {
                let peer = peer.to_string(self.alloc)?;
                self.put_with(name, &node.labels, "peer", peer.as_str(), *count)?;
            }
        }
        Ok(())
    }
}
