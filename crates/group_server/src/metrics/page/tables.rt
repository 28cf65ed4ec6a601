//! The metrics that are one number of a node, or of a database.
use crate::metrics::state::{NodeState, PoolState};
use telemetry::MetricKind;

// A metric that each node has.
#[derive(Clone, Copy)]
pub(super) enum NodeMetric {
    MostClients,
    Forwarded,
    Sent,
    Ended,
    Failed,
}

pub(super) const NODE_METRICS: [NodeMetric; 5] = [
    NodeMetric::MostClients,
    NodeMetric::Forwarded,
    NodeMetric::Sent,
    NodeMetric::Ended,
    NodeMetric::Failed,
];

impl NodeMetric {
    pub(super) fn name(self) -> &'static str {
        match self {
            NodeMetric::MostClients => "pgpeer_clients_max",
            NodeMetric::Forwarded => "pgpeer_cancels_forwarded_total",
            NodeMetric::Sent => "pgpeer_cancels_sent_total",
            NodeMetric::Ended => "pgpeer_cancels_ended_total",
            NodeMetric::Failed => "pgpeer_cancels_failed_total",
        }
    }

    pub(super) fn kind(self) -> MetricKind {
        match self {
            NodeMetric::MostClients => MetricKind::Gauge,
            _ => MetricKind::Counter,
        }
    }

    pub(super) fn help(self) -> &'static str {
        match self {
            NodeMetric::MostClients => "Clients that may be logged in.",
            NodeMetric::Forwarded => "Cancel requests that were forwarded to a peer.",
            NodeMetric::Sent => "Cancel requests that were sent to a server.",
            NodeMetric::Ended => "Cancel requests whose server connection ended cleanly.",
            NodeMetric::Failed => "Cancel requests whose server connection failed.",
        }
    }

    pub(super) fn value(self, node: &NodeState) -> u64 {
        match self {
            NodeMetric::MostClients => node.most_clients,
            NodeMetric::Forwarded => node.cancels[4],
            NodeMetric::Sent => node.cancels[5],
            NodeMetric::Ended => node.cancels[6],
            NodeMetric::Failed => node.cancels[7],
        }
    }
}

// A metric that each database of a node has.
#[derive(Clone, Copy)]
pub(super) enum PoolMetric {
    MostLinks,
    Condemned,
    Logins,
    Transactions,
    Received,
    Sent,
}

pub(super) const POOL_METRICS: [PoolMetric; 6] = [
    PoolMetric::MostLinks,
    PoolMetric::Condemned,
    PoolMetric::Logins,
    PoolMetric::Transactions,
    PoolMetric::Received,
    PoolMetric::Sent,
];

impl PoolMetric {
    pub(super) fn name(self) -> &'static str {
        match self {
            PoolMetric::MostLinks => "pgpeer_links_max",
            PoolMetric::Condemned => "pgpeer_links_condemned",
            PoolMetric::Logins => "pgpeer_logins_total",
            PoolMetric::Transactions => "pgpeer_transactions_total",
            PoolMetric::Received => "pgpeer_received_bytes_total",
            PoolMetric::Sent => "pgpeer_sent_bytes_total",
        }
    }

    pub(super) fn kind(self) -> MetricKind {
        match self {
            PoolMetric::MostLinks | PoolMetric::Condemned => MetricKind::Gauge,
            _ => MetricKind::Counter,
        }
    }

    pub(super) fn help(self) -> &'static str {
        match self {
            PoolMetric::MostLinks => "Server connections that there may be.",
            PoolMetric::Condemned => "Server connections that a failed cancel request closes.",
            PoolMetric::Logins => "Logins of clients.",
            PoolMetric::Transactions => "Transactions that ended on a server connection.",
            PoolMetric::Received => "Bytes that came from clients.",
            PoolMetric::Sent => "Bytes that were sent to clients.",
        }
    }

    pub(super) fn value(self, pool: &PoolState) -> u64 {
        match self {
            PoolMetric::MostLinks => pool.most_links,
            PoolMetric::Condemned => pool.census.links.condemned,
            PoolMetric::Logins => pool.passed.logins,
            PoolMetric::Transactions => pool.passed.transactions,
            PoolMetric::Received => pool.passed.received,
            PoolMetric::Sent => pool.passed.sent,
        }
    }
}
