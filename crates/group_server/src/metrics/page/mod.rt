//! The metrics of a group, in Prometheus' text format.
mod process;
mod sessions;
mod tables;
mod times;

use crate::metrics::state::{NodeState, PoolState, ProcessState};
use std::alloc::{AllocError, Global};
use tables::{NODE_METRICS, NodeMetric, POOL_METRICS, PoolMetric};
use telemetry::{EVENTS, KINDS, MetricKind, labels_with, put_head, put_sample};
use times::TIME_METRICS;

/// Returns the metrics of a process and of its group's nodes, and the number of the log's events, which
/// are in the order of their kinds.
pub fn page_of(
    alloc: Global,
    version: &str,
    process: &ProcessState,
    nodes: &[NodeState],
    events: &[u64; EVENTS],
) -> Result<Vec<u8>, AllocError> {
    let mut page = Page {
        alloc,
        text: Vec::new(alloc),
    };
    page.put_build(version)?;
    page.put_process(process)?;
    for metric in NODE_METRICS {
        page.put_nodes(metric, nodes)?;
    }
    page.put_refusals(nodes)?;
    page.put_forwards(nodes)?;
    for metric in POOL_METRICS {
        page.put_pools(metric, nodes)?;
    }
    page.put_clients(nodes)?;
    page.put_links(nodes)?;
    page.put_ends(nodes)?;
    page.put_oldest_waits(nodes)?;
    page.put_waits(nodes)?;
    for metric in TIME_METRICS {
        page.put_times(metric, nodes)?;
    }
    page.put_events(events)?;
    Ok(page.text)
}

// A page that is being written.
#[derive(Drop)]
struct Page {
    alloc: Global,
    text: Vec<u8>,
}

// Why cancel requests are refused, in the order of their counts.
const REFUSALS: [&str; 4] = ["spent", "unknown", "no_peer", "no_link"];

// The metric of clients, by state.
const CLIENTS: &str = "pgpeer_clients";

const CLIENT_STATES: [&str; 4] = ["none", "waiting", "opening", "link"];

fn clients_in(pool: &PoolState) -> [u64; 4] {
    let clients = &pool.census.clients;
    [clients.none, clients.waiting, clients.opening, clients.link]
}

// The metric of links, by place.
const LINKS: &str = "pgpeer_links";

const LINK_PLACES: [&str; 4] = ["opening", "idle", "held", "quarantined"];

fn links_at(pool: &PoolState) -> [u64; 4] {
    let links = &pool.census.links;
    [links.opening, links.idle, links.held, links.quarantined]
}

impl Page {
    // Appends the metric that has the program's version.
    fn put_build(&mut self, version: &str) -> Result<(), AllocError> {
        let name = "pgpeer_build_info";
        put_head(
            &mut self.text,
            name,
            MetricKind::Gauge,
            "The program that runs.",
        )?;
        let labels = labels_with(self.alloc, &[], "version", version)?;
        self.put(name, &labels, 1)
    }

    // Appends a value.
    fn put(&mut self, name: &str, labels: &[u8], value: u64) -> Result<(), AllocError> {
        put_sample(self.alloc, &mut self.text, name, labels, value)
    }

    // Appends a value with another label.
    fn put_with(
        &mut self,
        name: &str,
        labels: &[u8],
        label: &str,
        of: &str,
        value: u64,
    ) -> Result<(), AllocError> {
        let labels = labels_with(self.alloc, labels, label, of)?;
        self.put(name, &labels, value)
    }

    // Appends a metric of each node.
    fn put_nodes(&mut self, metric: NodeMetric, nodes: &[NodeState]) -> Result<(), AllocError> {
        put_head(&mut self.text, metric.name(), metric.kind(), metric.help())?;
        for node in nodes {
            self.put(metric.name(), &node.labels, metric.value(node))?;
        }
        Ok(())
    }

    // Appends the refusals of cancel requests.
    fn put_refusals(&mut self, nodes: &[NodeState]) -> Result<(), AllocError> {
        let name = "pgpeer_cancels_refused_total";
        let help = "Cancel requests that were refused, by reason.";
        put_head(&mut self.text, name, MetricKind::Counter, help)?;
        for node in nodes {
            for (reason, count) in REFUSALS.iter().zip(&node.cancels) {
                self.put_with(name, &node.labels, "reason", reason, *count)?;
            }
        }
        Ok(())
    }

    // Appends a metric of each database.
    fn put_pools(&mut self, metric: PoolMetric, nodes: &[NodeState]) -> Result<(), AllocError> {
        put_head(&mut self.text, metric.name(), metric.kind(), metric.help())?;
        for node in nodes {
            for pool in &node.pools {
                self.put(metric.name(), &pool.labels, metric.value(pool))?;
            }
        }
        Ok(())
    }

    // Appends the number of clients by state.
    fn put_clients(&mut self, nodes: &[NodeState]) -> Result<(), AllocError> {
        let help = "Clients that are logged in, by state.";
        put_head(&mut self.text, CLIENTS, MetricKind::Gauge, help)?;
        for node in nodes {
            for pool in &node.pools {
                let counts = clients_in(pool);
                self.put_each(CLIENTS, &pool.labels, "state", &CLIENT_STATES, &counts)?;
            }
        }
        Ok(())
    }

    // Appends the number of links by place.
    fn put_links(&mut self, nodes: &[NodeState]) -> Result<(), AllocError> {
        let help = "Server connections, by place.";
        put_head(&mut self.text, LINKS, MetricKind::Gauge, help)?;
        for node in nodes {
            for pool in &node.pools {
                let counts = links_at(pool);
                self.put_each(LINKS, &pool.labels, "place", &LINK_PLACES, &counts)?;
            }
        }
        Ok(())
    }

    // Appends these values, each with another label, whose value is at the same place of `of`.
    fn put_each(
        &mut self,
        name: &str,
        labels: &[u8],
        label: &str,
        of: &[&str; 4],
        values: &[u64; 4],
    ) -> Result<(), AllocError> {
        for (of, value) in of.iter().zip(values) {
            self.put_with(name, labels, label, of, *value)?;
        }
        Ok(())
    }

    // Appends the number of events of each kind.
    fn put_events(&mut self, events: &[u64; EVENTS]) -> Result<(), AllocError> {
        let name = "pgpeer_log_events_total";
        put_head(
            &mut self.text,
            name,
            MetricKind::Counter,
            "Events of the log, by kind.",
        )?;
        for event in KINDS {
            let labels = labels_with(self.alloc, &[], "level", event.level().name())?;
            let count = events[event.place()];
            self.put_with(name, &labels, "event", event.name(), count)?;
        }
        Ok(())
    }
}
