//! Histograms of times.
use super::Page;
use crate::metrics::state::{NodeState, PoolState};
use std::alloc::{AllocError, Global};
use telemetry::{BOUNDS_MICROS, MetricKind, Times, put_head, put_line};

// The names of a histogram, and its help.
#[derive(Clone, Copy)]
struct Names {
    name: &'static str,
    bucket: &'static str,
    sum: &'static str,
    count: &'static str,
    help: &'static str,
}

// Waits of clients.
const WAITS: Names = Names {
    name: "pgpeer_wait_seconds",
    bucket: "pgpeer_wait_seconds_bucket",
    sum: "pgpeer_wait_seconds_sum",
    count: "pgpeer_wait_seconds_count",
    help: "How long clients waited for a server connection, where none was free at once.",
};

const TURNS: Names = Names {
    name: "pgpeer_transaction_seconds",
    bucket: "pgpeer_transaction_seconds_bucket",
    sum: "pgpeer_transaction_seconds_sum",
    count: "pgpeer_transaction_seconds_count",
    help: "How long clients had a server connection, each time.",
};

const OPENS: Names = Names {
    name: "pgpeer_link_open_seconds",
    bucket: "pgpeer_link_open_seconds_bucket",
    sum: "pgpeer_link_open_seconds_sum",
    count: "pgpeer_link_open_seconds_count",
    help: "How long it took to connect to a server and log in there.",
};

// A histogram that each database has, beside that of waits.
#[derive(Clone, Copy)]
pub(super) enum TimeMetric {
    Turns,
    Opens,
}

pub(super) const TIME_METRICS: [TimeMetric; 2] = [TimeMetric::Turns, TimeMetric::Opens];

impl TimeMetric {
    fn names(self) -> Names {
        match self {
            TimeMetric::Turns => TURNS,
            TimeMetric::Opens => OPENS,
        }
    }

    fn times(self, pool: &PoolState) -> Times {
        match self {
            TimeMetric::Turns => pool.passed.turns,
            TimeMetric::Opens => pool.passed.opens,
        }
    }
}

impl Page {
    // Appends how long clients waited.
    pub(super) fn put_waits(&mut self, nodes: &[NodeState]) -> Result<(), AllocError> {
        put_head(
            &mut self.text,
            WAITS.name,
            MetricKind::Histogram,
            WAITS.help,
        )?;
        for node in nodes {
            self.put_histogram(WAITS, &node.labels, &node.strangers)?;
            for pool in &node.pools {
                self.put_histogram(WAITS, &pool.labels, &pool.passed.waits)?;
            }
        }
        Ok(())
    }

    // Appends a histogram of each database.
    pub(super) fn put_times(
        &mut self,
        metric: TimeMetric,
        nodes: &[NodeState],
    ) -> Result<(), AllocError> {
        let names = metric.names();
        put_head(
            &mut self.text,
            names.name,
            MetricKind::Histogram,
            names.help,
        )?;
        for node in nodes {
            for pool in &node.pools {
                self.put_histogram(names, &pool.labels, &metric.times(pool))?;
            }
        }
        Ok(())
    }

    // Appends times: their number up to each bound, their sum, and their number.
    fn put_histogram(
        &mut self,
        names: Names,
        labels: &[u8],
        times: &Times,
    ) -> Result<(), AllocError> {
        let mut total: u64 = 0;
        for (place, count) in times.buckets.iter().enumerate() {
            total = total.wrapping_add(*count);
            self.put_bucket(names.bucket, labels, BOUNDS_MICROS.get(place), total)?;
        }
        let sum = seconds_text(self.alloc, times.micros)?;
        put_line(&mut self.text, names.sum, labels, sum.as_str())?;
        self.put(names.count, labels, total)
    }

    // Appends the number of times up to this bound, or of all.
    fn put_bucket(
        &mut self,
        name: &str,
        labels: &[u8],
        bound: Option<&u64>,
        total: u64,
    ) -> Result<(), AllocError> {
        match bound {
            Some(micros) => {
                let text = seconds_text(self.alloc, *micros)?;
                let bound = text.as_str().trim_end_matches('0').trim_end_matches('.');
                self.put_with(name, labels, "le", bound, total)
            }
            None => self.put_with(name, labels, "le", "+Inf", total),
        }
    }
}

// A second, in microseconds.
const MICROS: u64 = 1_000_000;

// Returns a time in seconds, with six digits after the point.
pub(super) fn seconds_text(alloc: Global, micros: u64) -> Result<String, AllocError> {
    let seconds = micros / MICROS;
    let rest = micros % MICROS;
    format!(in alloc; "{seconds}.{rest:06}")
}
