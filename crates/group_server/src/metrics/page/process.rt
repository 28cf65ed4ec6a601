//! What the process uses, by the names that Prometheus' client libraries have for it.
use super::Page;
use super::times::seconds_text;
use crate::metrics::state::ProcessState;
use std::alloc::AllocError;
use telemetry::{MetricKind, put_head, put_line};

impl Page {
    // Appends what the process uses.
    pub(super) fn put_process(&mut self, process: &ProcessState) -> Result<(), AllocError> {
        if let Some(micros) = process.started {
            let help = "Start time of the process since 1970 in seconds.";
            let name = "process_start_time_seconds";
            self.put_seconds(name, MetricKind::Gauge, help, micros)?;
        }
        if let Some(micros) = process.processor {
            let help = "Total user and system CPU time spent in seconds.";
            let name = "process_cpu_seconds_total";
            self.put_seconds(name, MetricKind::Counter, help, micros)?;
        }
        let name = "process_max_fds";
        let help = "Maximum number of open file descriptors.";
        put_head(&mut self.text, name, MetricKind::Gauge, help)?;
        self.put(name, &[], process.descriptors)
    }

    // Appends a metric without labels that is a time.
    fn put_seconds(
        &mut self,
        name: &str,
        kind: MetricKind,
        help: &str,
        micros: u64,
    ) -> Result<(), AllocError> {
        put_head(&mut self.text, name, kind, help)?;
        let seconds = seconds_text(self.alloc, micros)?;
        put_line(&mut self.text, name, &[], seconds.as_str())
    }
}
