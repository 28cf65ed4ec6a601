//! Makes the pages that are read at the metrics port.
use crate::Serving;
use crate::metrics::page::page_of;
use crate::metrics::state::{NodeState, ProcessState};
use crate::rows::{clients_of, links_of, put_clients, put_links};
use ini_config::{Group, Settings};
use sockets::Machine;
use std::alloc::{AllocError, Global};
use std::sync::Arc;
use std::time::Duration;
use telemetry::{Counters, Form, Log, NodeCounters, Resource};

/// What the pages are made from, beside the nodes.
#[derive(Drop)]
pub struct Sources {
    /// The settings of the group.
    pub group: Arc<Group, Global>,
    /// The counters.
    pub counters: Arc<Counters, Global>,
    /// The log.
    pub log: Arc<Log, Global>,
    /// When the process started, since 1970, if that is known.
    pub started: Option<Duration>,
}

/// Makes pages.
#[derive(Drop)]
pub struct Maker<M: Machine> {
    version: String,
    nodes: Vec<Arc<Serving<M>, Global>>,
    sources: Sources,
}

impl<M: Machine> Maker<M> {
    /// Returns the maker of the pages of these nodes.
    pub fn new(version: String, nodes: Vec<Arc<Serving<M>, Global>>, sources: Sources) -> Maker<M> {
        Maker {
            version,
            nodes,
            sources,
        }
    }

    /// Makes a page.
    pub fn make(
        &self,
        machine: &M,
        alloc: Global,
        resource: Resource,
    ) -> Result<Vec<u8>, AllocError> {
        match resource {
            Resource::Metrics => self.make_metrics(machine, alloc),
            Resource::Clients(form) => self.make_clients(machine, alloc, form),
            Resource::Links(form) => self.make_links(machine, alloc, form),
        }
    }

    // Makes the page of metrics.
    fn make_metrics(&self, machine: &M, alloc: Global) -> Result<Vec<u8>, AllocError> {
        let mut nodes = Vec::with_capacity(alloc, self.nodes.len())?;
        for (place, node) in self.nodes.iter().enumerate() {
            if let Some(state) = self.state(machine, alloc, place, node)? {
                nodes.push(state)?;
            }
        }
        page_of(
            alloc,
            self.version.as_str(),
            &ProcessState::now(self.sources.started),
            &nodes,
            &self.sources.log.totals(machine),
        )
    }

    // Returns the settings and the counters of the node at this place.
    fn node(&self, place: usize) -> Option<(&Settings, &NodeCounters)> {
        let settings = self.sources.group.get(place)?;
        let counters = self.sources.counters.node(place)?;
        Some((settings, counters))
    }

    // Returns the present state of a node.
    fn state(
        &self,
        machine: &M,
        alloc: Global,
        place: usize,
        node: &Serving<M>,
    ) -> Result<Option<NodeState>, AllocError> {
        let Some((settings, counters)) = self.node(place) else {
            return Ok(None);
        };
        let census = node.census(machine, alloc)?;
        let now = machine.monotonic().map_err(|_| AllocError)?;
        let oldest = counters
            .board()
            .oldest_waits(machine, settings.database_count(), now)?;
        let state = NodeState::new(alloc, settings, &census, counters, &oldest)?;
        Ok(Some(state))
    }

    // Makes the page of sessions.
    fn make_clients(&self, machine: &M, alloc: Global, form: Form) -> Result<Vec<u8>, AllocError> {
        let now = machine.monotonic().map_err(|_| AllocError)?;
        let mut table = clients_of(alloc, form)?;
        for place in 0..self.nodes.len() {
            if let Some((settings, counters)) = self.node(place) {
                let sights = counters.board().clients(machine, now)?;
                put_clients(alloc, &mut table, settings, &sights)?;
            }
        }
        table.finish()
    }

    // Makes the page of links.
    fn make_links(&self, machine: &M, alloc: Global, form: Form) -> Result<Vec<u8>, AllocError> {
        let now = machine.monotonic().map_err(|_| AllocError)?;
        let mut table = links_of(alloc, form)?;
        for place in 0..self.nodes.len() {
            if let Some((settings, counters)) = self.node(place) {
                let sights = counters.board().links(machine, now)?;
                put_links(alloc, &mut table, settings, &sights)?;
            }
        }
        table.finish()
    }
}
