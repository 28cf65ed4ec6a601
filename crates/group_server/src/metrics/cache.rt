//! The pages that were made last.
use std::alloc::Global;
use std::sync::{Arc, Mutex};
use std::time::Duration;
use telemetry::{Form, Resource};

/// A page, and when it was made.
#[derive(Drop)]
pub struct Page {
    /// When it was made.
    pub made: Duration,
    /// Its text.
    pub text: Arc<Vec<u8>, Global>,
}

/// The last page of each resource in each form.
#[derive(Drop)]
pub struct Cache {
    metrics: Mutex<Option<Page>>,
    clients: Mutex<Option<Page>>,
    clients_json: Mutex<Option<Page>>,
    links: Mutex<Option<Page>>,
    links_json: Mutex<Option<Page>>,
}

impl Cache {
    /// Returns no pages.
    pub fn new() -> Cache {
        Cache {
            metrics: Mutex::new(None),
            clients: Mutex::new(None),
            clients_json: Mutex::new(None),
            links: Mutex::new(None),
            links_json: Mutex::new(None),
        }
    }

    /// Returns the last page of a resource.
    pub fn last(&self, resource: Resource) -> &Mutex<Option<Page>> {
        match resource {
            Resource::Metrics => &self.metrics,
            Resource::Clients(Form::Text) => &self.clients,
            Resource::Clients(Form::Json) => &self.clients_json,
            Resource::Links(Form::Text) => &self.links,
            Resource::Links(Form::Json) => &self.links_json,
        }
    }
}
