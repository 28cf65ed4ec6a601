//! What connections are served with.
ghost use Rattle.std.specs.Prelude.{◌≡◌, slice_get, Some};
ghost use Rattle.std.specs.Arc.{arc_value};

use crate::{Admission, Link, Node};
use ini_config::Settings;
use locked_node::Shared;
use pg_frames::MessageLimit;
use startup::Reports;
use std::alloc::{AllocError, Global};

/// The runtime by which a thread waits, and the gate that it passes at the points of its way.
pub struct Context<'a, R, G> {
    /// The runtime.
    pub rt: &'a R,
    /// The gate.
    pub gate: &'a G,
}

impl<'a, R, G> Copy for Context<'a, R, G> {}

impl<'a, R, G> Clone for Context<'a, R, G> {
    fn clone(&self) -> Result<Context<'a, R, G>, AllocError> {
        Ok(*self)
    }
}

/// A node as a connection is served by it. `S` is the stream of a lease.
pub struct Service<'a, R, S, O, G> {
    /// The runtime by which its thread waits.
    pub rt: &'a R,
    /// The memory of what it makes.
    pub alloc: Global,
    /// The node behind its lock.
    pub shared: &'a Shared<S>,
    /// The node's settings.
    pub settings: &'a Settings,
    /// The parameters that logins report beside those that every login has.
    pub reports: &'a Reports,
    /// How long a message may be, of a client and of a server.
    pub limit: &'a MessageLimit,
    /// How many clients ask for a link at a time.
    pub admission: &'a Admission,
    /// The servers and peers that the connection reaches.
    pub opener: &'a O,
    /// The gate at the points of its way.
    pub gate: &'a G,
}

impl<'a, R, S, O, G> Copy for Service<'a, R, S, O, G> {}

impl<'a, R, S, O, G> Clone for Service<'a, R, S, O, G> {
    fn clone(&self) -> Result<Service<'a, R, S, O, G>, AllocError> {
        Ok(*self)
    }
}

impl<'a, R, S, O, G> Service<'a, R, S, O, G> {
    /// Its runtime and its gate.
    pub fn context(&self) -> Context<'a, R, G> {
        Context {
            rt: self.rt,
            gate: self.gate,
        }
    }
}

impl<'a, R, L: Drop, O, G> Service<'a, R, Link<L>, O, G> {
    /// The service of a node.
    pub(crate) fn of_node(
        node: &'a Node<L>,
        context: Context<'a, R, G>,
        alloc: Global,
        opener: &'a O,
        reports: &'a Reports,
        limit: &'a MessageLimit,
    ) -> Service<'a, R, Link<L>, O, G>
        ensures shared { result.shared.now ≡ node.now.shared }
        ensures opener { result.opener.now ≡ opener.now }
        ensures reports { result.reports.now ≡ reports.now }
        ensures limit { result.limit.now ≡ limit.now }
        ensures settings { slice_get (arc_value node.now.group) node.now.place
            ≡ Some result.settings.now }
    {
        Service {
            rt: context.rt,
            alloc,
            shared: &node.shared,
            settings: node.settings(),
            reports,
            limit,
            admission: &node.admission,
            opener,
            gate: context.gate,
        }
    }
}
