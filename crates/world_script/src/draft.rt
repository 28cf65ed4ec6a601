//! What has been read of a script so far.
ghost use Rattle.std.specs.Prelude.{◌≡◌, ◌≤◌, ◌++◌, [], Some, length};
ghost use Rattle.world_script.specs.Reads.{Takes};
ghost use Rattle.world_script.specs.Script.{statement_of};
ghost use Rattle.world_script.specs.declared.statement.Statement.TheVariants as says;

use crate::fault::LineFault;
use crate::node_line::NodeLine;
use crate::statement::Statement;
use std::alloc::Global;
use world::Event;

const MAX_NODES: usize = 65;

/// What has been read: the nodes and the events, in order.
#[derive(Debug, Drop)]
pub(crate) struct Draft {
    /// The nodes.
    pub nodes: Vec<NodeLine>,
    /// The events.
    pub events: Vec<Event>,
}

impl Draft {
    /// Nothing has been read.
    pub(crate) fn new(alloc: Global) -> Draft
        ensures nodes { result.nodes.items ≡ [] }
        ensures events { result.events.items ≡ [] }
    {
        Draft {
            nodes: Vec::new(alloc),
            events: Vec::new(alloc),
        }
    }

    /// One more line, without the blanks at its ends.
    pub(crate) fn take_line(&mut self, alloc: Global, line: &str) -> Result<(), LineFault>
        requires { length self.old.nodes.items ≤ 65 }
        ensures said { Takes self.old self.new (statement_of line.now) result }
        ensures few { length self.new.nodes.items ≤ 65 }
    {
        let statement = Statement::read(alloc, line)?;
        match statement {
            Statement::Nothing => {}
            Statement::Node(node) => self.take_node(node)?,
            Statement::Event(event) => self.events.push(event)?,
        }
        Ok(())
    }

    // One more node, which may not stand behind an event.
    fn take_node(&mut self, node: NodeLine) -> Result<(), LineFault>
        requires { length self.old.nodes.items ≤ 65 }
        ensures said { Takes self.old self.new (Some (says.Node node)) result }
        ensures few { length self.new.nodes.items ≤ 65 }
    {
        if !self.events.is_empty() || self.nodes.len() >= MAX_NODES {
            return Err(LineFault::Form);
        }
        self.nodes.push(node)?;
        Ok(())
    }
}
