//! Connections that are dealt to the nodes of a group in turn.
ghost use Rattle.std.specs.Prelude.{◌≡◌, ◌+◌, ◌%◌, ◌<◌, ℕ};

use std::marker::Model;

/// Deals connections to the nodes of a group in turn, in the order of their files.
#[derive(Debug, Drop)]
pub struct Front {
    nodes: usize,
    next: usize,
}

impl Model for Front {
    ghost use Rattle.std.specs.Prelude.{◌<◌};
    ghost use Rattle.node_threads.specs.Front.{Dealing};

    ghost Value = { Dealing };

    ghost view = { λ f. record { nodes = f.nodes; next = f.next } };

    ghost invariant = { λ f. f.next < f.nodes };
}

impl Front {
    ghost use Rattle.node_threads.specs.Front.{HasDealt};

    /// A front of this many nodes that has dealt no connection.
    pub const fn new(nodes: usize) -> Front
        requires some { 0 < nodes }
        ensures nodes { result.nodes ≡ nodes }
        ensures none { HasDealt result 0 }
    {
        Front { nodes, next: 0 }
    }

    /// The node for the next connection, by its place. However many were dealt before, the
    /// connection with number k, from 0, goes to node k modulo the number of nodes.
    pub fn deal(&mut self) -> usize
        ensures node { (k : ℕ) → HasDealt self.old k → result ≡ k % self.old.nodes }
        ensures next { (k : ℕ) → HasDealt self.old k → HasDealt self.new (k + 1) }
        ensures same { self.new.nodes ≡ self.old.nodes }
        ensures within { result < self.old.nodes }
    {
        let node = self.next;
        self.next = (node + 1) % self.nodes;
        node
    }
}
