//! Shape graphs.

ghost use Rattle.std.specs.Prelude.{◌≡◌};
ghost use Rattle.kilim_isolation_graph.specs.Graphs as spec;

use crate::node::{Node, Standing, node_at};
use crate::slots::Slots;
use kilim_units::Seq;

/// For each local and each item of the operand stack the node that it names, or none, and the nodes by their numbers. A slot
/// that holds a value, a private object or the constant null names none.
#[derive(Drop)]
pub struct Graph {
    /// By slot, as many as the method has; the second slot of a long names none.
    pub locals: Slots,
    /// The top first. A long is one item.
    pub stack: Seq<Option<usize>>,
    pub nodes: Seq<Node>,
}

#[tactic(auto, using(crate::proofs::Lists::slot_is, crate::proofs::Lists::slot_past))]
/// What a slot names; one past the end names none. Takes no memory.
pub fn slot_at(slots: &[Option<usize>], at: usize) -> Option<usize>
    ensures { result ≡ spec.slot slots.now at }
{
    if at < slots.len() { slots[at] } else { None }
}

impl Graph {
    /// The node of a number; a number that is no node's counts as one of a gone node. Takes no memory.
    pub fn node(&self, number: usize) -> Node
        ensures { result ≡ spec.node_of self.now number }
    {
        node_at(self.nodes.as_slice(), number)
    }

    /// The region of a node, by its number. Takes no memory.
    pub fn region(&self, number: usize) -> usize
        ensures { result ≡ (spec.node_of self.now number).region }
    {
        self.node(number).region
    }

    /// The standing of a node, by its number. Takes no memory.
    pub fn standing(&self, number: usize) -> Standing
        ensures { result ≡ (spec.node_of self.now number).standing }
    {
        self.node(number).standing
    }
}
