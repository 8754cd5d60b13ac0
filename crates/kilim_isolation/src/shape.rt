//! Graphs as the states of a search.

ghost use Rattle.std.specs.Prelude.{◌≡◌, IsTrue, ◌↔◌};

use crate::mark::mark_of;
use kilim_isolation_graph::{Graph, Node};
use kilim_isolation_paths::State;
use std::marker::Model;

/// A graph, as a state of the search, with its mark.
#[derive(Drop)]
pub struct Shape {
    graph: Graph,
    mark: u64,
}

impl Model for Shape {
    ghost use Rattle.std.specs.Prelude.{◌≡◌};
    ghost use Rattle.kilim_isolation_graph.specs.declared.graph.Graph.{Graph};
    ghost use Rattle.kilim_isolation.specs.Mark.{mark_of};

    ghost Value = { Graph };

    ghost view = { λ s. s.graph };

    ghost invariant = { λ s. s.mark ≡ mark_of s.graph };
}

impl Shape {
    pub fn new(graph: Graph) -> Shape
        ensures { result ≡ graph }
    {
        let mark = mark_of(&graph);
        Shape { graph, mark }
    }

    pub fn graph(&self) -> &Graph
        ensures { result.now ≡ self.now }
    {
        &self.graph
    }
}

fn same_slots(a: &[Option<usize>], b: &[Option<usize>]) -> bool
    ensures { IsTrue result ↔ (a.now ≡ b.now) }
{
    if a.len() != b.len() {
        return false;
    }
    for k in 0..a.len() {
        if a[k] != b[k] {
            return false;
        }
    }
    true
}

fn same_nodes(a: &[Node], b: &[Node]) -> bool
    ensures { IsTrue result ↔ (a.now ≡ b.now) }
{
    if a.len() != b.len() {
        return false;
    }
    for k in 0..a.len() {
        if a[k] != b[k] {
            return false;
        }
    }
    true
}

fn same_graphs(a: &Graph, b: &Graph) -> bool
    ensures { IsTrue result ↔ (a.now ≡ b.now) }
{
    same_nodes(a.nodes.as_slice(), b.nodes.as_slice())
        && same_slots(a.stack.as_slice(), b.stack.as_slice())
        && a.locals.is_same(&b.locals)
}

// About how many bytes a graph takes.
fn weight_of(graph: &Graph) -> usize {
    let (locals, _) = graph.locals.parts();
    let slots = locals.len().saturating_add(graph.stack.len());
    let nodes = graph.nodes.len().saturating_mul(96);
    slots
        .saturating_mul(32)
        .saturating_add(nodes)
        .saturating_add(256)
}

impl State for Shape {
    ghost use Rattle.kilim_isolation.specs.Mark.{mark_of};

    ghost marks = { mark_of };

    fn is_same(&self, other: &Shape) -> bool {
        self.mark == other.mark && same_graphs(&self.graph, &other.graph)
    }

    fn mark(&self) -> u64 {
        self.mark
    }

    fn weight(&self) -> usize {
        weight_of(&self.graph)
    }
}
