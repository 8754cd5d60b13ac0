//! Marks of graphs.

ghost use Rattle.std.specs.Prelude.{◌≡◌};
ghost use Rattle.kilim_isolation.specs.Mark as spec;

use kilim_isolation_graph::{Graph, Label, Node, Standing};

/// By what a mark is multiplied for each further number.
pub const MARK_FACTOR: u64 = 1_000_003;

#[tactic(auto, unfolding(crate::specs::Mark::mixed))]
fn mixed(mark: u64, number: u64) -> u64
    ensures { result ≡ spec.mixed mark number }
{
    mark.wrapping_mul(MARK_FACTOR).wrapping_add(number)
}

fn slot_mixed(mark: u64, slot: Option<usize>) -> u64
    ensures { result ≡ spec.slot_mixed mark slot }
{
    match slot {
        None => mixed(mark, 0),
        Some(node) => mixed(mixed(mark, 1), node as u64),
    }
}

fn local_mixed(mark: u64, at: usize, slot: Option<usize>) -> u64
    ensures { result ≡ spec.local_mixed mark at slot }
{
    match slot {
        None => mark,
        Some(node) => mixed(mixed(mark, at as u64), node as u64),
    }
}

fn slots_mixed(mark: u64, slots: &[Option<usize>]) -> u64
    ensures { result ≡ spec.slots_mixed mark slots.now }
{
    let mut mark = mark;
    for slot in slots {
        mark = slot_mixed(mark, *slot);
    }
    mark
}

// The slots that name a node, with their numbers.
fn locals_mixed(mark: u64, slots: &[Option<usize>]) -> u64
    ensures { result ≡ spec.locals_mixed mark 0 slots.now }
{
    let mut mark = mark;
    for (at, slot) in slots.iter().enumerate() {
        mark = local_mixed(mark, at, *slot);
    }
    mark
}

fn standing_number(standing: Standing) -> u64
    ensures { result ≡ spec.standing_number standing }
{
    match standing {
        Standing::Root => 2,
        Standing::Inner => 4,
        Standing::Safe => 6,
        Standing::Gone => 8,
    }
}

fn label_mixed(mark: u64, label: Label) -> u64
    ensures { result ≡ spec.label_mixed mark label }
{
    match label {
        Label::Field(field) => mixed(mixed(mark, 1), u64::from(field.0)),
        Label::Element => mixed(mark, 2),
    }
}

fn parent_mixed(mark: u64, parent: Option<(usize, Label)>) -> u64
    ensures { result ≡ spec.parent_mixed mark parent }
{
    match parent {
        None => mixed(mark, 0),
        Some((holder, label)) => label_mixed(mixed(mark, holder as u64), label),
    }
}

fn node_mixed(mark: u64, node: &Node) -> u64
    ensures { result ≡ spec.node_mixed mark node.now }
{
    let standing = mixed(mark, standing_number(node.standing) + u64::from(node.head));
    parent_mixed(mixed(standing, node.region as u64), node.parent)
}

fn nodes_mixed(mark: u64, nodes: &[Node]) -> u64
    ensures { result ≡ spec.nodes_mixed mark nodes.now }
{
    let mut mark = mark;
    for node in nodes {
        mark = node_mixed(mark, node);
    }
    mark
}

/// The mark of a graph.
#[tactic(auto, using(crate::proofs::Marks::tail_mixed), unfolding(crate::specs::Mark::mark_of))]
pub fn mark_of(graph: &Graph) -> u64
    ensures { result ≡ spec.mark_of graph.now }
{
    let nodes = nodes_mixed(0, graph.nodes.as_slice());
    let stack = slots_mixed(nodes, graph.stack.as_slice());
    let (front, _) = graph.locals.parts();
    locals_mixed(stack, front)
}
