//! How nodes change: what is cut, joins another tree, or is gone.

ghost use Rattle.std.specs.Prelude.{◌≡◌, None, length, IfOk};
ghost use Rattle.kilim_isolation_rules.specs.Steps as spec;
ghost use Rattle.kilim_isolation_graph.specs.Nodes.{node_at, listed};

use kilim_isolation_graph::{Label, Node, Standing, node_at};
use kilim_units::{NoMemory, Seq};
use std::alloc::Global;

// Whether known parents lead from a node up to another, in at most so many steps.
fn climbs(nodes: &[Node], most: usize, from: usize, to: usize) -> bool
    ensures { result ≡ spec.climbs (node_at nodes.now) most from to }
{
    let mut at = from;
    let mut left = most;
    while left > 0 {
        if at == to {
            return true;
        }
        let Some((parent, _)) = node_at(nodes, at).parent else {
            return false;
        };
        at = parent;
        left -= 1;
    }
    at == to
}

fn is_part(nodes: &[Node], child: Option<usize>, number: usize) -> bool
    ensures { result ≡ spec.is_part (node_at nodes.now) (length nodes.now) child number }
{
    match child {
        None => false,
        Some(child) => climbs(nodes, nodes.len(), number, child),
    }
}

fn is_that(known: Option<usize>, number: usize) -> bool
    ensures { result ≡ spec.is_that known number }
{
    match known {
        None => false,
        Some(known) => number == known,
    }
}

fn is_left(nodes: &[Node], holder: usize, number: usize) -> bool
    ensures { result ≡ spec.is_left (node_at nodes.now) (length nodes.now) holder number }
{
    if climbs(nodes, nodes.len(), holder, number) {
        return true;
    }
    let node = node_at(nodes, number);
    node.head || node.region != node_at(nodes, holder).region
}

fn no_parent(holder: usize, parent: Option<(usize, Label)>) -> Option<(usize, Label)>
    ensures { result ≡ spec.no_parent holder parent }
{
    let (known, label) = parent?;
    if known == holder {
        return None;
    }
    Some((known, label))
}

fn cut_node(
    nodes: &[Node],
    holder: usize,
    child: Option<usize>,
    region: usize,
    number: usize,
) -> Node
    ensures { result ≡ spec.cut_node (node_at nodes.now) (length nodes.now) holder child region number }
{
    let node = node_at(nodes, number);
    let parent = no_parent(holder, node.parent);
    if is_part(nodes, child, number) {
        let head = is_that(child, number);
        let standing = if head { Standing::Root } else { node.standing };
        Node {
            region,
            standing,
            head,
            parent,
        }
    } else {
        let standing = if is_left(nodes, holder, number) {
            node.standing
        } else {
            Standing::Gone
        };
        Node {
            region: node.region,
            standing,
            head: node.head,
            parent,
        }
    }
}

fn join_node(nodes: &[Node], holder: usize, value: usize, label: Label, number: usize) -> Node
    ensures { result ≡ spec.join_node (node_at nodes.now) holder value label number }
{
    let node = node_at(nodes, number);
    if node.region != node_at(nodes, value).region {
        return node;
    }
    let is_value = number == value;
    Node {
        region: node_at(nodes, holder).region,
        standing: if is_value {
            Standing::Inner
        } else {
            node.standing
        },
        head: false,
        parent: if is_value {
            Some((holder, label))
        } else {
            node.parent
        },
    }
}

fn gone_node(nodes: &[Node], value: usize, number: usize) -> Node
    ensures { result ≡ spec.gone_node (node_at nodes.now) value number }
{
    let node = node_at(nodes, number);
    if node.region != node_at(nodes, value).region {
        return node;
    }
    Node {
        region: node.region,
        standing: Standing::Gone,
        head: node.head,
        parent: node.parent,
    }
}

/// The nodes after the change below a node; a known child of it, where one is given, leaves as a tree of that region.
pub fn cut(
    alloc: Global,
    nodes: &[Node],
    holder: usize,
    child: Option<usize>,
    region: usize,
) -> Result<Seq<Node>, NoMemory>
    ensures { IfOk result (λ new. new ≡ listed (spec.cut_node (node_at nodes.now) (length nodes.now) holder child region) (length nodes.now)) }
{
    let mut new = Seq::new(alloc);
    for number in 0..nodes.len() {
        let Ok(()) = new.push(cut_node(nodes, holder, child, region, number)) else {
            return Err(NoMemory);
        };
    }
    Ok(new)
}

/// The nodes after the tree of a value is hung on a node.
pub fn join(
    alloc: Global,
    nodes: &[Node],
    holder: usize,
    value: usize,
    label: Label,
) -> Result<Seq<Node>, NoMemory>
    ensures { IfOk result (λ new. new ≡ listed (spec.join_node (node_at nodes.now) holder value label) (length nodes.now)) }
{
    let mut new = Seq::new(alloc);
    for number in 0..nodes.len() {
        let Ok(()) = new.push(join_node(nodes, holder, value, label, number)) else {
            return Err(NoMemory);
        };
    }
    Ok(new)
}

/// The nodes after the tree of a value is given away.
pub fn give_away(alloc: Global, nodes: &[Node], value: usize) -> Result<Seq<Node>, NoMemory>
    ensures { IfOk result (λ new. new ≡ listed (spec.gone_node (node_at nodes.now) value) (length nodes.now)) }
{
    let mut new = Seq::new(alloc);
    for number in 0..nodes.len() {
        let Ok(()) = new.push(gone_node(nodes, value, number)) else {
            return Err(NoMemory);
        };
    }
    Ok(new)
}
