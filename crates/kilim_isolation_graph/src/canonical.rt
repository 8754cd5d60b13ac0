//! The canonical form of a graph.

ghost use Rattle.std.specs.Prelude.{◌≡◌, ◌++◌, Option, Some, None, map, reverse, option_copied, IfOk};
ghost use Rattle.kilim_type_spec.specs.Typed.{frame_types};
ghost use Rattle.kilim_isolation_graph.specs.Canonical as form;
ghost use Rattle.std.specs.Option.{option_map};

use crate::graph::Graph;
use crate::node::{Label, Node, node_at};
use crate::order::{Order, firsts};
use crate::reversed::turned;
use crate::slots::Slots;
use crate::types::type_at;
use kilim_program::{Frame, VType};
use kilim_units::{NoMemory, Seq};
use std::alloc::Global;

// The nodes that some slots name, behind those that are there.
fn push_named(slots: &[Option<usize>], named: &mut Seq<usize>) -> Result<(), NoMemory>
    ensures { IfOk result (λ u. named.new ≡ named.old ++ form.named slots.now) }
{
    for slot in slots {
        if let Some(node) = slot {
            let Ok(()) = named.push(*node) else {
                return Err(NoMemory);
            };
        }
    }
    Ok(())
}

// The nodes that locals name, behind those that are there.
#[tactic(auto, using(crate::proofs::Fronts::named_front))]
fn push_locals(locals: &Slots, named: &mut Seq<usize>) -> Result<(), NoMemory>
    ensures { IfOk result (λ u. named.new ≡ named.old ++ form.named locals.now) }
{
    let (front, _) = locals.parts();
    push_named(front, named)
}

fn slots_of(alloc: Global, graph: &Graph) -> Result<Seq<usize>, NoMemory>
    ensures { IfOk result (λ named. named ≡ form.slots_of graph.now) }
{
    let Ok(stack) = turned::<Option<usize>>(alloc, graph.stack.as_slice()) else {
        return Err(NoMemory);
    };
    let mut named = Seq::new(alloc);
    let Ok(()) = push_locals(&graph.locals, &mut named) else {
        return Err(NoMemory);
    };
    let Ok(()) = push_named(&stack, &mut named) else {
        return Err(NoMemory);
    };
    Ok(named)
}

fn order_of(alloc: Global, graph: &Graph) -> Result<Order, NoMemory>
    ensures { IfOk result (λ order. order ≡ form.order_of graph.now) }
{
    let Ok(named) = slots_of(alloc, graph) else {
        return Err(NoMemory);
    };
    firsts(alloc, named.as_slice(), graph.nodes.len())
}

fn regions_of(alloc: Global, nodes: &[Node], order: &[usize]) -> Result<Order, NoMemory>
    ensures { IfOk result (λ regions. regions ≡ form.regions_of nodes.now order.now) }
{
    let mut regions = Seq::new(alloc);
    for node in order {
        let Ok(()) = regions.push(node_at(nodes, *node).region) else {
            return Err(NoMemory);
        };
    }
    firsts(alloc, regions.as_slice(), nodes.len())
}

fn parent_in(
    nodes: &[Node],
    order: &Order,
    gone: bool,
    parent: Option<(usize, Label)>,
) -> Option<(usize, Label)>
    ensures { result ≡ form.parent_in nodes.now order.now gone parent }
{
    let (holder, label) = parent?;
    if gone || node_at(nodes, holder).standing.is_gone() || !order.is_among(holder) {
        return None;
    }
    Some((order.index_of(holder), label))
}

fn renumbered(order: &Order, slot: Option<usize>) -> Option<usize>
    ensures { result ≡ form.renumbered order.now slot }
{
    match slot {
        Some(node) => Some(order.index_of(node)),
        None => None,
    }
}

fn slots_in(
    alloc: Global,
    order: &Order,
    slots: &[Option<usize>],
) -> Result<Seq<Option<usize>>, NoMemory>
    ensures { IfOk result (λ new. new ≡ map (form.renumbered order.now) slots.now) }
{
    let mut new = Seq::new(alloc);
    for slot in slots {
        let Ok(()) = new.push(renumbered(order, *slot)) else {
            return Err(NoMemory);
        };
    }
    Ok(new)
}

#[tactic(auto, using(crate::proofs::Fronts::renumbered_front))]
fn locals_in(alloc: Global, order: &Order, locals: &Slots) -> Result<Slots, NoMemory>
    ensures { IfOk result (λ new. new ≡ map (form.renumbered order.now) locals.now) }
{
    let (front, more) = locals.parts();
    let Ok(new) = slots_in(alloc, order, front) else {
        return Err(NoMemory);
    };
    Ok(Slots::new(new, more))
}

fn nodes_in(alloc: Global, nodes: &[Node], order: &Order) -> Result<Seq<Node>, NoMemory>
    ensures { IfOk result (λ new. new ≡ map (form.canonical_node nodes.now order.now) order.now) }
{
    let numbers = order.as_slice();
    let Ok(regions) = regions_of(alloc, nodes, numbers) else {
        return Err(NoMemory);
    };
    let mut new = Seq::new(alloc);
    for number in numbers {
        let node = node_at(nodes, *number);
        let Ok(()) = new.push(Node {
            region: regions.index_of(node.region),
            standing: node.standing,
            head: node.head,
            parent: parent_in(nodes, order, node.standing.is_gone(), node.parent),
        }) else {
            return Err(NoMemory);
        };
    }
    Ok(new)
}

fn kept_name(ty: VType, slot: Option<usize>) -> Option<usize>
    ensures { result ≡ form.kept_name ty slot }
{
    match ty {
        VType::Top => None,
        VType::Int
        | VType::Long
        | VType::Null
        | VType::UninitThis
        | VType::Uninit(_)
        | VType::Object(_) => slot,
    }
}

// The slots, but those of type Top name nothing.
fn kept_names(
    alloc: Global,
    types: &[VType],
    slots: &[Option<usize>],
) -> Result<Seq<Option<usize>>, NoMemory>
    ensures { IfOk result (λ new. new ≡ form.kept_names types.now slots.now) }
{
    let mut new = Seq::new(alloc);
    for (at, slot) in slots.iter().enumerate() {
        let Ok(()) = new.push(kept_name(type_at(types, at), *slot)) else {
            return Err(NoMemory);
        };
    }
    Ok(new)
}

// The locals, but those of type Top name nothing.
#[tactic(auto, using(crate::proofs::Fronts::kept_front))]
fn kept_locals(alloc: Global, types: &[VType], locals: &Slots) -> Result<Slots, NoMemory>
    ensures { IfOk result (λ new. new ≡ form.kept_names types.now locals.now) }
{
    let (front, more) = locals.parts();
    let Ok(new) = kept_names(alloc, types, front) else {
        return Err(NoMemory);
    };
    Ok(Slots::new(new, more))
}

// The graph with these nodes alone, numbered in their order.
fn ordered(alloc: Global, graph: &Graph, order: &Order) -> Result<Graph, NoMemory>
    ensures { IfOk result (λ new. new ≡ record { locals = map (form.renumbered order.now) graph.now.locals; stack = map (form.renumbered order.now) graph.now.stack; nodes = map (form.canonical_node graph.now.nodes order.now) order.now }) }
{
    let Ok(locals) = locals_in(alloc, order, &graph.locals) else {
        return Err(NoMemory);
    };
    let Ok(stack) = slots_in(alloc, order, graph.stack.as_slice()) else {
        return Err(NoMemory);
    };
    let Ok(nodes) = nodes_in(alloc, graph.nodes.as_slice(), order) else {
        return Err(NoMemory);
    };
    Ok(Graph {
        locals,
        stack,
        nodes,
    })
}

#[tactic(auto, unfolding(crate::specs::Canonical::canonical))]
fn canonical_of(alloc: Global, graph: &Graph) -> Result<Graph, NoMemory>
    ensures { IfOk result (λ new. new ≡ form.canonical graph.now) }
{
    let Ok(order) = order_of(alloc, graph) else {
        return Err(NoMemory);
    };
    let new = ordered(alloc, graph, &order);
    drop(order);
    new
}

fn stack_names(
    alloc: Global,
    types: &[VType],
    slots: &[Option<usize>],
) -> Result<Seq<Option<usize>>, NoMemory>
    ensures { IfOk result (λ new. new ≡ form.kept_names (reverse types.now) slots.now) }
{
    let Ok(types) = turned::<VType>(alloc, types) else {
        return Err(NoMemory);
    };
    kept_names(alloc, &types, slots)
}

// The graph, but slots that the frame types as Top name nothing.
fn cleared(alloc: Global, graph: &Graph, frame: &Frame) -> Result<Graph, NoMemory>
    ensures { IfOk result (λ new. new ≡ form.cleared (frame_types frame.now) graph.now) }
{
    let Ok(locals) = kept_locals(alloc, frame.locals.as_slice(), &graph.locals) else {
        return Err(NoMemory);
    };
    let Ok(stack) = stack_names(alloc, frame.stack.as_slice(), graph.stack.as_slice()) else {
        return Err(NoMemory);
    };
    let Ok(nodes) = Vec::from_slice(alloc, graph.nodes.as_slice()) else {
        return Err(NoMemory);
    };
    Ok(Graph {
        locals,
        stack,
        nodes: Seq::from_vec(nodes),
    })
}

impl Graph {
    /// The canonical form at a place with that declared frame, or with none: nodes that no slot names are dropped, and edges
    /// from or to a gone node; nodes are numbered by the least slot that names them, regions by their least node; a slot that
    /// the frame types as Top names none.
    pub fn canonical(&self, alloc: Global, declared: Option<&Frame>) -> Result<Graph, NoMemory>
        ensures { IfOk result (λ new. new ≡ form.canonical_at (option_map frame_types (option_copied declared.entry)) self.now) }
    {
        let Some(frame) = declared else {
            return canonical_of(alloc, self);
        };
        let Ok(graph) = cleared(alloc, self, frame) else {
            return Err(NoMemory);
        };
        canonical_of(alloc, &graph)
    }
}
