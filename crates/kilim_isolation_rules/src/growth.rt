//! How a graph's slots change.

ghost use Rattle.std.specs.Prelude.{◌≡◌, ◌∷◌, IfOk, OnOk};
ghost use Rattle.kilim_isolation_graph.specs.Graphs as spec;
ghost use Rattle.kilim_isolation_graph.specs.Nodes as list;
ghost use Rattle.kilim_isolation_rules.specs.Marks as marks;

use crate::shuffles::behind;
use kilim_isolation_graph::{Graph, Node, Standing};
use kilim_program::Kind;
use kilim_units::{NoMemory, Seq, no_room};
use std::alloc::Global;

/// The same graph.
pub fn copied(alloc: Global, graph: &Graph) -> Result<Graph, NoMemory>
    ensures { IfOk result (λ new. new ≡ graph.now) }
{
    let Ok(locals) = graph.locals.copied(alloc) else {
        return Err(NoMemory);
    };
    let Ok(stack) = Vec::from_slice(alloc, graph.stack.as_slice()) else {
        return Err(NoMemory);
    };
    let Ok(nodes) = Vec::from_slice(alloc, graph.nodes.as_slice()) else {
        return Err(NoMemory);
    };
    Ok(Graph {
        locals,
        stack: Seq::from_vec(stack),
        nodes: Seq::from_vec(nodes),
    })
}

/// Takes so many items from the stack.
pub fn pop(alloc: Global, graph: &mut Graph, count: usize) -> Result<(), NoMemory>
    ensures { OnOk result (graph.new ≡ spec.popped count graph.old) }
{
    let Ok(left) = Vec::from_slice(alloc, behind(graph.stack.as_slice(), count)) else {
        return Err(NoMemory);
    };
    graph.stack = Seq::from_vec(left);
    Ok(())
}

fn put_first(slots: &mut Seq<Option<usize>>, name: Option<usize>) -> Result<(), NoMemory>
    ensures { OnOk result (slots.new ≡ name ∷ slots.old) }
{
    let Ok(()) = slots.items.insert(0, name) else {
        return Err(NoMemory);
    };
    Ok(())
}

/// A further item of the stack.
pub fn push(graph: &mut Graph, name: Option<usize>) -> Result<(), NoMemory>
    ensures { OnOk result (graph.new ≡ spec.push name graph.old) }
{
    put_first(&mut graph.stack, name)
}

/// A further node, which a further item of the stack names.
pub fn add(graph: &mut Graph, node: Node) -> Result<(), NoMemory>
    ensures { OnOk result (graph.new ≡ spec.added node graph.old) }
{
    let number = graph.nodes.len();
    let Ok(()) = push(graph, Some(number)) else {
        return Err(NoMemory);
    };
    let Ok(()) = graph.nodes.push(node) else {
        return Err(NoMemory);
    };
    Ok(())
}

/// A local names something else.
pub fn set_local(graph: &mut Graph, at: usize, name: Option<usize>) -> Result<(), NoMemory>
    ensures { OnOk result (graph.new ≡ record graph.old { locals = spec.with_slot graph.old.locals at name }) }
{
    graph.locals.set(at, name)
}

/// A number that is greater than each number of a region. Want of memory where there is none, which no graph in memory
/// comes near.
pub fn new_region(nodes: &[Node]) -> Result<usize, NoMemory>
    ensures { IfOk result (λ region. region ≡ list.new_region nodes.now) }
{
    let mut region = 0usize;
    for node in nodes {
        let Some(next) = node.region.checked_add(1) else {
            // room: 2^32 regions of a graph
            return Err(no_room());
        };
        region = region.max(next);
    }
    Ok(region)
}

/// A new object or the result of a call: a tree is a root, another kind names no node.
pub fn give(graph: &mut Graph, kind: Kind) -> Result<(), NoMemory>
    ensures { OnOk result (graph.new ≡ marks.given kind graph.old) }
{
    match kind {
        Kind::Tree => {
            let Ok(region) = new_region(graph.nodes.as_slice()) else {
                return Err(NoMemory);
            };
            add(
                graph,
                Node {
                    region,
                    standing: Standing::Root,
                    head: true,
                    parent: None,
                },
            )
        }
        Kind::Value | Kind::Private => push(graph, None),
    }
}
