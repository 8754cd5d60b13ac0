//! The graph with which a method begins.

ghost use Rattle.std.specs.Prelude.{◌≡◌, IfOk};
ghost use Rattle.kilim_type_spec.specs.Typed.{declared};
ghost use Rattle.kilim_isolation_graph.specs.Canonical.{canonical_at};
ghost use Rattle.kilim_isolation_graph.specs.Entry.{entry_nodes};
ghost use Rattle.kilim_isolation.specs.Answers.{IsFirst};
ghost use Rattle.kilim_isolation.specs.Walks.{entry_graph, entry_mixes};

use kilim_isolation_graph::Graph;
use kilim_isolation_rules::any_mixes;
use kilim_program::{Method, Program};
use kilim_type_step::{declared_at, entry_state};
use kilim_units::NoMemory;
use std::alloc::Global;

// Whether a tree becomes private in the frame that is declared at a method's first place.
#[tactic(auto, using(crate::proofs::Begins::mixes_declared, crate::proofs::Begins::mixes_none))]
fn entry_mixes(alloc: Global, program: &Program, method: &Method) -> Result<bool, NoMemory>
    ensures { IfOk result (λ mix. mix ≡ entry_mixes program.now method.now (declared method.now 0)) }
{
    let Some(frame) = declared_at(method, 0) else {
        return Ok(false);
    };
    let Ok(state) = entry_state(alloc, method) else {
        return Err(NoMemory);
    };
    Ok(any_mixes(program, state.locals(), frame.locals.as_slice()))
}

// The graph with which a method begins, whatever becomes private there.
fn begun(alloc: Global, program: &Program, method: &Method) -> Result<Graph, NoMemory>
    ensures { IfOk result (λ graph. graph ≡ canonical_at (declared method.now 0) (entry_nodes program.now method.now)) }
{
    let Ok(graph) = Graph::entry(alloc, program, method) else {
        return Err(NoMemory);
    };
    let canonical = graph.canonical(alloc, declared_at(method, 0));
    drop(graph);
    canonical
}

/// The graph with which a method begins; none where a tree becomes private in the frame that is declared at its first place.
pub fn first_graph(
    alloc: Global,
    program: &Program,
    method: &Method,
) -> Result<Option<Graph>, NoMemory>
    ensures { IfOk result (λ graph. IsFirst (entry_graph program.now method.now) graph) }
{
    let Ok(mixes) = entry_mixes(alloc, program, method) else {
        return Err(NoMemory);
    };
    if mixes {
        return Ok(None);
    }
    let Ok(graph) = begun(alloc, program, method) else {
        return Err(NoMemory);
    };
    Ok(Some(graph))
}
