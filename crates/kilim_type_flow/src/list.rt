//! The list of a method's edges.

ghost use Rattle.std.specs.Prelude.{◌≡◌, ◌++◌, ◌<◌, length, map, IfOk, OnOk};
ghost use Rattle.kilim_program.specs.lookups.Places.{Rising};
ghost use Rattle.kilim_type_spec.specs.Typed.{edges, handlers_at};
ghost use Rattle.kilim_type_flow.specs.Edges.{AreEdges};
ghost use Rattle.kilim_type_flow.specs.Listing.{InOrder, Further, from_to};

use crate::before::{edges_of, entry_of, handlers_at, place_behind};
use kilim_program::{Instr, Method};
use kilim_units::NoMemory;
use std::alloc::Global;

// The same numbers in increasing order, each once.
fn put_in_order(numbers: &mut Vec<u32>)
    ensures { InOrder numbers.old.items numbers.new.items }
{
    numbers.sort_unstable();
    numbers.dedup();
}

// The edges from a place to these behind those that are there.
fn push_from(pairs: &mut Vec<(u32, u32)>, from: u32, tos: &[u32]) -> Result<(), NoMemory>
    ensures { OnOk result (pairs.new.items ≡ pairs.old.items ++ map (from_to from) tos.now) }
{
    for to in tos {
        let Ok(()) = pairs.push((from, *to)) else {
            return Err(NoMemory);
        };
    }
    Ok(())
}

// Where control goes from an entry, behind which the code goes on at a place: on, then to the handlers in whose ranges it stands.
fn all_edges_of(
    alloc: Global,
    method: &Method,
    entry: &(u32, Instr),
    next: u32,
) -> Result<Vec<u32>, NoMemory>
    ensures { IfOk result (λ v. v.items ≡ edges entry.now.1 next ++ handlers_at method.now.handlers entry.now.0) }
{
    let Ok(mut tos) = edges_of(alloc, &entry.1, next) else {
        return Err(NoMemory);
    };
    let handlers = method.handlers.as_slice();
    let Ok(caught) = handlers_at(alloc, handlers, entry.0) else {
        return Err(NoMemory);
    };
    let Ok(()) = tos.extend_from_slice(caught.as_slice()) else {
        return Err(NoMemory);
    };
    Ok(tos)
}

// The edges from the entry of a number behind those that are there.
fn push_edges(
    alloc: Global,
    method: &Method,
    at: usize,
    pairs: &mut Vec<(u32, u32)>,
) -> Result<(), NoMemory>
    requires { at < length method.now.code }
    ensures { OnOk result (Further method.now at pairs.old.items pairs.new.items) }
{
    let entry = entry_of(method, at);
    let next = place_behind(method, at);
    let Ok(mut tos) = all_edges_of(alloc, method, entry, next) else {
        return Err(NoMemory);
    };
    put_in_order(&mut tos);
    let Ok(()) = push_from(pairs, entry.0, tos.as_slice()) else {
        return Err(NoMemory);
    };
    Ok(())
}

/// The edges of a method, on and to handlers, each as the place that it leaves and the place to which it leads: in increasing order, each once.
/// The error is want of memory alone.
pub fn edges(alloc: Global, method: &Method) -> Result<Vec<(u32, u32)>, NoMemory>
    requires { Rising method.now.code }
    ensures { IfOk result (λ pairs. AreEdges method.now pairs.items) }
{
    let mut pairs = Vec::new(alloc);
    for at in 0..method.code.len() {
        let Ok(()) = push_edges(alloc, method, at, &mut pairs) else {
            return Err(NoMemory);
        };
    }
    Ok(pairs)
}
