//! What flows into declared frames.

ghost use Rattle.std.specs.Prelude.{◌≡◌, ◌&&◌, ◌∷◌, [], is_some};
ghost use Rattle.std.specs.List.{list_all};
ghost use Rattle.kilim_type_spec.specs.Typed.{declared, frame_types, all_assignable};
ghost use Rattle.kilim_type_spec.specs.Faults.{locals_flow, flows_into, flows_into_declared};

use crate::stated::is_declared;
use kilim_program::{Frame, Method, Program, VType};
use kilim_type_spec::assignable;
use kilim_type_step::{State, declared_at, has_unset_this, type_at};

fn locals_flow(program: &Program, from: &[VType], to: &[VType]) -> bool
    ensures { result ≡ locals_flow program.now from.now to.now }
{
    for (slot, wanted) in to.iter().enumerate() {
        if !assignable(program, &type_at(from, slot), wanted) {
            return false;
        }
    }
    true
}

// Stacks, the bottom first.
fn stack_flows(program: &Program, from: &[VType], to: &[VType]) -> bool
    ensures { result ≡ all_assignable program.now from.now to.now }
{
    if from.len() != to.len() {
        return false;
    }
    for (at, wanted) in to.iter().enumerate() {
        if !assignable(program, &from[at], wanted) {
            return false;
        }
    }
    true
}

/// Whether types flow into a declared frame.
#[tactic(auto, using(crate::proofs::Flowing::assignable_reversed))]
pub fn flows_into(program: &Program, from: &State, to: &Frame) -> bool
    ensures { result ≡ flows_into program.now from.now (frame_types to.now) }
{
    locals_flow(program, from.locals(), to.locals.as_slice())
        && stack_flows(program, from.stack(), to.stack.as_slice())
        && (!from.is_unset() || has_unset_this(to.locals.as_slice()))
}

/// Whether the locals, with one type alone on the stack, flow into a declared frame.
#[tactic(auto, using(crate::proofs::Flowing::one_reversed))]
pub fn caught_into(program: &Program, from: &State, caught: VType, to: &Frame) -> bool
    ensures { result ≡ (locals_flow program.now from.now.locals to.now.locals && all_assignable program.now (caught ∷ []) (frame_types to.now).stack) }
{
    locals_flow(program, from.locals(), to.locals.as_slice())
        && stack_flows(program, &[caught], to.stack.as_slice())
}

/// Whether types flow into the frame that is declared at a place, if there is one.
#[tactic(auto, using(crate::proofs::Flowing::into_declared, crate::proofs::Flowing::into_none))]
pub fn flows_to(program: &Program, method: &Method, from: &State, at: u32) -> bool
    ensures { result ≡ flows_into_declared program.now from.now (declared method.now at) }
{
    match declared_at(method, at) {
        Some(frame) => flows_into(program, from, frame),
        None => true,
    }
}

/// Whether types flow into the frames that are declared at places.
pub fn flow_to_all(program: &Program, method: &Method, from: &State, places: &[u32]) -> bool
    ensures { result ≡ list_all (λ to. flows_into_declared program.now from.now (declared method.now to)) places.now }
{
    for at in places {
        if !flows_to(program, method, from, *at) {
            return false;
        }
    }
    true
}

/// Whether a frame is declared at each place.
pub fn are_declared(method: &Method, places: &[u32]) -> bool
    ensures { result ≡ list_all (λ to. is_some (declared method.now to)) places.now }
{
    for at in places {
        if !is_declared(method, *at) {
            return false;
        }
    }
    true
}
