//! The types with which a method begins, and those that a frame declares.

ghost use Rattle.std.specs.Prelude.{◌≡◌, ◌++◌, [], not, ◌&&◌, option_copied, IfOk, OnOk};
ghost use Rattle.std.specs.List.{list_any};
ghost use Rattle.std.specs.Option.{option_map};
ghost use Rattle.kilim_program.specs.Same.{is_constructor};
ghost use Rattle.kilim_type_spec.specs.Step.{is_unset_this};
ghost use Rattle.kilim_type_spec.specs.Typed.{declared, entry, frame_types, param_slots, slots_of_type, this_types};

use crate::members::is_constructor;
use crate::operands::{class_vtype, vtype};
use crate::state::{State, is_among};
use kilim_program::{Frame, Method, Ty, VType};
use std::alloc::{AllocError, Global};

// The type of the receiver behind those that are there, where there is one.
fn push_this(slots: &mut Vec<VType>, method: &Method) -> Result<(), AllocError>
    ensures { OnOk result (slots.new.items ≡ slots.old.items ++ this_types method.now) }
{
    if method.is_static {
        return Ok(());
    }
    let this = if is_constructor(method) {
        VType::UninitThis
    } else {
        class_vtype(method.owner)
    };
    let Ok(()) = slots.push(this) else {
        return Err(AllocError);
    };
    Ok(())
}

// The slots of a type behind those that are there; a long takes two.
fn push_slots(slots: &mut Vec<VType>, t: VType) -> Result<(), AllocError>
    ensures { OnOk result (slots.new.items ≡ slots.old.items ++ slots_of_type t []) }
{
    let Ok(()) = slots.push(t) else {
        return Err(AllocError);
    };
    match t {
        VType::Long => {
            let Ok(()) = slots.push(VType::Top) else {
                return Err(AllocError);
            };
            Ok(())
        }
        VType::Top
        | VType::Int
        | VType::Null
        | VType::UninitThis
        | VType::Uninit(_)
        | VType::Object(_) => Ok(()),
    }
}

// The slots of parameters behind those that are there.
fn push_params(slots: &mut Vec<VType>, params: &[Ty]) -> Result<(), AllocError>
    ensures { OnOk result (slots.new.items ≡ slots.old.items ++ param_slots params.now) }
{
    for ty in params {
        let Ok(()) = push_slots(slots, vtype(*ty)) else {
            return Err(AllocError);
        };
    }
    Ok(())
}

fn begins_unset(method: &Method) -> bool
    ensures { result ≡ (not method.now.is_static && is_constructor method.now) }
{
    !method.is_static && is_constructor(method)
}

/// The types with which a method begins.
pub fn entry_state(alloc: Global, method: &Method) -> Result<State, AllocError>
    ensures { IfOk result (λ s. s ≡ entry method.now) }
{
    let mut slots = Vec::new(alloc);
    let Ok(()) = push_this(&mut slots, method) else {
        return Err(AllocError);
    };
    let Ok(()) = push_params(&mut slots, method.params.as_slice()) else {
        return Err(AllocError);
    };
    Ok(State::new(slots, Vec::new(alloc), begins_unset(method)))
}

/// The frame that is declared at a place, or none.
pub fn declared_at(method: &Method, place: u32) -> Option<&Frame>
    ensures { option_map frame_types (option_copied result) ≡ declared method.now place }
{
    for entry in method.frames.as_slice() {
        if entry.0 == place {
            return Some(&entry.1);
        }
    }
    None
}

/// Whether `this` isn't initialized by some types.
#[tactic(auto, using(crate::proofs::Parameters::unset_among))]
pub fn has_unset_this(types: &[VType]) -> bool
    ensures { result ≡ list_any is_unset_this types.now }
{
    is_among(types, VType::UninitThis)
}

/// The types that a frame declares.
pub fn state_of(alloc: Global, frame: &Frame) -> Result<State, AllocError>
    ensures { IfOk result (λ s. s ≡ frame_types frame.now) }
{
    let Ok(locals) = Vec::from_slice(alloc, frame.locals.as_slice()) else {
        return Err(AllocError);
    };
    let Ok(stack) = Vec::from_slice(alloc, frame.stack.as_slice()) else {
        return Err(AllocError);
    };
    let unset = has_unset_this(frame.locals.as_slice());
    Ok(State::new(locals, stack, unset))
}
