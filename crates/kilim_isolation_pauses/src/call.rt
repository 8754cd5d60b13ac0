//! Calls of pausable methods.

ghost use Rattle.std.specs.Prelude.{◌≡◌, ◌+◌, ◌||◌, IfOk, option_copied};
ghost use Rattle.std.specs.List.{list_any};
ghost use Rattle.kilim_type_spec.specs.Step as step;
ghost use Rattle.kilim_isolation_pauses.specs.Pausing as spec;

use kilim_program::lookups::method_at;
use kilim_program::{Instr, Method, Program, Qualifier, VType};
use kilim_type_spec::VerifiedFrame;
use kilim_units::NoMemory;
use std::alloc::Global;

fn is_free(qualifier: Qualifier) -> bool
    ensures { result ≡ spec.is_free qualifier }
{
    match qualifier {
        Qualifier::Free => true,
        Qualifier::Cuttable | Qualifier::Safe => false,
    }
}

/// Whether a pausable method has a free receiver.
pub fn has_free_receiver(method: &Method) -> bool
    ensures { result ≡ spec.has_free_receiver method.now }
{
    method.pausable && !method.is_static && is_free(method.receiver)
}

/// The method that a call names.
pub fn called_by<'a>(program: &'a Program, instr: &Instr) -> Option<&'a Method>
    ensures { option_copied result ≡ spec.called program.now instr.now }
{
    match instr {
        Instr::Invokevirtual(id) | Instr::Invokespecial(id) | Instr::Invokestatic(id) => {
            method_at(program, *id)
        }
        _ => None,
    }
}

/// Whether a method is there, and pausable.
pub fn pauses(callee: Option<&Method>) -> bool
    ensures { result ≡ spec.pauses (option_copied callee.entry) }
{
    match callee {
        None => false,
        Some(method) => method.pausable,
    }
}

fn is_unset(ty: VType) -> bool
    ensures { result ≡ step.is_unset ty }
{
    match ty {
        VType::UninitThis | VType::Uninit(_) => true,
        VType::Top | VType::Int | VType::Long | VType::Null | VType::Object(_) => false,
    }
}

fn any_unset(types: &[VType]) -> bool
    ensures { result ≡ list_any step.is_unset types.now }
{
    for ty in types {
        if is_unset(*ty) {
            return true;
        }
    }
    false
}

// Whether something isn't initialized in a frame, its topmost types left out.
fn uninitialized(
    alloc: Global,
    frame: &VerifiedFrame,
    parameters: usize,
    receiver: usize,
) -> Result<bool, NoMemory>
    ensures { IfOk result (λ unset. unset ≡ (list_any step.is_unset frame.now.locals || list_any step.is_unset (spec.below (parameters + receiver) frame.now))) }
{
    let Ok(locals) = frame.locals(alloc) else {
        return Err(NoMemory);
    };
    let Ok(stack) = frame.stack(alloc) else {
        return Err(NoMemory);
    };
    let left = stack
        .len()
        .saturating_sub(parameters)
        .saturating_sub(receiver);
    Ok(any_unset(&locals) || any_unset(&stack[..left]))
}

/// Whether something isn't initialized in a frame at a call of a pausable method, the arguments left out.
pub fn uninitialized_below(
    alloc: Global,
    frame: &VerifiedFrame,
    callee: Option<&Method>,
) -> Result<bool, NoMemory>
    ensures { IfOk result (λ unset. unset ≡ spec.uninitialized_below frame.now (option_copied callee.entry)) }
{
    let Some(method) = callee else {
        return Ok(false);
    };
    if !method.pausable {
        return Ok(false);
    }
    let receiver: usize = if method.is_static { 0 } else { 1 };
    uninitialized(alloc, frame, method.params.len(), receiver)
}
