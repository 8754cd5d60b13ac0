//! Rules 15 and 16: what the entries of an exception table ask of an instruction in their ranges.

ghost use Rattle.std.specs.Prelude.{◌≡◌, ◌∷◌, [], codes, IfOk, option_copied};
ghost use Rattle.std.specs.Option.{option_map};
ghost use Rattle.std.specs.List.{list_all, list_any};
ghost use Rattle.kilim_program.specs.Fits.{is_named};
ghost use Rattle.kilim_type_spec.specs.Typed.{caught_type, catch_fits, covers, declared, frame_types, is_throwable};
ghost use Rattle.kilim_type_spec.specs.Faults.{caught_flows, handler_rule, rule_15, rule_16};

use crate::flows::caught_into;
use crate::place::{fails_unless, lesser};
use kilim_program::lookups::{class_at, class_named, line_of};
use kilim_program::{ClassId, Frame, Handler, Method, Program, VType};
use kilim_type_step::{State, class_vtype, declared_at};
use kilim_units::NoMemory;
use std::alloc::Global;

// The rules, by their numbers.
const NO_HANDLER: u8 = 15;

const NO_CATCH: u8 = 16;

fn covers(handler: &Handler, at: u32) -> bool
    ensures { result ≡ covers handler.now at }
{
    handler.start <= at && at < handler.end
}

// What an entry catches, as a type. Want of memory comes only where there are too many classes.
fn caught_type(program: &Program, catch: Option<ClassId>) -> Result<VType, NoMemory>
    ensures { IfOk result (λ t. t ≡ caught_type program.now catch) }
{
    if let Some(class) = catch {
        return Ok(class_vtype(class));
    }
    match class_named(program, b"java/lang/Throwable") {
        Ok(Some(class)) => Ok(class_vtype(class)),
        Ok(None) => Ok(VType::Null),
        Err(NoMemory) => Err(NoMemory),
    }
}

fn is_throwable_itself(program: &Program, class: ClassId) -> bool
    ensures { result ≡ is_named program.now (codes "java/lang/Throwable") class }
{
    match class_at(program, class) {
        Some(found) => found.name.is_text(b"java/lang/Throwable"),
        None => false,
    }
}

fn any_throwable(program: &Program, line: &[ClassId]) -> bool
    ensures { result ≡ list_any (is_named program.now (codes "java/lang/Throwable")) line.now }
{
    for class in line {
        if is_throwable_itself(program, *class) {
            return true;
        }
    }
    false
}

// Whether what an entry catches can be thrown.
fn catch_fits(alloc: Global, program: &Program, catch: Option<ClassId>) -> Result<bool, NoMemory>
    ensures { IfOk result (λ fits. fits ≡ catch_fits program.now catch) }
{
    let Some(class) = catch else {
        return Ok(true);
    };
    let Ok(line) = line_of(alloc, program, class) else {
        return Err(NoMemory);
    };
    Ok(any_throwable(program, &line))
}

// Whether what is caught, alone on the stack, flows into a declared frame.
fn flows_to_frame(program: &Program, state: &State, caught: VType, frame: Option<&Frame>) -> bool
    ensures { (h : Handler) → caught ≡ caught_type program.now h.catch → result ≡ caught_flows program.now state.now h (option_map frame_types (option_copied frame.entry)) }
{
    match frame {
        Some(frame) => caught_into(program, state, caught, frame),
        None => false,
    }
}

fn holds_15(
    program: &Program,
    method: &Method,
    at: u32,
    state: &State,
    handler: &Handler,
) -> Result<bool, NoMemory>
    ensures { IfOk result (λ holds. holds ≡ rule_15 program.now method.now at state.now handler.now) }
{
    if !covers(handler, at) {
        return Ok(true);
    }
    let Ok(caught) = caught_type(program, handler.catch) else {
        return Err(NoMemory);
    };
    let frame = declared_at(method, handler.at);
    Ok(flows_to_frame(program, state, caught, frame))
}

fn holds_16(
    alloc: Global,
    program: &Program,
    at: u32,
    state: &State,
    handler: &Handler,
) -> Result<bool, NoMemory>
    ensures { IfOk result (λ holds. holds ≡ rule_16 program.now at state.now handler.now) }
{
    if covers(handler, at) && state.is_unset() {
        return Ok(false);
    }
    if handler.start != at {
        return Ok(true);
    }
    catch_fits(alloc, program, handler.catch)
}

fn all_15(
    program: &Program,
    method: &Method,
    at: u32,
    state: &State,
    handlers: &[Handler],
) -> Result<bool, NoMemory>
    ensures { IfOk result (λ holds. holds ≡ list_all (rule_15 program.now method.now at state.now) handlers.now) }
{
    for handler in handlers {
        let Ok(holds) = holds_15(program, method, at, state, handler) else {
            return Err(NoMemory);
        };
        if !holds {
            return Ok(false);
        }
    }
    Ok(true)
}

fn all_16(
    alloc: Global,
    program: &Program,
    at: u32,
    state: &State,
    handlers: &[Handler],
) -> Result<bool, NoMemory>
    ensures { IfOk result (λ holds. holds ≡ list_all (rule_16 program.now at state.now) handlers.now) }
{
    for handler in handlers {
        let Ok(holds) = holds_16(alloc, program, at, state, handler) else {
            return Err(NoMemory);
        };
        if !holds {
            return Ok(false);
        }
    }
    Ok(true)
}

/// The lesser of the rules 15 and 16 that fails at an instruction, under the frame there.
pub fn handler_rule(
    alloc: Global,
    program: &Program,
    method: &Method,
    at: u32,
    state: &State,
) -> Result<Option<u8>, NoMemory>
    ensures { IfOk result (λ rule. rule ≡ handler_rule program.now method.now at state.now) }
{
    let handlers = method.handlers.as_slice();
    let Ok(caught) = all_15(program, method, at, state, handlers) else {
        return Err(NoMemory);
    };
    let Ok(set) = all_16(alloc, program, at, state, handlers) else {
        return Err(NoMemory);
    };
    Ok(lesser(
        fails_unless(caught, NO_HANDLER),
        fails_unless(set, NO_CATCH),
    ))
}
