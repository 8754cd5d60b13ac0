//! Exceptions: which frame catches what is raised or thrown (JVMS 2.10).

ghost use Rattle.std.specs.Prelude.{◌≡◌, None, Some, IfOk, OnOk};
ghost use Rattle.std.specs.FinMap.{get, insert};
ghost use Rattle.kilim_program.specs.Lengths.{fetched};
ghost use Rattle.kilim_program.specs.Names.{method_at};
ghost use Rattle.kilim_program.specs.lookups.Places.{Rising};
ghost use Rattle.kilim_program.specs.declared.value.Value.{Value as AValue};
ghost use Rattle.kilim_program.specs.declared.value.Value.TheVariants.{Ref};
ghost use Rattle.kilim_run_state.specs.Machine.{stands_behind};
ghost use Rattle.kilim_run_state.specs.Objects.{new_object};
ghost use Rattle.kilim_run_state.specs.frames.Calls.{activation, answered, below_of, calls_of};
ghost use Rattle.kilim_run_machine.specs.Raising.{call_in, catches, catches_class, handler_of, index_at, raised_class, thrown, unwound};
ghost use Rattle.kilim_run_interp.specs.Catching.{IsRaised, IsThrown, call_place, handler_behind, handler_in, handler_place, is_virtual, left_at};
ghost use Rattle.kilim_run_interp.specs.Step.{AreRoomy};

use crate::instruction::new_object;
use crate::machine::stack_room;
use kilim_program::lookups::{class_named, code_rises, instr_at, method_at};
use kilim_program::{ClassId, Handler, Instr, MethodId, Program, Value};
use kilim_run_state::frames::{Frame, Frames, Stack};
use kilim_run_state::{EndCause, Heap};
use kilim_units::NoMemory;
use std::alloc::Global;

// ---- tables

fn catches_class(program: &Program, catch: Option<ClassId>, class: ClassId) -> bool
    ensures { result ≡ catches_class program.now catch class }
{
    match catch {
        Some(up) => program.is_subclass(class, up),
        None => true,
    }
}

fn catches(program: &Program, class: ClassId, at: u32, handler: &Handler) -> bool
    ensures { result ≡ catches program.now class at handler.now }
{
    handler.start <= at && at < handler.end && catches_class(program, handler.catch, class)
}

// The place of the first entry that catches an object of that class at that place.
fn handler_of(program: &Program, class: ClassId, at: u32, handlers: &[Handler]) -> Option<u32>
    ensures { result ≡ handler_place (handler_of program.now class at handlers.now) }
{
    for handler in handlers {
        if catches(program, class, at, handler) {
            return Some(handler.at);
        }
    }
    None
}

fn handler_in(program: &Program, class: ClassId, at: u32, method: MethodId) -> Option<u32>
    ensures { result ≡ handler_in program.now class at (method_at program.now method) }
{
    match method_at(program, method) {
        Some(found) => handler_of(program, class, at, found.handlers.as_slice()),
        None => None,
    }
}

// The place of the instruction behind which a place stands.
fn call_place(code: &[(u32, Instr)], end: u32, place: u32) -> Option<u32>
    requires { Rising code.now }
    ensures { result ≡ call_place (stands_behind code.now end place) }
{
    for (at, entry) in code.iter().enumerate() {
        let found = instr_at(code, end, at);
        if found.1 == place {
            return Some(entry.0);
        }
    }
    None
}

// The place of the handler at which a frame goes on that stands behind its call.
fn handler_behind(program: &Program, class: ClassId, frame: &Frame) -> Option<u32>
    ensures { result ≡ handler_behind program.now class frame.now.method (call_in (method_at program.now frame.now.method) frame.now.pc) }
{
    let Some(method) = method_at(program, frame.method) else {
        return None;
    };
    code_rises(program, frame.method, method);
    match call_place(method.code.as_slice(), method.code_length, frame.pc) {
        Some(call) => handler_in(program, class, call, frame.method),
        None => None,
    }
}

// ---- frames

// Drops frames that stand behind their calls, up to the first that catches: the place of its handler.
fn unwind(program: &Program, class: ClassId, frames: &mut Frames) -> Option<u32>
    requires roomy { AreRoomy program.now frames.old }
    ensures roomy { AreRoomy program.now frames.new }
    ensures left { (v : AValue) → unwound program.now class v (calls_of frames.old) ≡ left_at result frames.new v }
{
    'frames: loop {
        let found = handler_behind(program, class, &frames.top);
        if found.is_some() {
            return found;
        }
        let Some(caller) = frames.below.pop() else {
            return None;
        };
        frames.top = caller;
    }
}

// The same, where the top frame stands at the instruction that raises or throws.
fn unwind_at(program: &Program, class: ClassId, frames: &mut Frames) -> Option<u32>
    requires roomy { AreRoomy program.now frames.old }
    ensures roomy { AreRoomy program.now frames.new }
    ensures left { (v : AValue) → thrown program.now class v (activation frames.old.top) (below_of frames.old) ≡ left_at result frames.new v }
{
    let found = handler_in(program, class, frames.top.pc, frames.top.method);
    if found.is_some() {
        return found;
    }
    let Some(caller) = frames.below.pop() else {
        return None;
    };
    frames.top = caller;
    unwind(program, class, frames)
}

// The top frame goes on at a handler, with the object alone on its stack.
fn land(
    alloc: Global,
    program: &Program,
    at: u32,
    object: u32,
    frames: &mut Frames,
) -> Result<(), NoMemory>
    requires roomy { AreRoomy program.now frames.old }
    ensures roomy { OnOk result (AreRoomy program.now frames.new) }
    ensures landed { OnOk result (calls_of frames.new ≡ left_at (Some at) frames.old (Ref object)) }
{
    let Ok(mut stack) = Stack::with_room(alloc, stack_room(program, frames.top.method)) else {
        return Err(NoMemory);
    };
    stack.push(Value::Ref(object));
    frames.top.stack = stack;
    frames.top.pc = at;
    Ok(())
}

/// What is thrown goes to the frame that catches it; whether one does. Where none does, no frame may be used any more.
pub fn throw(
    alloc: Global,
    program: &Program,
    class: ClassId,
    object: u32,
    frames: &mut Frames,
) -> Result<bool, NoMemory>
    requires roomy { AreRoomy program.now frames.old }
    ensures roomy { OnOk result (AreRoomy program.now frames.new) }
    ensures thrown { IfOk result (λ caught. IsThrown (thrown program.now class (Ref object) (activation frames.old.top) (below_of frames.old)) caught frames.new) }
{
    let Some(at) = unwind_at(program, class, frames) else {
        return Ok(false);
    };
    let Ok(()) = land(alloc, program, at, object, frames) else {
        return Err(NoMemory);
    };
    Ok(true)
}

// A new object of a class goes to a handler of the top frame.
fn land_new(
    alloc: Global,
    program: &Program,
    class: ClassId,
    at: u32,
    frames: &mut Frames,
    heap: &mut Heap,
) -> Result<u32, NoMemory>
    requires roomy { AreRoomy program.now frames.old }
    ensures roomy { OnOk result (AreRoomy program.now frames.new) }
    ensures made { IfOk result (λ name. (get heap.old name ≡ None) × (heap.new ≡ insert heap.old name (new_object program.now class)) × (calls_of frames.new ≡ left_at (Some at) frames.old (Ref name))) }
{
    let Ok(object) = new_object(alloc, program, class) else {
        return Err(NoMemory);
    };
    let Ok(name) = heap.add(object) else {
        return Err(NoMemory);
    };
    let Ok(()) = land(alloc, program, at, name, frames) else {
        return Err(NoMemory);
    };
    Ok(name)
}

/// What is raised by the instruction at which the top frame stands goes to the frame that catches it, as a new object of that class: its
/// name. Where none does, nothing is made, and no frame may be used any more.
pub fn raise_at(
    alloc: Global,
    program: &Program,
    class: Option<ClassId>,
    frames: &mut Frames,
    heap: &mut Heap,
) -> Result<Option<u32>, NoMemory>
    requires roomy { AreRoomy program.now frames.old }
    ensures roomy { OnOk result (AreRoomy program.now frames.new) }
    ensures raised { IfOk result (λ name. IsRaised program.now class (λ c v. thrown program.now c v (activation frames.old.top) (below_of frames.old)) name frames.new heap.old heap.new) }
{
    let Some(class) = class else {
        return Ok(None);
    };
    let Some(at) = unwind_at(program, class, frames) else {
        return Ok(None);
    };
    let Ok(name) = land_new(alloc, program, class, at, frames, heap) else {
        return Err(NoMemory);
    };
    Ok(Some(name))
}

/// The same of a built-in method that is handed out, with the frames as they wait for its answer.
pub fn raise_behind(
    alloc: Global,
    program: &Program,
    class: Option<ClassId>,
    frames: &mut Frames,
    heap: &mut Heap,
) -> Result<Option<u32>, NoMemory>
    requires roomy { AreRoomy program.now frames.old }
    ensures roomy { OnOk result (AreRoomy program.now frames.new) }
    ensures raised { IfOk result (λ name. IsRaised program.now class (λ c v. unwound program.now c v (answered frames.old)) name frames.new heap.old heap.new) }
{
    let Some(class) = class else {
        return Ok(None);
    };
    frames.top.pc = frames.next;
    let Some(at) = unwind(program, class, frames) else {
        return Ok(None);
    };
    let Ok(name) = land_new(alloc, program, class, at, frames, heap) else {
        return Err(NoMemory);
    };
    Ok(Some(name))
}

// ---- classes

fn is_virtual(code: &[(u32, Instr)], end: u32, place: u32) -> bool
    ensures { result ≡ is_virtual (fetched code.now end place) }
{
    let _ = end;
    for entry in code {
        if entry.0 == place {
            return match entry.1 {
                Instr::Invokevirtual(_) => true,
                _ => false,
            };
        }
    }
    false
}

/// The name of the class of an index that the instruction of a frame raises.
pub fn index_name(program: &Program, frame: &Frame) -> &'static [u8]
    ensures { result.now ≡ index_at program.now (activation frame.now) }
{
    let Some(method) = method_at(program, frame.method) else {
        return b"java/lang/ArrayIndexOutOfBoundsException";
    };
    if is_virtual(method.code.as_slice(), method.code_length, frame.pc) {
        b"java/lang/StringIndexOutOfBoundsException"
    } else {
        b"java/lang/ArrayIndexOutOfBoundsException"
    }
}

/// The class of what is raised for a cause, where the program has it; `index` is the name of that of an index.
pub fn raised_class(
    program: &Program,
    index: &[u8],
    cause: EndCause,
) -> Result<Option<ClassId>, NoMemory>
    ensures { IfOk result (λ found. found ≡ raised_class program.now index.now cause) }
{
    match cause {
        EndCause::Null => class_named(program, b"java/lang/NullPointerException"),
        EndCause::Index => class_named(program, index),
        EndCause::Size => class_named(program, b"java/lang/NegativeArraySizeException"),
        EndCause::Cast => class_named(program, b"java/lang/ClassCastException"),
        EndCause::Store => class_named(program, b"java/lang/ArrayStoreException"),
        EndCause::Zero => class_named(program, b"java/lang/ArithmeticException"),
        EndCause::Done
        | EndCause::Spent
        | EndCause::Depth
        | EndCause::Large
        | EndCause::Boxes
        | EndCause::Tasks
        | EndCause::Full
        | EndCause::Thrown => Ok(None),
    }
}
