//! The frames with which a method of a task begins.

ghost use Rattle.std.specs.Prelude.{◌≡◌, ◌∷◌, [], Some, IfOk};
ghost use Rattle.kilim_program.specs.declared.value.Value.TheVariants as a_value;
ghost use Rattle.kilim_run_machine.specs.Moves.{entered};
ghost use Rattle.kilim_run_state.specs.frames.Calls.{calls_of};
ghost use Rattle.kilim_run_interp.specs.Step.{AreRoomy};
ghost use Rattle.kilim_fiber_laws.specs.woven_kin.Nexts.{begun_with};
ghost use Rattle.kilim_fiber_body.specs.Body.{calls_in, RoomyIn};

use kilim_program::lookups::method_at;
use kilim_program::{MethodId, Program, Value};
use kilim_run_interp::new_frame;
use kilim_run_state::frames::{Callers, Frames};
use kilim_units::{NoMemory, unmet};
use std::alloc::Global;

/// The frames with which a method with code begins.
pub fn frames_with(
    alloc: Global,
    program: &Program,
    id: MethodId,
    args: Vec<Value>,
) -> Result<Frames, NoMemory>
    ensures frames { IfOk result (λ frames. calls_of frames ≡ entered program.now id args.items ∷ []) }
    ensures roomy { IfOk result (λ frames. AreRoomy program.now frames) }
{
    let Ok(top) = new_frame(alloc, program, id, args) else {
        return Err(NoMemory);
    };
    Ok(Frames {
        top,
        below: Callers::new(alloc),
        operands: 0,
        next: 0,
    })
}

/// The arguments of an `execute` in woven form: the receiver, and the fiber.
pub fn receiver_with_fiber(alloc: Global, receiver: Value) -> Result<Vec<Value>, NoMemory>
    ensures { IfOk result (λ args. args.items ≡ receiver ∷ a_value.Fiber ∷ []) }
{
    let mut args = Vec::new(alloc);
    let Ok(()) = args.push(receiver) else {
        return Err(NoMemory);
    };
    let Ok(()) = args.push(Value::Fiber) else {
        return Err(NoMemory);
    };
    Ok(args)
}

/// The frames with which a method begins: none where it is built in. Where there is no method, which no verified program
/// meets, the answer is want of memory.
pub fn begun_with(
    alloc: Global,
    program: &Program,
    id: Option<MethodId>,
    args: Vec<Value>,
) -> Result<Option<Frames>, NoMemory>
    ensures frames { IfOk result (λ frames. begun_with program.now id args.items ≡ Some (calls_in frames)) }
    ensures roomy { IfOk result (λ frames. RoomyIn program.now frames) }
{
    let Some(id) = id else {
        // unmet: a fit main class has a constructor, and a task class an `execute`
        return Err(unmet());
    };
    let Some(method) = method_at(program, id) else {
        // unmet: members of a program name methods of it
        return Err(unmet());
    };
    if method.built_in {
        return Ok(None);
    }
    match frames_with(alloc, program, id, args) {
        Ok(frames) => Ok(Some(frames)),
        Err(fault) => Err(fault),
    }
}

/// The same of an `execute` in woven form, on the object with that name.
pub fn begun_on(
    alloc: Global,
    program: &Program,
    id: Option<MethodId>,
    object: u32,
) -> Result<Option<Frames>, NoMemory>
    ensures frames { IfOk result (λ frames. begun_with program.now id (a_value.Ref object ∷ a_value.Fiber ∷ []) ≡ Some (calls_in frames)) }
    ensures roomy { IfOk result (λ frames. RoomyIn program.now frames) }
{
    let Ok(args) = receiver_with_fiber(alloc, Value::Ref(object)) else {
        return Err(NoMemory);
    };
    begun_with(alloc, program, id, args)
}
