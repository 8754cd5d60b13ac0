//! The frames with which a task begins, and what all tasks share at first.

ghost use Rattle.std.specs.Prelude.{◌≡◌, ◌∷◌, [], true, Some, None, IfOk};
ghost use Rattle.kilim_program.specs.Members.{is_fit_main};
ghost use Rattle.kilim_program.specs.declared.value.Value.TheVariants.{Ref};
ghost use Rattle.kilim_run_machine.specs.Moves.{entered};
ghost use Rattle.kilim_run_state.specs.Words.{IsThere};
ghost use Rattle.kilim_run_state.specs.frames.Calls.{calls_of};
ghost use Rattle.kilim_run_model.specs.State.{begun_on, execute_frames};
ghost use Rattle.kilim_run_interp.specs.Step.{AreRoomy};
ghost use Rattle.kilim_replay_thread.specs.Begins.{Boots};
ghost use Rattle.kilim_replay_thread.specs.Comes.{CanBegin};
ghost use Rattle.kilim_replay_thread.specs.Live.{calls_in, RoomyIn};

use crate::task::{Live, World};
use kilim_fiber_steps::records::natives::execute_of;
use kilim_program::lookups::method_at;
use kilim_program::main_class::constructor_of;
use kilim_program::{Base, ClassId, MethodId, Program, Value};
use kilim_run_interp::instruction::new_object;
use kilim_run_interp::new_frame;
use kilim_run_state::Heap;
use kilim_run_state::frames::{Callers, Frames};
use kilim_units::{NoMemory, unmet};
use std::alloc::Global;

// The frames with which a method with code begins on an object.
fn frames_of(alloc: Global, program: &Program, id: MethodId, name: u32) -> Result<Frames, NoMemory>
    ensures frames { IfOk result (λ frames. calls_of frames ≡ entered program.now id (Ref name ∷ []) ∷ []) }
    ensures roomy { IfOk result (λ frames. AreRoomy program.now frames) }
{
    let mut args = Vec::new(alloc);
    let Ok(()) = args.push(Value::Ref(name)) else {
        return Err(NoMemory);
    };
    let Ok(top) = new_frame(alloc, program, id, args) else {
        return Err(NoMemory);
    };
    Ok(Frames {
        top,
        below: Callers::new(alloc),
        operands: 0,
        next: 0,
    })
}

/// The frames with which a method begins on an object: none where it is built in.
pub fn begun_on(
    alloc: Global,
    program: &Program,
    id: Option<MethodId>,
    name: u32,
) -> Result<Option<Frames>, NoMemory>
    requires { begun_on program.now id name ≡ None → ⊥ }
    ensures frames { IfOk result (λ frames. begun_on program.now id name ≡ Some (calls_in frames)) }
    ensures roomy { IfOk result (λ frames. RoomyIn program.now frames) }
{
    let Some(id) = id else { unreachable!() };
    let Some(method) = method_at(program, id) else {
        unreachable!()
    };
    if method.built_in {
        return Ok(None);
    }
    match frames_of(alloc, program, id, name) {
        Ok(frames) => Ok(Some(frames)),
        Err(fault) => Err(fault),
    }
}

/// The frames with which the `execute` of a task object begins: none where it is built in.
pub fn task_frames(
    alloc: Global,
    program: &Program,
    heap: &Heap,
    name: u32,
) -> Result<Option<Frames>, NoMemory>
    requires there { IsThere heap.now name }
    requires begins { CanBegin program.now heap.now name }
    ensures frames { IfOk result (λ frames. execute_frames program.now heap.now name ≡ Some (calls_in frames)) }
    ensures roomy { IfOk result (λ frames. RoomyIn program.now frames) }
{
    let object = heap.object(name);
    let Base::Class(class) = object.class.base else {
        unreachable!()
    };
    begun_on(alloc, program, execute_of(program, class), name)
}

/// What all tasks share at first, one new object of the main class, and task 0 at the beginning of its constructor.
pub fn first_world(
    alloc: Global,
    program: &Program,
    main: ClassId,
) -> Result<(World, Live), NoMemory>
    requires { is_fit_main program.now main ≡ true }
    ensures { IfOk result (λ first. Boots program.now main first.0 first.1) }
{
    let Ok(object) = new_object(alloc, program, main) else {
        return Err(NoMemory);
    };
    let mut heap = Heap::new(alloc);
    let Ok(root) = heap.add(object) else {
        return Err(NoMemory);
    };
    if root != 0 {
        // unmet: the first place of an empty heap is 0
        return Err(unmet());
    }
    let Ok(frames) = begun_on(alloc, program, constructor_of(program, main), root) else {
        return Err(NoMemory);
    };
    let world = World {
        heap,
        next: 1,
        kept: Some(root),
    };
    let live = Live {
        frames,
        done: 0,
        boxes: 0,
    };
    Ok((world, live))
}
