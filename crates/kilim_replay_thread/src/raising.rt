//! What a task raises or throws: it goes on at the handler of the frame that catches it, or ends.

ghost use Rattle.std.specs.Prelude.{◌≡◌, ◌<◌, ◌+◌, ◌^◌, IfOk, OnOk};
ghost use Rattle.kilim_run_model.specs.Lone.{raised};
ghost use Rattle.kilim_run_state.specs.frames.Calls.{activation, answered, below_of};
ghost use Rattle.kilim_run_machine.specs.Raising.{index_at, other_index, raised_class, thrown, unwound};
ghost use Rattle.kilim_run_interp.specs.Catching.{IsRaised};
ghost use Rattle.kilim_run_interp.specs.Step.{AreRoomy};
ghost use Rattle.kilim_replay_thread.specs.Comes.{Comes, IsNear, IsOnOrEnd};
ghost use Rattle.kilim_replay_thread.specs.Live.{HasFrames, RoomyIn, behind_at, calls_in, lone_at};
ghost use Rattle.kilim_replay_thread.specs.Raises.{raised_at, thrown_at};

use crate::task::{Came, Live, World};
use kilim_program::{ClassId, Program};
use kilim_run_interp::{index_name, raise_at, raise_behind, raised_class, throw};
use kilim_run_state::frames::Frames;
use kilim_run_state::{EndCause, Heap};
use kilim_units::{NoMemory, unmet};
use std::alloc::Global;

/// An object is thrown: it goes to the frame that catches it, or ends the task.
pub fn throw_on(
    alloc: Global,
    program: &Program,
    object: u32,
    class: ClassId,
    cause: EndCause,
    task: u32,
    world: &World,
    live: &mut Live,
) -> Result<Came, NoMemory>
    requires frames { HasFrames live.old.frames }
    requires roomy { RoomyIn program.now live.old.frames }
    requires counts { live.old.done + 1 < 2 ^ 64 }
    ensures comes { IfOk result (λ came. Comes task (thrown_at program.now (lone_at task world.now live.old) (calls_in live.old.frames) live.old.done live.old.boxes object class cause) world.now live.old world.now live.new came) }
    ensures ends { IfOk result IsOnOrEnd }
    ensures roomy { OnOk result (RoomyIn program.now live.new.frames) }
    ensures counted { OnOk result (IsNear live.old.done live.new.done) }
{
    let _ = task;
    let _ = world;
    let Some(frames) = &mut live.frames else {
        unreachable!()
    };
    let Ok(caught) = throw(alloc, program, class, object, frames) else {
        return Err(NoMemory);
    };
    if caught {
        live.done += 1;
        Ok(Came::On)
    } else {
        Ok(Came::Ends(cause))
    }
}

// What is raised at the instruction goes to the frame that catches it, as a new object: its name.
fn raise_in(
    alloc: Global,
    program: &Program,
    cause: EndCause,
    frames: &mut Frames,
    heap: &mut Heap,
) -> Result<Option<u32>, NoMemory>
    requires { AreRoomy program.now frames.old }
    ensures roomy { OnOk result (AreRoomy program.now frames.new) }
    ensures raised { IfOk result (λ name. IsRaised program.now (raised_class program.now (index_at program.now (activation frames.old.top)) cause) (λ c v. thrown program.now c v (activation frames.old.top) (below_of frames.old)) name frames.new heap.old heap.new) }
{
    let index = index_name(program, &frames.top);
    let Ok(class) = raised_class(program, index, cause) else {
        return Err(NoMemory);
    };
    raise_at(alloc, program, class, frames, heap)
}

/// The task goes on at the handler of what its instruction raises, or ends.
pub fn raise_on(
    alloc: Global,
    program: &Program,
    cause: EndCause,
    task: u32,
    world: &mut World,
    live: &mut Live,
) -> Result<Came, NoMemory>
    requires frames { HasFrames live.old.frames }
    requires roomy { RoomyIn program.now live.old.frames }
    requires counts { live.old.done + 1 < 2 ^ 64 }
    ensures comes { IfOk result (λ came. Comes task (raised_at program.now (lone_at task world.old live.old) (calls_in live.old.frames) live.old.done live.old.boxes cause) world.old live.old world.new live.new came) }
    ensures ends { IfOk result IsOnOrEnd }
    ensures roomy { OnOk result (RoomyIn program.now live.new.frames) }
    ensures counted { OnOk result (IsNear live.old.done live.new.done) }
    ensures kept { OnOk result (world.new.kept ≡ world.old.kept) }
{
    let _ = task;
    let Some(frames) = &mut live.frames else {
        unreachable!()
    };
    let Ok(caught) = raise_in(alloc, program, cause, frames, &mut world.heap) else {
        return Err(NoMemory);
    };
    match caught {
        Some(name) => {
            if name != world.next || name == u32::MAX {
                // unmet: the n-th object that a run makes is at the n-th place
                return Err(unmet());
            }
            world.next = name + 1;
            live.done += 1;
            Ok(Came::On)
        }
        None => Ok(Came::Ends(cause)),
    }
}

// What is raised by a built-in method that was handed out goes to the frame that catches it, as a new object: its name.
fn raise_past(
    alloc: Global,
    program: &Program,
    cause: EndCause,
    frames: &mut Frames,
    heap: &mut Heap,
) -> Result<Option<u32>, NoMemory>
    requires { AreRoomy program.now frames.old }
    ensures roomy { OnOk result (AreRoomy program.now frames.new) }
    ensures raised { IfOk result (λ name. IsRaised program.now (raised_class program.now other_index cause) (λ c v. unwound program.now c v (answered frames.old)) name frames.new heap.old heap.new) }
{
    let Ok(class) = raised_class(program, b"java/lang/IndexOutOfBoundsException", cause) else {
        return Err(NoMemory);
    };
    raise_behind(alloc, program, class, frames, heap)
}

/// The task goes on at the handler of what a built-in method that was handed out raises, or ends.
pub fn raise_called(
    alloc: Global,
    program: &Program,
    cause: EndCause,
    task: u32,
    world: &mut World,
    live: &mut Live,
) -> Result<Came, NoMemory>
    requires frames { HasFrames live.old.frames }
    requires roomy { RoomyIn program.now live.old.frames }
    requires counts { live.old.done + 1 < 2 ^ 64 }
    ensures comes { IfOk result (λ came. Comes task (raised program.now (behind_at task world.old live.old) cause) world.old live.old world.new live.new came) }
    ensures ends { IfOk result IsOnOrEnd }
    ensures roomy { OnOk result (RoomyIn program.now live.new.frames) }
    ensures counted { OnOk result (IsNear live.old.done live.new.done) }
    ensures kept { OnOk result (world.new.kept ≡ world.old.kept) }
{
    let _ = task;
    let Some(frames) = &mut live.frames else {
        unreachable!()
    };
    let Ok(caught) = raise_past(alloc, program, cause, frames, &mut world.heap) else {
        return Err(NoMemory);
    };
    match caught {
        Some(name) => {
            if name != world.next || name == u32::MAX {
                // unmet: the n-th object that a run makes is at the n-th place
                return Err(unmet());
            }
            world.next = name + 1;
            live.done += 1;
            Ok(Came::On)
        }
        None => Ok(Came::Ends(cause)),
    }
}
