//! What a fiber runs: its frames, or its records where it rests, its heap and its counts. It runs up to the next thing that it wants.

ghost use Rattle.std.specs.Prelude.{◌≡◌, ◌<◌, ◌+◌, ◌^◌, ◌∷◌, [], ℕ, None, Some, IfOk, OnOk};
ghost use Rattle.kilim_program.specs.declared.names.MethodId.{MethodId};
ghost use Rattle.kilim_program.specs.declared.value.Value.TheVariants as a_value;
ghost use Rattle.kilim_run_machine.specs.Moves.{entered};
ghost use Rattle.kilim_run_state.specs.frames.Calls.{calls_of};
ghost use Rattle.kilim_run_interp.specs.Step.{AreRoomy};
ghost use Rattle.kilim_run_model.specs.State.{Setting};
ghost use Rattle.kilim_fiber_spec.specs.Fibers.{executes_on, first_receiver};
ghost use Rattle.kilim_fiber_laws.specs.woven_kin.Nexts.{finish_next, opens_next, resumes_next, ticked};
ghost use Rattle.kilim_fiber_body.specs.Body.{standing_at, behind_at, RoomyIn, RoomIn};
ghost use Rattle.kilim_fiber_body.specs.Comes.{Comes, HasRoomFor, IsNear};
ghost use Rattle.kilim_fiber_body.specs.Steps.{ReceiverThere};

use crate::begin::{begun_on, frames_with, receiver_with_fiber};
use crate::code::Code;
use crate::pass::give;
use kilim_fiber_steps::records::Records;
use kilim_fiber_steps::records::natives::execute_of;
use kilim_program::{Base, BoxName, ClassId, MethodId, Program, Value};
use kilim_run_state::frames::Frames;
use kilim_run_state::{EndCause, Heap, Shape};
use kilim_run_trees::Tree;
use kilim_units::NoMemory;
use std::alloc::Global;

/// The most mailboxes that a task makes.
const MOST_BOXES: u32 = 1000;

/// A message that waits to be put, as its mailbox is full: its tree is out of the heap while the fiber rests.
#[derive(Drop)]
pub struct Apart {
    pub tree: Tree,
    pub shape: Shape,
}

/// What a fiber runs.
#[derive(Drop)]
pub struct Body {
    /// The frames; none where it rests, or where its `execute` is built in.
    pub frames: Option<Frames>,
    /// Its `execute` is built in.
    pub idle: bool,
    /// What it keeps of frames.
    pub records: Records,
    pub heap: Heap,
    /// How many instructions it has counted.
    pub count: u64,
    /// How many mailboxes it has made.
    pub boxes: u32,
    /// The object of task 0, until its `execute` begins.
    pub kept: Option<u32>,
    /// What waits to be put, beside the record of that call.
    pub apart: Option<Apart>,
}

/// What it comes to.
#[derive(Drop)]
pub enum Came {
    /// It goes on.
    On,
    Puts(BoxName, Tree, Shape),
    PutWaits(BoxName, Tree, Shape),
    Bounds(BoxName, u32),
    Takes(BoxName),
    Probes(BoxName),
    Starts(Tree, Shape),
    Prints(Shape),
    /// All frames are left, and what they need is in records.
    Rests,
    Ends(EndCause),
}

/// A new mailbox.
pub(crate) fn open(program: &Program, task: u32, counts: bool, body: &mut Body) -> Came
    requires roomy { RoomyIn program.now body.old.frames }
    requires room { RoomIn program.now body.old.frames }
    requires counts { body.old.count + 1 < 2 ^ 64 }
    ensures comes { Comes 0 (opens_next task counts (behind_at 0 body.old)) body.new result }
    ensures roomy { RoomyIn program.now body.new.frames }
    ensures counted { IsNear body.old.count body.new.count }
    ensures room { HasRoomFor program.now body.new result }
{
    if body.boxes >= MOST_BOXES {
        return Came::Ends(EndCause::Boxes);
    }
    let Some(frames) = &mut body.frames else {
        unreachable!()
    };
    let name = BoxName {
        task,
        number: body.boxes,
    };
    give(program, frames, Value::Box(name));
    body.boxes += 1;
    tick(counts, body);
    Came::On
}

// An instruction was done.
fn tick(counts: bool, body: &mut Body)
    requires { body.old.count + 1 < 2 ^ 64 }
    ensures frames { body.new.frames ≡ body.old.frames }
    ensures stands { (x : ℕ) → standing_at x body.new ≡ ticked counts (standing_at x body.old) }
    ensures counted { IsNear body.old.count body.new.count }
{
    if counts {
        body.count += 1;
    }
}

/// The last frame returns: the fiber rests, or the task is done, or the `execute` of task 0 begins.
pub(crate) fn leave(
    alloc: Global,
    program: &Program,
    main: ClassId,
    body: &mut Body,
) -> Result<Came, NoMemory>
    requires roomy { RoomyIn program.now body.old.frames }
    requires counts { body.old.count + 1 < 2 ^ 64 }
    ensures comes { (set : Setting) → set.main ≡ main → IfOk result (λ came. Comes 0 (finish_next set program.now (standing_at 0 body.old) body.old.kept) body.new came) }
    ensures roomy { OnOk result (RoomyIn program.now body.new.frames) }
    ensures counted { OnOk result (IsNear body.old.count body.new.count) }
    ensures room { IfOk result (λ came. HasRoomFor program.now body.new came) }
{
    let Some(name) = body.kept else {
        return Ok(left(program, body));
    };
    let method = execute_of(program, main);
    match begun_on(alloc, program, method, name) {
        Ok(None) => Ok(Came::Ends(EndCause::Done)),
        Ok(Some(frames)) => {
            stand_at(frames, body);
            body.kept = None;
            body.count += 1;
            Ok(Came::On)
        }
        Err(fault) => Err(fault),
    }
}

// The last frame of `execute` returns.
fn left(program: &Program, body: &mut Body) -> Came
    requires roomy { RoomyIn program.now body.old.frames }
    ensures comes { (set : Setting) → Comes 0 (finish_next set program.now (standing_at 0 body.old) None) body.new result }
    ensures roomy { RoomyIn program.now body.new.frames }
    ensures counted { IsNear body.old.count body.new.count }
    ensures room { HasRoomFor program.now body.new result }
{
    let _ = program;
    if body.records.is_pausing() {
        body.frames = None;
        Came::Rests
    } else {
        Came::Ends(EndCause::Done)
    }
}

// The method `execute` of the object that a receiver is.
fn execute_for(code: &Code, heap: &Heap, receiver: &Value) -> MethodId
    requires there { ReceiverThere heap.now receiver.now }
    requires made { executes_on code.now.program heap.now receiver.now ≡ None → ⊥ }
    ensures { executes_on code.now.program heap.now receiver.now ≡ Some result }
{
    let Value::Ref(name) = receiver else {
        unreachable!()
    };
    let Base::Class(class) = heap.class(*name).base else {
        unreachable!()
    };
    let Some(method) = code.execute(class) else {
        unreachable!()
    };
    method
}

// The frames of the method `execute` of a receiver, which is handed the fiber.
fn execute_frames(
    alloc: Global,
    code: &Code,
    heap: &Heap,
    receiver: Value,
) -> Result<Frames, NoMemory>
    requires there { ReceiverThere heap.now receiver }
    requires made { executes_on code.now.program heap.now receiver ≡ None → ⊥ }
    ensures frames { IfOk result (λ frames. (method : MethodId) × (executes_on code.now.program heap.now receiver ≡ Some method) × (calls_of frames ≡ entered code.now.program method (receiver ∷ a_value.Fiber ∷ []) ∷ [])) }
    ensures roomy { IfOk result (λ frames. AreRoomy code.now.program frames) }
{
    let method = execute_for(code, heap, &receiver);
    let Ok(args) = receiver_with_fiber(alloc, receiver) else {
        return Err(NoMemory);
    };
    frames_with(alloc, &code.program, method, args)
}

// It stands at these frames.
fn stand_at(frames: Frames, body: &mut Body)
    ensures { body.new ≡ record body.old { frames = Some frames } }
{
    body.frames = Some(frames);
}

/// Where it rests it goes on with `execute`, and rewinds.
pub(crate) fn rewind(alloc: Global, code: &Code, body: &mut Body) -> Result<Came, NoMemory>
    requires there { ReceiverThere body.old.heap (first_receiver body.old.records) }
    requires made { executes_on code.now.program body.old.heap (first_receiver body.old.records) ≡ None → ⊥ }
    ensures comes { IfOk result (λ came. Comes 0 (resumes_next code.now.program (standing_at 0 body.old) (executes_on code.now.program body.old.heap (first_receiver body.old.records))) body.new came) }
    ensures roomy { OnOk result (RoomyIn code.now.program body.new.frames) }
    ensures counted { OnOk result (IsNear body.old.count body.new.count) }
    ensures room { IfOk result (λ came. HasRoomFor code.now.program body.new came) }
{
    let Ok(receiver) = body.records.first_receiver() else {
        return Err(NoMemory);
    };
    let Ok(frames) = execute_frames(alloc, code, &body.heap, receiver) else {
        return Err(NoMemory);
    };
    stand_at(frames, body);
    body.records.resume();
    Ok(Came::On)
}
