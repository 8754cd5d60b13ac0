//! One instruction of a task.

ghost use Rattle.std.specs.Prelude.{◌≡◌, ◌<◌, ◌≤◌, ◌∷◌, ℕ, length, take, drop, reverse, map, Some, None, IfOk, OnOk, nat_le};
ghost use Rattle.kilim_run_state.specs.Machine.{Objects};
ghost use Rattle.kilim_run_machine.specs.Does.{narrowed_result};
ghost use Rattle.kilim_program.specs.Names.{method_at};
ghost use Rattle.kilim_run_machine.specs.Moves.{Asks, called, entered, goes_on, move_by, returned, slots_in};
ghost use Rattle.kilim_run_state.specs.frames.Calls.{activation, below_of, calls_of};
ghost use Rattle.kilim_run_rows.specs.Outcome.{Shows, returned_by};
ghost use Rattle.kilim_run_rows.specs.declared.outcome.Moved.TheVariants.{Asked};
ghost use Rattle.kilim_program.specs.Program.{Program as AProgram};
ghost use Rattle.kilim_program.specs.declared.class.Method.{Method as AMethod};
ghost use Rattle.kilim_program.specs.declared.names.MethodId.{MethodId as AMethodId};
ghost use Rattle.kilim_run_interp.specs.declared.machine.Stepped.TheVariants.{AtNative};
ghost use Rattle.kilim_run_interp.specs.Step.{AreRoomy, CallerFits, CanSettle, IsRoomy, Steps, stack_limit};
ghost use Rattle.kilim_run_machine.specs.Effect.{Effect};
ghost use Rattle.kilim_run_state.specs.declared.frames.frame.Frame.{Frame as AFrame};

use kilim_program::lookups::method_at;
use kilim_program::{ClassId, Method, MethodId, Program, Value};
use kilim_run_rows::{Moved, narrowed};
use kilim_run_state::EndCause;
use kilim_run_state::frames::{Frame, Frames, Locals, Stack};
use kilim_units::{NoMemory, Seq};
use std::alloc::Global;

/// The most frames of a task.
pub const MOST_FRAMES: usize = 512;

/// A call of a built-in method that is handed out. The receiver is the first argument.
#[derive(Drop)]
pub struct NativeCall {
    pub method: MethodId,
    pub args: Seq<Value>,
}

/// What came of a step.
#[derive(Drop)]
pub enum Stepped {
    /// The task goes on.
    Went,
    /// It wants a new mailbox. Nothing was changed.
    NewBox,
    /// It calls a built-in method that is handed out. Nothing was changed.
    AtNative(NativeCall),
    /// The last frame returns. Nothing was changed.
    Returned,
    /// Something is wrong with a value. Nothing was changed but the operands of the top frame.
    Raised(EndCause),
    /// An object of that class is thrown. Where nothing catches it, the task ends with the cause. Nothing was changed but the operands of
    /// the top frame.
    Thrown(u32, ClassId, EndCause),
    /// The task ends. No frame was changed.
    Ended(EndCause),
}

fn slots_of_method(program: &Program, id: MethodId) -> (usize, usize)
    ensures slots { result.0 ≡ slots_in (method_at program.now id) }
    ensures limit { result.1 ≡ stack_limit program.now id }
{
    match method_at(program, id) {
        Some(method) => (
            usize::from(method.max_locals),
            usize::from(method.max_stack),
        ),
        None => (0, 0),
    }
}

// Room for what a method may have on its stack, and for one value at least: what is caught.
pub(crate) fn stack_room(program: &Program, id: MethodId) -> usize
    ensures some { 0 < result }
    ensures limit { stack_limit program.now id ≤ result }
{
    match method_at(program, id) {
        Some(method) => usize::from(method.max_stack).max(1),
        None => 1,
    }
}

/// The frame with which a method begins.
pub fn new_frame(
    alloc: Global,
    program: &Program,
    id: MethodId,
    args: Vec<Value>,
) -> Result<Frame, NoMemory>
    ensures frame { IfOk result (λ frame. activation frame ≡ entered program.now id args.items) }
    ensures roomy { IfOk result (λ frame. IsRoomy program.now frame) }
{
    let (slots, room) = slots_of_method(program, id);
    let Ok(locals) = Locals::of_arguments(alloc, args, slots) else {
        return Err(NoMemory);
    };
    let Ok(stack) = Stack::with_room(alloc, room) else {
        return Err(NoMemory);
    };
    Ok(Frame {
        method: id,
        pc: 0,
        locals,
        stack,
    })
}

// Whether there are as many frames as there may be.
fn is_full(frames: &Frames) -> bool
    ensures { result ≡ nat_le 511 (length frames.now.below) }
{
    frames.below.len() >= MOST_FRAMES - 1
}

// A call of a method with code: its frame, or the end where there would be too many.
fn enter(
    alloc: Global,
    program: &Program,
    id: MethodId,
    count: usize,
    next: u32,
    frames: &mut Frames,
) -> Result<Stepped, NoMemory>
    requires count { count ≤ length frames.old.top.stack.values }
    requires roomy { AreRoomy program.now frames.old }
    ensures roomy { OnOk result (AreRoomy program.now frames.new) }
    ensures steps { (heap : Objects) → IfOk result (λ stepped. Steps (called program.now id (reverse (take count frames.old.top.stack.values)) (goes_on (activation frames.old.top) next frames.old.top.locals (drop count frames.old.top.stack.values) ∷ below_of frames.old) heap) stepped (calls_of frames.old) frames.new heap heap) }
{
    if is_full(frames) {
        return Ok(Stepped::Ended(EndCause::Depth));
    }
    let Ok(()) = put_on(alloc, program, id, count, next, frames) else {
        return Err(NoMemory);
    };
    Ok(Stepped::Went)
}

// Puts the frame on top with which a method begins. The one that was there has so many values less on its stack, the arguments, and goes on at
// a place.
fn put_on(
    alloc: Global,
    program: &Program,
    id: MethodId,
    count: usize,
    next: u32,
    frames: &mut Frames,
) -> Result<(), NoMemory>
    requires count { count ≤ length frames.old.top.stack.values }
    requires roomy { AreRoomy program.now frames.old }
    ensures roomy { OnOk result (AreRoomy program.now frames.new) }
    ensures calls { OnOk result (calls_of frames.new ≡ entered program.now id (reverse (take count frames.old.top.stack.values)) ∷ goes_on (activation frames.old.top) next frames.old.top.locals (drop count frames.old.top.stack.values) ∷ below_of frames.old) }
{
    let (slots, room) = slots_of_method(program, id);
    let Ok(()) = frames
        .below
        .call(alloc, &mut frames.top, id, count, slots, room, next)
    else {
        return Err(NoMemory);
    };
    Ok(())
}

/// Keeps in the frames how they go on behind a call of a built-in method that is handed out: with so many
/// arguments off the stack, at the place behind. Nothing else is changed, and it takes no memory.
#[inline(always)]
pub fn await_answer(count: usize, next: u32, frames: &mut Frames)
    ensures kept { frames.new ≡ record frames.old { operands = count; next = next } }
    ensures steps { (program : AProgram) (own : AMethod) (id : AMethodId) (e : Effect) (before : AFrame) (h k : Objects) → Shows own e next (Asked id count) before frames.old.top h k → before.method ≡ frames.old.top.method → Steps (move_by program e (activation before) (below_of frames.old)) (AtNative (record { method = id; args = reverse (take count frames.old.top.stack.values) })) (activation before ∷ below_of frames.old) frames.new h k }
{
    frames.operands = count;
    frames.next = next;
}

// A call of a built-in method that is handed out, with so many values on top of the stack as arguments.
fn hand_out(
    alloc: Global,
    id: MethodId,
    count: usize,
    next: u32,
    frames: &mut Frames,
) -> Result<Stepped, NoMemory>
    requires { count ≤ length frames.old.top.stack.values }
    ensures same { (frames.new.top ≡ frames.old.top) × (frames.new.below ≡ frames.old.below) }
    ensures steps { (heap : Objects) → IfOk result (λ stepped. Steps (Asks id (reverse (take count frames.old.top.stack.values)) (goes_on (activation frames.old.top) next frames.old.top.locals (drop count frames.old.top.stack.values) ∷ below_of frames.old) heap) stepped (calls_of frames.old) frames.new heap heap) }
{
    await_answer(count, next, frames);
    let Ok(args) = frames.top.stack.last(alloc, count) else {
        return Err(NoMemory);
    };
    Ok(Stepped::AtNative(NativeCall {
        method: id,
        args: Seq::from_vec(args),
    }))
}

// A return of nothing.
fn leave(program: &Program, frames: &mut Frames) -> Stepped
    requires { AreRoomy program.now frames.old }
    ensures roomy { AreRoomy program.now frames.new }
    ensures steps { (heap : Objects) → Steps (returned None (below_of frames.old) heap) result (calls_of frames.old) frames.new heap heap }
{
    if frames.below.go_back(&mut frames.top) {
        Stepped::Went
    } else {
        Stepped::Returned
    }
}

fn top_value(frame: &mut Frame) -> Value
    requires { 0 < length frame.old.stack.values }
    ensures { frame.old.stack.values ≡ result ∷ frame.new.stack.values }
{
    frame.stack.pop()
}

fn push_on(program: &Program, frame: &mut Frame, value: Value)
    requires fits { length frame.old.stack.values < stack_limit program.now frame.old.method }
    requires roomy { IsRoomy program.now frame.old }
    ensures roomy { IsRoomy program.now frame.new }
    ensures frame { activation frame.new ≡ record (activation frame.old) { stack = value ∷ frame.old.stack.values } }
{
    frame.stack.push(value);
}

// A return of the topmost value.
fn leave_with(program: &Program, own: &Method, frames: &mut Frames) -> Stepped
    requires there { 0 < length frames.old.top.stack.values }
    requires fits { CallerFits program.now (below_of frames.old) }
    requires roomy { AreRoomy program.now frames.old }
    ensures roomy { AreRoomy program.now frames.new }
    ensures steps { (heap : Objects) → Steps (returned (returned_by own.now frames.old.top.stack.values) (below_of frames.old) heap) result (calls_of frames.old) frames.new heap heap }
{
    if frames.below.len() == 0 {
        return Stepped::Returned;
    }
    let value = narrowed_result(own, top_value(&mut frames.top));
    if !frames.below.go_back(&mut frames.top) {
        unreachable!()
    }
    push_on(program, &mut frames.top, value);
    Stepped::Went
}

fn narrowed_result(own: &Method, value: Value) -> Value
    ensures { result ≡ narrowed_result own.now.result value }
{
    match &own.result {
        Some(ty) => narrowed(ty, value),
        None => value,
    }
}

/// What an outcome makes of the frames, with the place behind the instruction.
pub fn settle(
    alloc: Global,
    program: &Program,
    own: &Method,
    moved: Moved,
    next: u32,
    frames: &mut Frames,
) -> Result<Stepped, NoMemory>
    requires can { CanSettle program.now moved frames.old }
    requires roomy { AreRoomy program.now frames.old }
    ensures roomy { OnOk result (AreRoomy program.now frames.new) }
    ensures steps { (e : Effect) (before : AFrame) (h k : Objects) → Shows own.now e next moved before frames.old.top h k → before.method ≡ frames.old.top.method → IfOk result (λ stepped. Steps (move_by program.now e (activation before) (below_of frames.old)) stepped (activation before ∷ below_of frames.old) frames.new h k) }
{
    match moved {
        Moved::Next => {
            frames.top.pc = next;
            Ok(Stepped::Went)
        }
        Moved::Made(at) => {
            let _name = at;
            frames.top.pc = next;
            Ok(Stepped::Went)
        }
        Moved::Jump(to) => {
            frames.top.pc = to;
            Ok(Stepped::Went)
        }
        Moved::Opened => {
            frames.operands = 0;
            frames.next = next;
            Ok(Stepped::NewBox)
        }
        Moved::Called(id, count) => enter(alloc, program, id, count, next, frames),
        Moved::Asked(id, count) => hand_out(alloc, id, count, next, frames),
        Moved::Returned => Ok(leave(program, frames)),
        Moved::ReturnedValue => Ok(leave_with(program, own, frames)),
        Moved::Raised(cause) => Ok(Stepped::Raised(cause)),
        Moved::Thrown(at, class, cause) => Ok(Stepped::Thrown(at, class, cause)),
        Moved::Ended(cause) => Ok(Stepped::Ended(cause)),
        Moved::NoMemory => Err(NoMemory),
    }
}
