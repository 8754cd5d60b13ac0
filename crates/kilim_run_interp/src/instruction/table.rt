//! The table of instructions, in code: those that call or make something, and one that has all of them.

ghost use Rattle.std.specs.Prelude.{◌≡◌, ◌≤◌, true, false};
ghost use Rattle.kilim_run_machine.specs.Does.{does};
ghost use Rattle.kilim_run_rows.specs.Outcome.{is_stuck, height, Shows, SameFrame};
ghost use Rattle.kilim_run_interp.specs.instruction.Near.{is_far};

use crate::instruction::calls::{call_special, call_static, call_virtual};
use crate::instruction::making::{make_object, make_primitive_array, make_reference_array};
use crate::instruction::near::act_near;
use kilim_program::{Instr, Method, Program};
use kilim_run_rows::Moved;
use kilim_run_state::Heap;
use kilim_run_state::frames::Frame;
use std::alloc::Global;

// One instruction of a frame that calls or makes something: a line for each.
#[tactic(auto, unfolding(kilim_run_machine::specs::Does::does))]
fn act_far(
    alloc: Global,
    instr: &Instr,
    program: &Program,
    own: &Method,
    next: u32,
    frame: &mut Frame,
    heap: &mut Heap,
) -> Moved
    requires far { is_far instr.now ≡ true }
    requires fine { is_stuck (does program.now own.now instr.now next frame.old.locals frame.old.stack.values heap.old) ≡ false }
    requires room { height (does program.now own.now instr.now next frame.old.locals frame.old.stack.values heap.old) ≤ frame.old.stack.room }
    ensures step { Shows own.now (does program.now own.now instr.now next frame.old.locals frame.old.stack.values heap.old) next result frame.old frame.new heap.old heap.new }
    ensures same { SameFrame frame.old frame.new }
{
    match *instr {
        Instr::Invokevirtual(method) => call_virtual(method, program, own, next, frame, heap),
        Instr::Invokespecial(method) => call_special(method, program, own, next, frame, heap),
        Instr::Invokestatic(method) => call_static(method, program, own, next, frame, heap),
        Instr::New(class) => make_object(alloc, class, program, own, next, frame, heap),
        Instr::Newarray(base) => make_primitive_array(alloc, base, program, own, next, frame, heap),
        Instr::Anewarray(ref ty) => make_reference_array(
            alloc, ty, program, own, next, frame, heap,
        ),
        _ => unreachable!(),
    }
}

// The caller of `act_near` that does one instruction.
struct Alone;

/// One instruction of a frame.
pub fn act(
    alloc: Global,
    instr: &Instr,
    program: &Program,
    own: &Method,
    next: u32,
    frame: &mut Frame,
    heap: &mut Heap,
) -> Moved
    requires fine { is_stuck (does program.now own.now instr.now next frame.old.locals frame.old.stack.values heap.old) ≡ false }
    requires room { height (does program.now own.now instr.now next frame.old.locals frame.old.stack.values heap.old) ≤ frame.old.stack.room }
    ensures step { Shows own.now (does program.now own.now instr.now next frame.old.locals frame.old.stack.values heap.old) next result frame.old frame.new heap.old heap.new }
    ensures same { SameFrame frame.old frame.new }
{
    match act_near::<Alone>(instr, program, own, next, frame, heap) {
        Some(moved) => moved,
        None => act_far(alloc, instr, program, own, next, frame, heap),
    }
}
