//! Behind an instruction that was handed out.

ghost use Rattle.std.specs.Prelude.{◌≡◌};
ghost use Rattle.kilim_run_machine.specs.Moves.{push_value};
ghost use Rattle.kilim_run_state.specs.frames.Calls.{calls_of, answered};
ghost use Rattle.kilim_run_interp.specs.Step.{AreRoomy};
ghost use Rattle.kilim_fiber_body.specs.Body.{RoomBehind};

use kilim_program::{Program, Value};
use kilim_run_state::frames::Frames;

/// Goes on behind the instruction: its operands leave the stack.
pub fn pass(program: &Program, frames: &mut Frames)
    requires roomy { AreRoomy program.now frames.old }
    ensures calls { calls_of frames.new ≡ answered frames.old }
    ensures roomy { AreRoomy program.now frames.new }
{
    let height = frames.top.stack.len();
    let count = if frames.operands < height {
        frames.operands
    } else {
        height
    };
    frames.top.stack.drop_top(count);
    frames.top.pc = frames.next;
}

/// And its result comes on top.
pub fn give(program: &Program, frames: &mut Frames, value: Value)
    requires roomy { AreRoomy program.now frames.old }
    requires room { RoomBehind program.now frames.old }
    ensures calls { calls_of frames.new ≡ push_value value (answered frames.old) }
    ensures roomy { AreRoomy program.now frames.new }
{
    pass(program, frames);
    frames.top.stack.push(value);
}
