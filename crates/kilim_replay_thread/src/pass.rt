//! Behind an instruction that was handed out.

ghost use Rattle.std.specs.Prelude.{◌≡◌, ◌<◌, ◌+◌, ◌^◌};
ghost use Rattle.kilim_run_machine.specs.Moves.{push_value};
ghost use Rattle.kilim_run_model.specs.Lone.{pushed_on};
ghost use Rattle.kilim_run_state.specs.frames.Calls.{calls_of, answered};
ghost use Rattle.kilim_run_interp.specs.Step.{AreRoomy};
ghost use Rattle.kilim_replay_thread.specs.Live.{HasFrames, RoomBehind, RoomIn, RoomyIn, behind_in, thread_in};

use crate::task::Live;
use kilim_program::{Program, Value};
use kilim_run_state::frames::Frames;

// Goes on behind the instruction: its operands leave the stack.
fn pass(program: &Program, frames: &mut Frames)
    requires roomy { AreRoomy program.now frames.old }
    ensures calls { calls_of frames.new ≡ answered frames.old }
    ensures roomy { AreRoomy program.now frames.new }
{
    let height = frames.top.stack.len();
    let count = if frames.operands < height {
        frames.operands
    } else {
        height
    };
    frames.top.stack.drop_top(count);
    frames.top.pc = frames.next;
}

/// Goes on behind the instruction, with a result on top of the stack.
pub fn give(program: &Program, frames: &mut Frames, value: Value)
    requires roomy { AreRoomy program.now frames.old }
    requires room { RoomBehind program.now frames.old }
    ensures calls { calls_of frames.new ≡ push_value value (answered frames.old) }
    ensures roomy { AreRoomy program.now frames.new }
{
    pass(program, frames);
    frames.top.stack.push(value);
}

/// A task goes on behind a method without a result.
pub fn go_on(program: &Program, live: &mut Live)
    requires frames { HasFrames live.old.frames }
    requires roomy { RoomyIn program.now live.old.frames }
    requires counts { live.old.done + 1 < 2 ^ 64 }
    ensures thread { thread_in live.new ≡ behind_in live.old }
    ensures roomy { RoomyIn program.now live.new.frames }
    ensures counted { live.new.done ≡ live.old.done + 1 }
{
    let Some(frames) = &mut live.frames else {
        unreachable!()
    };
    pass(program, frames);
    live.done += 1;
}

/// A task goes on behind a method with a result.
pub fn go_on_with(program: &Program, live: &mut Live, value: Value)
    requires roomy { RoomyIn program.now live.old.frames }
    requires room { RoomIn program.now live.old.frames }
    requires counts { live.old.done + 1 < 2 ^ 64 }
    ensures thread { thread_in live.new ≡ pushed_on value (behind_in live.old) }
    ensures roomy { RoomyIn program.now live.new.frames }
    ensures counted { live.new.done ≡ live.old.done + 1 }
{
    let Some(frames) = &mut live.frames else {
        unreachable!()
    };
    give(program, frames, value);
    live.done += 1;
}
