//! The operands of a built-in method that is called: they stay on the stack until the task goes on behind the call.

ghost use Rattle.std.specs.Prelude.{◌≡◌, ◌<◌, ◌≤◌, length, slice_get, Some, IfOk};
ghost use Rattle.kilim_replay_thread.specs.Operands.{AreOperands};

use kilim_program::Value;
use kilim_run_state::frames::Frames;
use kilim_units::NoMemory;

/// Copies of the operands. No built-in method of a plain program has more than two.
#[derive(Drop)]
pub enum Operands {
    None,
    One(Value),
    Two(Value, Value),
    More,
}

fn operand(frames: &Frames, depth: usize) -> Result<Value, NoMemory>
    requires { depth < length frames.now.top.stack.values }
    ensures { IfOk result (λ value. slice_get frames.now.top.stack.values depth ≡ Some value) }
{
    let Ok(copy) = frames.top.stack.peek(depth).clone() else {
        return Err(NoMemory);
    };
    Ok(copy)
}

/// The operands that the frames tell.
pub fn copy_operands(frames: &Frames) -> Result<Operands, NoMemory>
    requires { frames.now.operands ≤ length frames.now.top.stack.values }
    ensures { IfOk result (AreOperands frames.now) }
{
    match frames.operands {
        0 => Ok(Operands::None),
        1 => {
            let Ok(value) = operand(frames, 0) else {
                return Err(NoMemory);
            };
            Ok(Operands::One(value))
        }
        2 => {
            let Ok(first) = operand(frames, 1) else {
                return Err(NoMemory);
            };
            let Ok(second) = operand(frames, 0) else {
                return Err(NoMemory);
            };
            Ok(Operands::Two(first, second))
        }
        _ => Ok(Operands::More),
    }
}
