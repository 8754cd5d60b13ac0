//! The operands of a built-in method that is called: they stay on the stack until the fiber goes on behind the call.

ghost use Rattle.std.specs.Prelude.{◌≡◌, ◌<◌, ◌≤◌, ◌^◌, ◌∷◌, [], ℕ, pos, length, slice_get, Some, IfOk};
ghost use Rattle.kilim_program.specs.declared.value.Value.TheVariants as a_value;
ghost use Rattle.kilim_run_state.specs.frames.Calls.{calls_of, answered};
ghost use Rattle.kilim_run_interp.specs.Step.{AreRoomy};
ghost use Rattle.kilim_fiber_body.specs.Body.{operands_of};
ghost use Rattle.kilim_fiber_body.specs.Operands.{AreOperands};

use kilim_program::{Program, Value};
use kilim_run_state::frames::Frames;
use kilim_units::NoMemory;

/// Copies of the operands. No built-in method but a member of `kilim/Fiber` has more than three.
#[derive(Drop)]
pub enum Operands {
    None,
    One(Value),
    Two(Value, Value),
    Three(Value, Value, Value),
    More,
}

fn operand(frames: &Frames, depth: usize) -> Result<Value, NoMemory>
    requires { depth < length frames.now.top.stack.values }
    ensures { IfOk result (λ value. slice_get frames.now.top.stack.values depth ≡ Some value) }
{
    let Ok(copy) = frames.top.stack.peek(depth).clone() else {
        return Err(NoMemory);
    };
    Ok(copy)
}

fn copy_three(frames: &Frames) -> Result<Operands, NoMemory>
    requires three { frames.now.operands ≡ 3 }
    requires there { 3 ≤ length frames.now.top.stack.values }
    ensures { IfOk result (AreOperands frames.now) }
{
    let Ok(first) = operand(frames, 2) else {
        return Err(NoMemory);
    };
    let Ok(second) = operand(frames, 1) else {
        return Err(NoMemory);
    };
    let Ok(third) = operand(frames, 0) else {
        return Err(NoMemory);
    };
    Ok(Operands::Three(first, second, third))
}

/// The operands that the frames tell.
pub fn copy_operands(frames: &Frames) -> Result<Operands, NoMemory>
    requires { frames.now.operands ≤ length frames.now.top.stack.values }
    ensures { IfOk result (AreOperands frames.now) }
{
    match frames.operands {
        0 => Ok(Operands::None),
        1 => {
            let Ok(value) = operand(frames, 0) else {
                return Err(NoMemory);
            };
            Ok(Operands::One(value))
        }
        2 => {
            let Ok(first) = operand(frames, 1) else {
                return Err(NoMemory);
            };
            let Ok(second) = operand(frames, 0) else {
                return Err(NoMemory);
            };
            Ok(Operands::Two(first, second))
        }
        3 => copy_three(frames),
        _ => Ok(Operands::More),
    }
}

/// Goes on behind a member that has a value and the fiber. The value leaves the stack.
pub fn take_value(program: &Program, frames: &mut Frames) -> Value
    requires roomy { AreRoomy program.now frames.old }
    requires two { frames.old.operands ≡ 2 }
    requires there { 2 ≤ length frames.old.top.stack.values }
    requires last { slice_get frames.old.top.stack.values 0 ≡ Some a_value.Fiber }
    ensures roomy { AreRoomy program.now frames.new }
    ensures value { operands_of frames.old ≡ result ∷ a_value.Fiber ∷ [] }
    ensures calls { calls_of frames.new ≡ answered frames.old }
{
    let _ = program;
    frames.top.stack.drop_top(1);
    let value = frames.top.stack.pop();
    frames.top.pc = frames.next;
    value
}

// The number that an int is, which isn't negative.
fn number_of(value: &Value) -> u32
    requires { (n : ℕ) × (value.now ≡ a_value.Int (pos n)) }
    ensures { (value.now ≡ a_value.Int (pos result)) × (result < 2 ^ 31) }
{
    match value {
        Value::Int(number) => match u32::try_from(*number) {
            Ok(number) => number,
            Err(_) => unreachable!(),
        },
        _ => unreachable!(),
    }
}

/// Goes on behind a member that has a number, a value and the fiber. The value leaves the stack.
pub fn take_place(program: &Program, frames: &mut Frames) -> (u32, Value)
    requires roomy { AreRoomy program.now frames.old }
    requires three { frames.old.operands ≡ 3 }
    requires there { 3 ≤ length frames.old.top.stack.values }
    requires last { slice_get frames.old.top.stack.values 0 ≡ Some a_value.Fiber }
    requires first { (n : ℕ) × (slice_get frames.old.top.stack.values 2 ≡ Some (a_value.Int (pos n))) }
    ensures roomy { AreRoomy program.now frames.new }
    ensures place { operands_of frames.old ≡ a_value.Int (pos result.0) ∷ result.1 ∷ a_value.Fiber ∷ [] }
    ensures small { result.0 < 2 ^ 31 }
    ensures calls { calls_of frames.new ≡ answered frames.old }
{
    let _ = program;
    let number = number_of(frames.top.stack.peek(2));
    frames.top.stack.drop_top(1);
    let receiver = frames.top.stack.pop();
    frames.top.stack.drop_top(1);
    frames.top.pc = frames.next;
    (number, receiver)
}
