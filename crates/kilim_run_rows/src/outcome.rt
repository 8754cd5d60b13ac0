//! What came of an instruction.

use kilim_program::{ClassId, MethodId};
use kilim_run_state::EndCause;

/// What came of an instruction of a frame. Where it calls, asks or returns, the arguments or the value are still on the
/// frame's stack.
#[derive(Clone, Copy)]
pub enum Moved {
    /// It goes on with the instruction behind.
    Next,
    /// It goes on with the instruction at a place.
    Jump(u32),
    /// It goes on behind, with a new object.
    Made(u32),
    /// A new mailbox is wanted.
    Opened,
    /// A method with code is called, with so many values on top of the stack as arguments.
    Called(MethodId, usize),
    /// A built-in method is called that is handed out, with so many arguments.
    Asked(MethodId, usize),
    /// The method returns nothing.
    Returned,
    /// The method returns the topmost value, narrowed to its result.
    ReturnedValue,
    /// Something is wrong with a value.
    Raised(EndCause),
    /// An object of that class is thrown. Where nothing catches it, the task ends with the cause.
    Thrown(u32, ClassId, EndCause),
    /// The task ends.
    Ended(EndCause),
    /// Want of memory: the frame may only be dropped.
    NoMemory,
}
