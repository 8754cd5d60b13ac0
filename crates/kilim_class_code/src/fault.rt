//! Why bytes aren't a code array.

use crate::opcodes::OpFault;

/// Why bytes aren't a code array. Places are byte offsets from the first byte. The first fault of one instruction
/// comes first, then a target that is no place, in the order of the code, and of a switch its default and then its
/// targets in order; then the end.
#[derive(Clone, Copy)]
pub enum CodeFault {
    /// No instruction begins at this place, which is behind the one before. The fault in it is never want of memory.
    Op(OpFault, u32),
    /// The instruction at this place jumps to what is no place of an instruction.
    MidTarget(u32, i64),
    /// Control goes on past the last instruction, which stands at this place: it is none of goto, goto_w, the
    /// switches and the returns. In code without instructions the place is 0.
    FallsOff(u32),
    /// Want of memory.
    Memory,
}
