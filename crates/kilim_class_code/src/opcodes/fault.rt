//! Why bytes aren't an instruction.

/// Why no instruction begins at a place. The fault is that of the first part that isn't spelled: a part is cut
/// where the code ends inside it, and else it is left out or unknown.
#[derive(Clone, Copy)]
pub enum OpFault {
    /// No instruction has this number (202 to 255), or the operands of the instruction with this number are none
    /// that it takes.
    Unknown(u8),
    /// The code ends inside the instruction.
    Cut,
    /// The standard has an instruction of this number, or with these operands, and this project leaves it out.
    LeftOut(u8),
    /// Want of memory.
    Memory,
}
