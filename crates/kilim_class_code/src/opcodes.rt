//! One instruction of a code array (JVMS 6.5), read and written exactly.
//!
//! `form` is the table of this project's instructions. Instructions of the standard that aren't in it are left out
//! by name; numbers that no instruction has, and operands that no instruction takes, are unknown. A place is a
//! byte offset in the code array, and the target of a jump is a place.

mod fault;
mod forms;
mod instr;
mod laws;
mod reading;
mod switches;
mod writing;

pub use fault::OpFault;
pub use forms::{OpForm, form};
pub use instr::RawInstr;
pub use laws::{lengths, one_spelling};
pub use reading::read_instr;
pub use writing::write_instr;
