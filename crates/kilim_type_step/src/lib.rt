//! What an instruction makes of the types of locals and stack, or the least rule that it breaks (JVMS 4.10.1.9).
#![tactic(auto)]

mod apply;
mod arrays;
mod constants;
mod construct;
mod dropped;
mod entry;
mod fault;
mod instr;
mod jumps;
mod locals;
mod makes;
mod members;
mod operands;
mod plain;
mod returns;
mod shuffles;
mod state;

pub use construct::made_at;
pub use dropped::discard;
pub use entry::{declared_at, entry_state, has_unset_this, state_of};
pub use fault::StepFault;
pub use instr::type_step;
pub use members::is_constructor;
pub use operands::{class_vtype, vtype};
pub use state::{State, are_within, size, type_at};
