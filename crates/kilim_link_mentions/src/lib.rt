//! What a class file names (JVMS chapter 4): its code with places in bytes, what the indices of instructions name, and
//! all that it names in the order of its bytes, with the types and the names of classes in that.
//!
//! Each call is a function of the file alone: whether what is named is there is asked elsewhere. Texts are copied where
//! they are named; apart from that, time is linear in the length of what is taken. Nothing recurses.
#![tactic(auto)]

mod code;
mod constants;
mod descriptors;
mod frames;
mod members;
mod mentions;
mod names;
mod operands;
mod tables;

pub use code::{code_attribute, decoded, index_in, instrs_of};
pub use descriptors::{field_text, method_text, named_by};
pub use members::members_named;
pub use mentions::mentions_of;
pub use names::class_names;
pub use operands::operand_at;
