//! Code of a class file, linked: each index by what it names, each short form by its long form.
#![tactic(auto)]

mod code;
mod instr;
mod named;
mod places;
mod tables;

pub use code::code_of;
pub use instr::instr_in;
