//! Class files made call by call, for tests (JVMS chapter 4): a class with its superclass, fields, and methods with code.
#![tactic(auto)]

mod adding;
mod attributes;
mod builder;
mod code;
mod frames;
mod methods;
mod names;
mod source;

pub use builder::ClassBuilder;
pub use source::MethodSource;
