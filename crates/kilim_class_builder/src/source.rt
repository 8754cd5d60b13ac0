//! Methods as they are given to a builder.

use kilim_class_code::opcodes::RawInstr;
use kilim_program::{Frame, Qualifier};

/// A method. Without code it is abstract or native: then `code` and `frames` aren't looked at.
#[derive(Drop)]
pub struct MethodSource {
    pub name: String,
    pub descriptor: String,
    /// The access flags (JVMS 4.6).
    pub flags: u16,
    /// Whether it lists `kilim/Pausable` among its exceptions.
    pub pausable: bool,
    /// The annotation that names the qualifier of its receiver.
    pub receiver: Option<Qualifier>,
    /// For each parameter the annotation that names its qualifier; where there is none at all, it may be empty.
    pub qualifiers: Vec<Option<Qualifier>>,
    pub max_stack: u16,
    pub max_locals: u16,
    /// The instructions: the first stands at place 0, each other one behind the one before.
    pub code: Vec<RawInstr>,
    /// The frames with their places, which increase. A class number in them stands for the class that the builder's pool names at
    /// that index.
    pub frames: Vec<(u32, Frame)>,
}
