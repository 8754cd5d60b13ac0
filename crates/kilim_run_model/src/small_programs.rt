//! The programs that run today.

use kilim_units::{Seq, Units};

/// What differs between the programs that run today: one task class beside the built-in ones, whose constructor does
/// nothing more and whose `execute` prints bytes.
#[derive(Drop)]
pub struct Small {
    /// The name of the class.
    pub name: Units,
    /// The room of the constructor's frame: words on the operand stack, and local slots.
    pub constructor_stack: u16,
    pub constructor_locals: u16,
    /// The room of the frame of `execute`.
    pub execute_stack: u16,
    pub execute_locals: u16,
    /// The numbers that are printed, in order.
    pub prints: Seq<i8>,
}
