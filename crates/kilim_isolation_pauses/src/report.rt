//! Reports of broken rules.

use kilim_program::MethodId;
use kilim_units::Seq;

/// A rule that is broken in a method.
#[derive(Drop)]
pub struct Report {
    pub method: MethodId,
    /// The place, a byte offset in the method's code.
    pub pc: u32,
    /// The rule's number, 1 to 12.
    pub rule: u8,
    /// The places of a path that breaks it, the last of them this place; empty for the rules 8, 10, 11 and 12.
    pub path: Seq<u32>,
}
