//! The types that verification gives to locals and stack slots (JVMS 4.10.1.2).

use crate::ty::Ty;
use kilim_units::Seq;

/// A verification type.
#[derive(Clone, Copy, PartialEq, Eq)]
pub enum VType {
    Top,
    Int,
    Long,
    Null,
    UninitThis,
    /// An object that isn't initialized yet, by the place of the `new` that made it.
    Uninit(u32),
    Object(Ty),
}

/// The types of the locals, by slot, and of the operand stack, the bottom first. A long is one entry of
/// the stack, and in the locals a `Long` followed by a `Top`.
#[derive(Drop)]
pub struct Frame {
    pub locals: Seq<VType>,
    pub stack: Seq<VType>,
}
