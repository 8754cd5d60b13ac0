//! What a code array holds.

use crate::opcodes::RawInstr;
use kilim_units::Seq;

/// The instructions of a code array.
#[derive(Drop)]
pub struct Body {
    /// The instructions in their order, each with its place. The first stands at 0, and each next one behind the
    /// bytes of the one before.
    pub code: Seq<(u32, RawInstr)>,
}
