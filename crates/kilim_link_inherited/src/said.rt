//! What a class says of a member.

use crate::Signature;

/// What a class says of a member of a name and descriptor: a value, or that there is none from here down.
#[derive(Drop)]
pub struct Said {
    /// The name and the descriptor.
    pub signature: Signature,
    /// Its value, none where there is none from here down.
    pub value: Option<u32>,
}
