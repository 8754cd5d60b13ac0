//! Woven files.

use kilim_units::{Seq, Units};

/// A woven class file.
#[derive(Drop)]
pub struct WovenFile {
    /// The name of its class.
    pub class: Units,
    /// The same name as a text.
    pub name: String,
    /// The bytes of the class file.
    pub bytes: Seq<u8>,
    /// How many methods of the class can pause.
    pub pausables: usize,
}
