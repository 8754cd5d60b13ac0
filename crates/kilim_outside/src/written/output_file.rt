//! Files that are to be written.

use kilim_units::Seq;
use std::marker::Model;

/// A file that is to be written.
#[derive(Drop)]
pub struct OutputFile {
    /// Its path, from the folder on.
    pub path: String,
    pub bytes: Seq<u8>,
}

impl Model for OutputFile {
    ghost use Rattle.std.specs.String.{string_bytes};
    ghost use Rattle.kilim_outside.specs.written.OutputFile as seen;

    ghost Value = { seen.OutputFile };

    ghost view = { λ f. record { path = string_bytes f.path; bytes = f.bytes } };
}
