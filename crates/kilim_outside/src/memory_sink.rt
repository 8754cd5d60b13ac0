//! Sinks in memory, which tell what was written.

ghost use Rattle.std.specs.Prelude.{◌≡◌, ◌++◌, Some, length, IfOk, OnOk, OnErr, IfErr};

use crate::sink::{SinkFault, TextSink};
use kilim_units::Seq;

/// A sink in memory in which no call fails but for want of memory. It takes every piece whole, and its
/// count of faults is always 0.
#[derive(Drop)]
pub struct SteadySink {
    /// The bytes that were written.
    pub bytes: Seq<u8>,
}

impl TextSink for SteadySink {
    ghost written = { λ sink. Some sink.bytes };

    ghost faults = { λ _. 0 };

    fn write(&mut self, piece: &[u8]) -> Result<usize, SinkFault>
        ensures whole { IfOk result (λ n. n ≡ length piece.now) }
        ensures bytes { OnOk result (self.new.bytes ≡ self.old.bytes ++ piece.now) }
        ensures err { OnErr result (self.new.bytes ≡ self.old.bytes) }
        ensures memory { IfErr result (λ fault. fault ≡ SinkFault.NoMemory) }
    {
        match self.bytes.items.extend_from_slice(piece) {
            Ok(()) => Ok(piece.len()),
            Err(_) => Err(SinkFault::NoMemory),
        }
    }
}
