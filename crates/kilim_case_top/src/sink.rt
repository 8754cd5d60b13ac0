//! A sink in memory whose calls fail, or take few bytes, as a case asks.

ghost use Rattle.std.specs.Prelude.{None};

use kilim_outside::{SinkFault, TextSink};
use kilim_units::Seq;

/// What a call wrote.
#[derive(Drop)]
pub struct VecSink {
    /// The bytes that were written.
    pub bytes: Seq<u8>,
    /// How many calls were made.
    pub calls: u64,
    /// The numbers of the calls that fail, counted from 0.
    pub fails: Seq<u64>,
    /// The most bytes that one call takes.
    pub most: usize,
    /// How many calls failed, or took nothing of a piece that wasn't empty.
    pub faults: u64,
}

impl TextSink for VecSink {
    ghost written = { λ _. None };

    ghost faults = { λ sink. sink.faults };

    fn write(&mut self, piece: &[u8]) -> Result<usize, SinkFault> {
        let number = self.calls;
        self.calls = number.saturating_add(1);
        if self.fails.as_slice().contains(&number) {
            self.faults = self.faults.saturating_add(1);
            return Err(SinkFault::Failed);
        }
        let count = piece.len().min(self.most);
        let (front, _) = piece.split_at(count);
        let Ok(()) = self.bytes.items.extend_from_slice(front) else {
            return Err(SinkFault::NoMemory);
        };
        if count == 0 && !piece.is_empty() {
            self.faults = self.faults.saturating_add(1);
        }
        Ok(count)
    }
}
