//! Standard output, which the line of a gate makes room for.

ghost use Rattle.std.specs.Prelude.{◌≡◌, None};

use crate::line::{AliveGate, clear};
use kilim_outside::{OutSink, SinkFault, TextSink};
use std::rt::Clock;

/// Standard output; before anything is written the gate takes its line away.
#[derive(Drop)]
pub struct ClearedSink<'a, R: Clock + Eprint + Print + Sync> {
    out: OutSink<'a, R>,
    gate: &'a AliveGate<'a, R>,
}

impl<'a, R: Clock + Eprint + Print + Sync> ClearedSink<'a, R> {
    /// Standard output, no call of which has failed yet.
    pub fn new(rt: &'a R, gate: &'a AliveGate<'a, R>) -> Self
        ensures { ⟦<ClearedSink<'a, R> as TextSink>⟧.faults result ≡ 0 }
    {
        ClearedSink {
            out: OutSink::new(rt),
            gate,
        }
    }
}

impl<'a, R: Clock + Eprint + Print + Sync> TextSink for ClearedSink<'a, R> {
    ghost written = { λ _. None };

    ghost faults = { λ sink. ⟦<OutSink<'a, R> as TextSink>⟧.faults sink.out };

    fn write(&mut self, piece: &[u8]) -> Result<usize, SinkFault> {
        clear(self.gate.rt, &self.gate.counts);
        self.out.write(piece)
    }
}
