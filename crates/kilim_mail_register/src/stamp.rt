//! Stamps.

ghost use Rattle.std.specs.Prelude.{◌≡◌, ◌<◌, ◌≤◌, ◌+◌, ◌^◌, IfOk, OnErr, max};

use kilim_units::{NoMemory, no_room};

/// The stamp of an act: one more than the greater of two clocks. There is none above the last number of 64 bits: a stamp n stands for at
/// least n entries, and so many fit into no memory.
pub fn next_stamp(clock: u64, other: u64) -> Result<u64, NoMemory>
    ensures exact { IfOk result (λ s. s ≡ max clock other + 1) }
    ensures mine { IfOk result (λ s. clock < s) }
    ensures other { IfOk result (λ s. other < s) }
    ensures refused { OnErr result (2 ^ 64 ≤ max clock other + 1) }
{
    if clock < other {
        if other == u64::MAX {
            // room: a stamp of 2^64
            Err(no_room())
        } else {
            Ok(other + 1)
        }
    } else if clock == u64::MAX {
        // room: a stamp of 2^64
        Err(no_room())
    } else {
        Ok(clock + 1)
    }
}
