//! Where text goes.

ghost use Rattle.std.specs.Prelude.{◌≡◌, ◌≢◌, ◌≤◌, ◌<◌, ◌⊎◌, List, ℕ, [], Option, Ok, take, length, IfOk, OnErr};
ghost use Rattle.kilim_outside.specs.Asked.{counted};
ghost use Rattle.kilim_outside.specs.Causes.{Appended, Rose, SinkCause};

use std::alloc::{AllocError, AllocFailed};

/// Why a sink took nothing.
#[derive(Clone, Copy)]
pub enum SinkFault {
    /// The text can't be written.
    Failed,
    /// Want of memory.
    NoMemory,
}

impl From<AllocError> for SinkFault {
    ghost use Rattle.kilim_outside.specs.declared.sink.SinkFault.TheVariants as sink;

    ghost from_gives = { λ _ e. e ≡ sink.NoMemory };

    fn from(_: AllocError) -> SinkFault {
        SinkFault::NoMemory
    }
}

impl<T: Drop> From<AllocFailed<T>> for SinkFault {
    ghost use Rattle.kilim_outside.specs.declared.sink.SinkFault.TheVariants as sink;

    ghost from_gives = { λ _ e. e ≡ sink.NoMemory };

    fn from(_: AllocFailed<T>) -> SinkFault {
        SinkFault::NoMemory
    }
}

/// The count of faults behind a call that took so many bytes of a piece: taking nothing of one that isn't empty is a fault.
pub(crate) fn faults_behind(faults: u64, taken: usize, piece: &[u8]) -> u64
    ensures nothing { taken ≡ 0 → piece.now ≢ [] → result ≡ counted faults }
    ensures quiet { (0 < taken) ⊎ (piece.now ≡ []) → result ≡ faults }
    ensures later { faults ≤ result }
{
    if taken == 0 && !piece.is_empty() {
        faults.saturating_add(1)
    } else {
        faults
    }
}

/// A place to which text can be written, byte after byte.
///
/// Contracts see the bytes that it was given, where it tells them, and the number of its faults, which
/// never falls and stays at 18,446,744,073,709,551,615 where it gets there.
pub trait TextSink {
    /// The bytes that were written, where it tells them.
    ghost written: { Self → Option (List ℕ) };
    /// How many of its calls failed.
    ghost faults: { Self → ℕ };

    /// Writes a front of the piece, which has at most 4,096 bytes, and answers how many bytes it took, at most
    /// the piece's length. Taking nothing of a piece that isn't empty is a fault too, and taking some of it is
    /// none. After a refusal nothing was written.
    fn write(&mut self, piece: &[u8]) -> Result<usize, SinkFault>
        requires few { length piece.now ≤ 4096 }
        ensures most { IfOk result (λ n. n ≤ length piece.now) }
        ensures taken { IfOk result (λ n. Appended (written self.old) (written self.new) (take n piece.now)) }
        ensures nothing { result ≡ Ok 0 → piece.now ≢ [] → Rose (faults self.old) (faults self.new) }
        ensures quiet { IfOk result (λ n. 0 < n → faults self.new ≡ faults self.old) }
        ensures err { OnErr result (written self.new ≡ written self.old) }
        ensures cause { SinkCause (faults self.old) (faults self.new) result };
}
