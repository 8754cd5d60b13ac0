//! Text in pieces.

ghost use Rattle.std.specs.Prelude.{◌≡◌, ◌≢◌, ◌<◌, ◌≤◌, [], length, take, OnOk, OnErr, IfOk};
ghost use Rattle.kilim_outside.specs.Causes.{Appended, SinkCause};
ghost use Rattle.kilim_command.specs.Writing.{piece_limit, AppendedFront};

use kilim_outside::{SinkFault, TextSink};

#[tactic(auto, unfolding(crate::specs::Writing::piece_limit))]
fn piece_limit() -> usize
    ensures limit { result ≡ piece_limit }
    ensures some { 0 < result }
    ensures few { result ≤ 4096 }
{
    4096
}

// The next piece of the bytes: all of them, or as many as a piece has at the most.
fn piece(bytes: &[u8]) -> &[u8]
    ensures piece { result.now ≡ take piece_limit bytes.now }
    ensures some { bytes.now ≢ [] → result.now ≢ [] }
    ensures few { length result.now ≤ 4096 }
{
    let most = piece_limit();
    if bytes.len() > most {
        &bytes[..most]
    } else {
        bytes
    }
}

// Writes a front of the bytes, and answers how many, at least one.
fn write_piece<K: TextSink>(out: &mut K, bytes: &[u8]) -> Result<usize, SinkFault>
    requires { bytes.now ≢ [] }
    ensures some { IfOk result (λ n. 0 < n) }
    ensures most { IfOk result (λ n. n ≤ length bytes.now) }
    ensures taken { IfOk result (λ n. Appended (K.written out.old) (K.written out.new) (take n bytes.now)) }
    ensures quiet { OnOk result (K.faults out.new ≡ K.faults out.old) }
    ensures err { OnErr result (Appended (K.written out.old) (K.written out.new) []) }
    ensures cause { SinkCause (K.faults out.old) (K.faults out.new) result }
{
    match out.write(piece(bytes)) {
        Ok(0) => Err(SinkFault::Failed),
        Ok(count) => Ok(count),
        Err(fault) => Err(fault),
    }
}

/// Writes all bytes, each piece again from the first byte that wasn't taken. After a refusal a front of them was
/// written.
pub fn write_all<K: TextSink>(out: &mut K, bytes: &[u8]) -> Result<(), SinkFault>
    ensures ok { OnOk result (Appended (K.written out.old) (K.written out.new) bytes.now) }
    ensures quiet { OnOk result (K.faults out.new ≡ K.faults out.old) }
    ensures err { OnErr result (AppendedFront (K.written out.old) (K.written out.new) bytes.now) }
    ensures cause { SinkCause (K.faults out.old) (K.faults out.new) result }
{
    let mut rest = bytes;
    while !rest.is_empty() {
        let count = write_piece(out, rest)?;
        let (_, after) = rest.split_at(count);
        rest = after;
    }
    Ok(())
}
