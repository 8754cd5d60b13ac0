//! The entries of a journal's text.

ghost use Rattle.std.specs.Prelude.{◌≡◌, ◌≤◌, IfOk, length};
ghost use Rattle.kilim_stages.specs.Parts.{IfReport, Refused};
ghost use Rattle.kilim_replay_command.specs.Lines.{bad_line, too_large_line};
ghost use Rattle.kilim_replay_command.specs.Replay.{IsTextReport, text_limit};
ghost use Rattle.kilim_replay_command.specs.Parts.{IsTextOf};

use crate::lines::{bad_line, too_large_line};
use kilim_run_journal::{Entry, TextFault, read_text};
use kilim_stages::Refusal;
use std::alloc::Global;

/// The most bytes of a journal's text.
const TEXT_LIMIT: usize = 16_777_216;

#[tactic(auto, unfolding(crate::specs::Replay::text_limit))]
fn text_limit() -> usize
    ensures { result ≡ text_limit }
{
    TEXT_LIMIT
}

fn too_large(alloc: Global) -> Refusal
    ensures { Refused result (λ text. text ≡ too_large_line) }
{
    match too_large_line(alloc) {
        Ok(text) => Refusal::Report(text),
        Err(_) => Refusal::NoMemory,
    }
}

fn bad(alloc: Global, line: usize) -> Refusal
    ensures { Refused result (λ text. text ≡ bad_line line) }
{
    match bad_line(alloc, line) {
        Ok(text) => Refusal::Report(text),
        Err(_) => Refusal::NoMemory,
    }
}

// The entries of a text that isn't too large, or the line of its first line that is no entry's.
fn entries_in(alloc: Global, text: &[u8]) -> Result<Vec<Entry>, Refusal>
    requires few { length text.now ≤ text_limit }
    ensures entries { IfOk result (λ entries. IsTextOf text.now entries.items) }
    ensures report { IfReport result (IsTextReport text.now) }
{
    match read_text(alloc, text) {
        Ok(entries) => Ok(entries),
        Err(TextFault::BadLine(line)) => Err(bad(alloc, line)),
        Err(TextFault::Memory) => Err(Refusal::NoMemory),
    }
}

/// The entries of a journal's text, or the line of what is wrong with it.
pub fn entries_of(alloc: Global, text: &[u8]) -> Result<Vec<Entry>, Refusal>
    ensures entries { IfOk result (λ entries. IsTextOf text.now entries.items) }
    ensures report { IfReport result (IsTextReport text.now) }
{
    if text.len() > text_limit() {
        return Err(too_large(alloc));
    }
    entries_in(alloc, text)
}
