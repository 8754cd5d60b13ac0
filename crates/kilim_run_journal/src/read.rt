//! The entries of a text.

ghost use Rattle.std.specs.Prelude.{◌≡◌, ◌++◌, ℕ, length, IfOk, IfErr, IfSome, IsSomeAnd, List, MatchResult};
ghost use Rattle.kilim_run_journal.specs.declared.entry.Entry.{Entry as Event};
ghost use Rattle.kilim_run_journal.specs.Text.{entry_text};
ghost use Rattle.kilim_run_journal.specs.Read.{IsEntry, IsJournal, IsTextFault};
ghost use Rattle.kilim_run_journal.specs.NextEntry.{IsNext, IsMemory};

use crate::acts::entry_at;
use crate::entry::Entry;
use crate::lines::push_entry;
use crate::numbers::after;
use kilim_units::{NoMemory, Seq};
use std::alloc::Global;

/// Why bytes are no journal's text.
#[derive(Clone, Copy)]
pub enum TextFault {
    /// The first line that is no entry's, from 1 on.
    BadLine(usize),
    /// Want of memory.
    Memory,
}

// The bytes behind the text of an entry, where that stands at the front.
fn behind_text<'a>(
    alloc: Global,
    entry: &Entry,
    bytes: &'a [u8],
) -> Result<Option<&'a [u8]>, NoMemory>
    ensures right { (tail : List ℕ) → bytes.now ≡ entry_text entry.now ++ tail → IfOk result (λ found. IsSomeAnd found (λ r. r.now ≡ tail)) }
    ensures some { IfOk result (λ found. IfSome found (λ r. bytes.now ≡ entry_text entry.now ++ r.now)) }
{
    let mut text = Vec::new(alloc);
    let Ok(()) = push_entry(&mut text, entry) else {
        return Err(NoMemory);
    };
    Ok(after(bytes, text.as_slice()))
}

// The entry at the front and the bytes behind its line, or there is none. What seems to be one is written again, and
// has to stand there.
fn next_entry(alloc: Global, bytes: &[u8]) -> Result<Option<(Entry, &[u8])>, NoMemory>
    ensures { IfOk result (λ next. IsNext bytes.now next) }
{
    let Ok(found) = entry_at(alloc, bytes) else {
        return Err(NoMemory);
    };
    match found {
        None => Ok(None),
        Some(entry) => {
            let Ok(behind) = behind_text(alloc, &entry, bytes) else {
                drop(entry);
                return Err(NoMemory);
            };
            match behind {
                Some(rest) => Ok(Some((entry, rest))),
                None => {
                    drop(entry);
                    Ok(None)
                }
            }
        }
    }
}

/// The entries whose text the bytes are: exactly what `text` writes is read, line by line.
///
/// The first line that is no entry's is a fault, bytes behind the last line feed too.
pub fn read_text(alloc: Global, bytes: &[u8]) -> Result<Vec<Entry>, TextFault>
    ensures ok { IfOk result (λ entries. IsJournal bytes.now entries.items) }
    ensures err { IfErr result (λ fault. IsTextFault bytes.now fault) }
    // a journal's text is read, whatever else may be
    ensures whole { (es : List Event) → IsJournal bytes.now es → MatchResult result (λ entries. entries.items ≡ es) IsMemory }
{
    let mut entries = Seq::new(alloc);
    let mut rest = bytes;
    while !rest.is_empty() {
        match next_entry(alloc, rest) {
            Err(_) => return Err(TextFault::Memory),
            Ok(None) => {
                let Some(line) = entries.len().checked_add(1) else {
                    // room: 2^64 lines in memory
                    return Err(TextFault::Memory);
                };
                return Err(TextFault::BadLine(line));
            }
            Ok(Some((entry, behind))) => {
                let Ok(()) = entries.push(entry) else {
                    return Err(TextFault::Memory);
                };
                rest = behind;
            }
        }
    }
    Ok(entries.into_vec())
}
