//! The entries of an image's journal: what tasks did, and no line that says who waits.

ghost use Rattle.std.specs.Prelude.{◌≡◌, ◌≢◌, ◌≤◌, ◌+◌, ◌⊎◌, ◌++◌, ◌∷◌, List, [], true, false, length, take, drop, IfOk, IfErr, IfSome, IfNone, MatchResult};
ghost use Rattle.std.specs.List.{list_any};
ghost use Rattle.kilim_run_journal.specs.declared.entry.Entry.{Entry as Event};
ghost use Rattle.kilim_run_journal.specs.Text.{entry_text};
ghost use Rattle.kilim_image.specs.declared.fault.ImageFault.TheVariants as fault;
ghost use Rattle.kilim_image.specs.Journal.{IsDeed, IsDeedFault, IsDeedLine, is_wait};
ghost use Rattle.kilim_image.specs.Lines.{AreDeeds, IsFirstLine, IsLine};

use crate::fault::ImageFault;
use kilim_run_journal::{Act, Entry, TextFault, read_text};
use kilim_units::{NoMemory, Seq};
use std::alloc::Global;

fn is_wait(act: &Act) -> bool
    ensures { result ≡ is_wait act.now }
{
    matches!(act, Act::Wait(_))
}

// Whether one of the entries says who waits.
fn have_waits(entries: &[Entry]) -> bool
    ensures { result ≡ list_any (λ (e : Event). is_wait e.act) entries.now }
{
    for entry in entries {
        if is_wait(&entry.act) {
            return true;
        }
    }
    false
}

// How many bytes the first line has, with its line feed.
fn line_end(bytes: &[u8]) -> usize
    requires { bytes.now ≢ [] }
    ensures within { result ≤ length bytes.now }
    ensures line { IsFirstLine bytes.now (take result bytes.now) (drop result bytes.now) }
{
    for (i, byte) in bytes.iter().enumerate() {
        if *byte == b'\n' {
            return i + 1;
        }
    }
    bytes.len()
}

// The first line, with its line feed, and what stands behind it. Bytes behind the last line feed are a line of their own.
fn first_line(bytes: &[u8]) -> (&[u8], &[u8])
    requires { bytes.now ≢ [] }
    ensures { IsFirstLine bytes.now result.0.now result.1.now }
{
    bytes.split_at(line_end(bytes))
}

// The one entry, unless it says who waits.
fn only_deed(entries: Vec<Entry>) -> Option<Entry>
    ensures some { IfSome result (λ e. ((others : List Event) × (entries.items ≡ others ++ e ∷ [])) × (is_wait e.act ≡ false)) }
    ensures none { IfNone result ((e : Event) → entries.items ≡ e ∷ [] → is_wait e.act ≡ true) }
{
    let mut entries = entries;
    let last = entries.pop();
    drop(entries);
    match last {
        Some(entry) => {
            if is_wait(&entry.act) {
                drop(entry);
                None
            } else {
                Some(entry)
            }
        }
        None => None,
    }
}

// The entry of a line, where it is one of what a task did.
fn deed_in(alloc: Global, line: &[u8]) -> Result<Option<Entry>, NoMemory>
    requires { IsLine line.now }
    ensures some { IfOk result (λ found. IfSome found (λ e. IsDeed e × (line.now ≡ entry_text e))) }
    ensures none { IfOk result (λ found. IfNone found (IsDeedLine line.now → ⊥)) }
{
    kilim_run_journal::texts_differ();
    match read_text(alloc, line) {
        Ok(entries) => Ok(only_deed(entries)),
        Err(TextFault::BadLine(_)) => Ok(None),
        Err(TextFault::Memory) => Err(NoMemory),
    }
}

// The line behind so many, from 1 on.
fn bad_line(before: usize) -> ImageFault
    ensures { (result ≡ fault.Memory) ⊎ (result ≡ fault.Journal (before + 1)) }
{
    match before.checked_add(1) {
        Some(line) => ImageFault::Journal(line),
        // room: 2^64 lines in memory
        None => ImageFault::Memory,
    }
}

// The entries of a text, line by line, or the first line that is none of what a task did.
fn deeds_by_line(alloc: Global, text: &[u8]) -> Result<Vec<Entry>, ImageFault>
    ensures found { IfOk result (λ entries. AreDeeds text.now entries.items) }
    ensures fault { IfErr result (IsDeedFault text.now) }
{
    let mut entries = Seq::new(alloc);
    let mut rest = text;
    while !rest.is_empty() {
        let (line, behind) = first_line(rest);
        match deed_in(alloc, line) {
            Ok(Some(entry)) => {
                let Ok(()) = entries.push(entry) else {
                    return Err(ImageFault::Memory);
                };
                rest = behind;
            }
            Ok(None) => return Err(bad_line(entries.len())),
            Err(_) => return Err(ImageFault::Memory),
        }
    }
    Ok(entries.into_vec())
}

/// The entries of a text, all of what tasks did; else the first line that is no entry's, or says who waits.
pub fn deeds_in(alloc: Global, text: &[u8]) -> Result<Vec<Entry>, ImageFault>
    ensures found { IfOk result (λ entries. AreDeeds text.now entries.items) }
    ensures only { (es : List Event) → AreDeeds text.now es → MatchResult result (λ entries. entries.items ≡ es) (λ e. e ≡ fault.Memory) }
    ensures fault { IfErr result (IsDeedFault text.now) }
{
    match read_text(alloc, text) {
        Ok(entries) => {
            if !have_waits(entries.as_slice()) {
                return Ok(entries);
            }
            drop(entries);
        }
        Err(TextFault::BadLine(_)) => {}
        Err(TextFault::Memory) => return Err(ImageFault::Memory),
    }
    deeds_by_line(alloc, text)
}
