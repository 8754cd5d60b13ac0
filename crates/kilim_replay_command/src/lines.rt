//! Lines on journals, each with its line feed.

ghost use Rattle.std.specs.Prelude.{◌≡◌, ◌++◌, true, codes, IfOk};
ghost use Rattle.std.specs.Fmt.{decimal};
ghost use Rattle.kilim_replay.specs.Fold.{IsReadableVerdict};
ghost use Rattle.kilim_replay_command.specs.Lines.{at_line, bad_line, goes_line, made_front, too_large_line, verdict_line, whole_line};
ghost use Rattle.kilim_replay_laws.specs.declared.verdict.Verdict.TheVariants as verdict;
ghost use Rattle.kilim_run_journal.specs.Readable.{is_readable_act};
ghost use Rattle.kilim_run_journal.specs.Text.{entry_text, journal_text};

use kilim_replay::Verdict;
use kilim_run_journal::Entry;
use kilim_units::NoMemory;
use std::alloc::Global;

/// The text of a journal has too many bytes.
#[tactic(auto, unfolding(crate::specs::Lines::too_large_line))]
pub fn too_large_line(alloc: Global) -> Result<Vec<u8>, NoMemory>
    ensures { IfOk result (λ text. text.items ≡ too_large_line) }
{
    match Vec::from_slice(alloc, b"journal too-large\n") {
        Ok(text) => Ok(text),
        Err(_) => Err(NoMemory),
    }
}

/// That line is no entry's.
#[tactic(auto, unfolding(crate::specs::Lines::bad_line))]
pub fn bad_line(alloc: Global, line: usize) -> Result<Vec<u8>, NoMemory>
    ensures { IfOk result (λ text. text.items ≡ bad_line line) }
{
    match format!(in alloc; "journal {line}\n") {
        Ok(text) => Ok(text.into_bytes()),
        Err(_) => Err(NoMemory),
    }
}

#[tactic(auto, unfolding(crate::specs::Lines::whole_line))]
fn whole_line(alloc: Global, lines: usize) -> Result<Vec<u8>, NoMemory>
    ensures { IfOk result (λ text. text.items ≡ whole_line lines) }
{
    match format!(in alloc; "whole {lines}\n") {
        Ok(text) => Ok(text.into_bytes()),
        Err(_) => Err(NoMemory),
    }
}

#[tactic(auto, unfolding(crate::specs::Lines::at_line))]
fn at_line(alloc: Global, line: usize, word: &str) -> Result<Vec<u8>, NoMemory>
    ensures { IfOk result (λ text. text.items ≡ at_line line word.now) }
{
    match format!(in alloc; "replay {line} {word}\n") {
        Ok(text) => Ok(text.into_bytes()),
        Err(_) => Err(NoMemory),
    }
}

#[tactic(auto, unfolding(crate::specs::Lines::goes_line))]
fn goes_line(alloc: Global, line: usize, task: u32) -> Result<Vec<u8>, NoMemory>
    ensures { IfOk result (λ text. text.items ≡ goes_line line task) }
{
    match format!(in alloc; "replay {line} goes {task}\n") {
        Ok(text) => Ok(text.into_bytes()),
        Err(_) => Err(NoMemory),
    }
}

// What stands before the entry that is made.
#[tactic(auto, unfolding(crate::specs::Lines::made_front))]
fn made_front(alloc: Global, line: usize) -> Result<Vec<u8>, NoMemory>
    ensures { IfOk result (λ text. text.items ≡ made_front line) }
{
    match format!(in alloc; "replay {line} made ") {
        Ok(text) => Ok(text.into_bytes()),
        Err(_) => Err(NoMemory),
    }
}

// The line of an entry.
fn entry_line(alloc: Global, entry: Entry) -> Result<Vec<u8>, NoMemory>
    requires { is_readable_act entry.act ≡ true }
    ensures { IfOk result (λ text. text.items ≡ entry_text entry) }
{
    let mut entries = Vec::new(alloc);
    let Ok(()) = entries.push(entry) else {
        return Err(NoMemory);
    };
    let text = kilim_run_journal::text(alloc, &entries);
    drop(entries);
    text
}

fn made_line(alloc: Global, line: usize, entry: Entry) -> Result<Vec<u8>, NoMemory>
    requires { is_readable_act entry.act ≡ true }
    ensures { IfOk result (λ text. text.items ≡ made_front line ++ entry_text entry) }
{
    let Ok(mut text) = made_front(alloc, line) else {
        drop(entry);
        return Err(NoMemory);
    };
    let Ok(own) = entry_line(alloc, entry) else {
        return Err(NoMemory);
    };
    let Ok(()) = text.extend_from_slice(own.as_slice()) else {
        return Err(NoMemory);
    };
    Ok(text)
}

/// What is so of a journal with so many lines.
#[tactic(auto, unfolding(crate::specs::Lines::verdict_line))]
pub fn verdict_line(alloc: Global, lines: usize, verdict: Verdict) -> Result<Vec<u8>, NoMemory>
    requires { IsReadableVerdict verdict }
    ensures { IfOk result (λ text. text.items ≡ verdict_line lines verdict) }
{
    match verdict {
        Verdict::Whole => whole_line(alloc, lines),
        Verdict::Absent(line) => at_line(alloc, line, "absent"),
        Verdict::Ended(line) => at_line(alloc, line, "ended"),
        Verdict::Waits(line) => at_line(alloc, line, "waits"),
        Verdict::Made(line, entry) => made_line(alloc, line, entry),
        Verdict::Goes(line, task) => goes_line(alloc, line, task),
        Verdict::Rest(line) => at_line(alloc, line, "rest"),
    }
}
