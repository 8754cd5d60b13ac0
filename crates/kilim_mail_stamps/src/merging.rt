//! Parts are merged into one journal.

ghost use Rattle.std.specs.Prelude.{◌≡◌, OnOk, IfOk, map};
ghost use Rattle.kilim_mail_stamps.specs.Stamps.{in_order, joined, Merged};
ghost use Rattle.kilim_mail_stamps.specs.Merging.{Apart};

use crate::stamped::Stamped;
use kilim_run_journal::Entry;
use kilim_units::NoMemory;
use std::alloc::Global;

// All entries of the parts, one part behind the other.
fn join(alloc: Global, parts: Vec<Vec<Stamped>>) -> Result<Vec<Stamped>, NoMemory>
    ensures { IfOk result (λ all. all.items ≡ joined (map (λ p. p.items) parts.items)) }
{
    let mut all = Vec::new(alloc);
    for part in parts {
        let mut part = part;
        let Ok(()) = all.append(&mut part) else {
            return Err(NoMemory);
        };
    }
    Ok(all)
}

// Sorts entries by stamp, and those of one stamp by task number: both sorts keep the order of what is alike.
fn sort(entries: &mut Vec<Stamped>) -> Result<(), NoMemory>
    requires { Apart entries.old.items }
    ensures { OnOk result (entries.new.items ≡ in_order entries.old.items) }
{
    let Ok(()) = entries.sort_by_key(|s| s.entry.task) else {
        return Err(NoMemory);
    };
    let Ok(()) = entries.sort_by_key(|s| s.stamp) else {
        return Err(NoMemory);
    };
    Ok(())
}

// The entries without their stamps.
fn without_stamps(alloc: Global, all: Vec<Stamped>) -> Result<Vec<Entry>, NoMemory>
    ensures { IfOk result (λ es. es.items ≡ map (λ s. s.entry) all.items) }
{
    let mut entries = Vec::new(alloc);
    for stamped in all {
        let Ok(()) = entries.push(stamped.entry) else {
            return Err(NoMemory);
        };
    }
    Ok(entries)
}

/// Merges parts into one journal: their entries by stamp, and those of one stamp by task number. No two of them have the same stamp and
/// task. The error is want of memory alone.
pub fn merge(alloc: Global, parts: Vec<Vec<Stamped>>) -> Result<Vec<Entry>, NoMemory>
    requires { Apart (joined (map (λ p. p.items) parts.items)) }
    ensures { IfOk result (λ es. Merged es.items (map (λ p. p.items) parts.items)) }
{
    let Ok(mut all) = join(alloc, parts) else {
        return Err(NoMemory);
    };
    let Ok(()) = sort(&mut all) else {
        return Err(NoMemory);
    };
    without_stamps(alloc, all)
}
