//! What is written of a run.

ghost use Rattle.std.specs.Prelude.{◌≡◌, IfOk};
ghost use Rattle.kilim_run_journal.specs.Readable.{IsReadable};
ghost use Rattle.kilim_command.specs.RunText.{run_text};

use crate::line::demo_line;
use kilim_run_journal::Entry;
use kilim_units::NoMemory;
use std::alloc::Global;

fn text_in(alloc: Global, demo: Option<u64>, entries: &Vec<Entry>) -> Result<Vec<u8>, NoMemory>
    requires { IsReadable entries.now.items }
    ensures { IfOk result (λ text. text.items ≡ run_text demo entries.now.items) }
{
    match demo {
        Some(number) => demo_line(alloc, number, entries.as_slice()),
        None => kilim_run_journal::text(alloc, entries),
    }
}

/// What is written of a run: its journal, or the line of the demo of a number. The entries are let go. The error is want of memory.
pub fn text_of_run(
    alloc: Global,
    demo: Option<u64>,
    entries: Vec<Entry>,
) -> Result<Vec<u8>, NoMemory>
    requires { IsReadable entries.items }
    ensures { IfOk result (λ text. text.items ≡ run_text demo entries.items) }
{
    let text = text_in(alloc, demo, &entries);
    drop(entries);
    text
}
