//! The rows of a chart.

ghost use Rattle.std.specs.Prelude.{◌≡◌, ◌==◌, ◌+◌, IfOk};
ghost use Rattle.std.specs.List.{list_any};
ghost use Rattle.kilim_chart.specs.Rows.{deed_of, is_chosen, row_of, rows_from};

use kilim_program::BoxName;
use kilim_run_journal::{Act, Entry};
use kilim_run_state::EndCause;
use kilim_units::{NoMemory, Seq};
use std::alloc::Global;

/// A message by its mailbox and the number of its put there.
#[derive(Clone, Copy)]
pub struct MessageName {
    pub mailbox: BoxName,
    pub number: u64,
}

/// What an entry tells of a task, without values.
#[derive(Clone, Copy)]
pub enum Deed {
    Put(MessageName),
    Take(MessageName),
    Empty(BoxName),
    Start(u32),
    Print,
    End(EndCause),
    Wait(BoxName),
    Bound(BoxName),
}

/// An entry that is drawn.
#[derive(Clone, Copy)]
pub struct Row {
    /// Its line in the journal, from 1 on.
    pub line: usize,
    pub task: u32,
    pub deed: Deed,
}

/// Which entries are chosen.
#[derive(Drop)]
pub struct Choice {
    /// The first line, from 1 on.
    pub from: usize,
    /// The last line.
    pub to: usize,
    /// The tasks; none stands for all.
    pub tasks: Seq<u32>,
}

fn deed_of(act: &Act) -> Deed
    ensures { result ≡ deed_of act.now }
{
    match act {
        Act::Put(mailbox, number, _) => Deed::Put(MessageName {
            mailbox: *mailbox,
            number: *number,
        }),
        Act::Take(mailbox, number) => Deed::Take(MessageName {
            mailbox: *mailbox,
            number: *number,
        }),
        Act::Empty(mailbox) => Deed::Empty(*mailbox),
        Act::Start(task, _) => Deed::Start(*task),
        Act::Print(_) => Deed::Print,
        Act::End(cause) => Deed::End(*cause),
        Act::Wait(mailbox) => Deed::Wait(*mailbox),
        Act::Bound(mailbox, _) => Deed::Bound(*mailbox),
    }
}

fn has_task(tasks: &[u32], task: u32) -> bool
    ensures { result ≡ list_any (λ t. task == t) tasks.now }
{
    tasks.iter().any(|one| task == *one)
}

fn is_chosen(choice: &Choice, line: usize, entry: &Entry) -> bool
    ensures { result ≡ is_chosen choice.now line entry.now }
{
    choice.from <= line
        && line <= choice.to
        && (choice.tasks.is_empty() || has_task(choice.tasks.as_slice(), entry.task))
}

fn row_of(line: usize, entry: &Entry) -> Row
    ensures { result ≡ row_of line entry.now }
{
    Row {
        line,
        task: entry.task,
        deed: deed_of(&entry.act),
    }
}

/// A row for each entry that is chosen, in their order.
pub fn rows_of(alloc: Global, choice: &Choice, entries: &[Entry]) -> Result<Seq<Row>, NoMemory>
    ensures { IfOk result (λ rows. rows ≡ rows_from choice.now 1 entries.now) }
{
    let mut rows = Seq::new(alloc);
    for i in 0..entries.len() {
        if is_chosen(choice, i + 1, &entries[i]) {
            let Ok(()) = rows.push(row_of(i + 1, &entries[i])) else {
                return Err(NoMemory);
            };
        }
    }
    Ok(rows)
}
