//! The public calls.

ghost use Rattle.std.specs.Prelude.{◌≡◌, List, IfErr, OnOk};
ghost use Rattle.kilim_run_journal.specs.declared.entry.Entry.{Entry as Event};
ghost use Rattle.kilim_run_journal.specs.Read.{IsJournal};
ghost use Rattle.kilim_chart.specs.Faults.{IsChartFault};

use crate::columns::columns_of;
use crate::lines::starts_of;
use crate::marks::push_shapes;
use crate::rows::{Choice, Row, rows_of};
use crate::shapes::{Shape, shapes_of};
use crate::sheet::{Sheet, push_columns, push_end, push_head};
use crate::waiting::waits_text;
use kilim_run_journal::{Entry, TextFault, read_text};
use kilim_units::NoMemory;
use std::alloc::Global;

/// The most rows of a chart of which no last line was asked for.
pub const ROWS: usize = 400;

/// Why there is no chart.
#[derive(Clone, Copy)]
pub enum ChartFault {
    /// The first line that is no entry's, from 1 on.
    BadLine(usize),
    /// Want of memory.
    Memory,
}

// The chart of shapes over rows.
fn drawn(
    alloc: Global,
    bytes: &[u8],
    entries: &[Entry],
    rows: &[Row],
    shapes: &[Shape],
    left: usize,
) -> Result<Vec<u8>, NoMemory> {
    let starts = starts_of(alloc, bytes)?;
    let columns = columns_of(alloc, entries, rows)?;
    let sheet = Sheet {
        bytes,
        starts: starts.as_slice(),
        rows,
        columns: columns.as_slice(),
    };
    let mut out = Vec::new(alloc);
    push_head(&mut out, sheet)?;
    push_columns(&mut out, sheet)?;
    push_shapes(&mut out, sheet, shapes)?;
    push_end(&mut out, sheet, left)?;
    Ok(out)
}

// At most so many of the front.
fn front(rows: &[Row], most: usize) -> &[Row] {
    if rows.len() > most {
        &rows[..most]
    } else {
        rows
    }
}

// The chart of the entries that are chosen, at most so many of them.
fn chart_of(
    alloc: Global,
    bytes: &[u8],
    entries: &[Entry],
    choice: &Choice,
    most: usize,
) -> Result<Vec<u8>, NoMemory> {
    let rows = rows_of(alloc, choice, entries)?;
    let kept = front(rows.as_slice(), most);
    let shapes = shapes_of(alloc, kept)?;
    drawn(
        alloc,
        bytes,
        entries,
        kept,
        shapes.as_slice(),
        rows.len().saturating_sub(kept.len()),
    )
}

/// The chart of a journal as one standalone SVG: a column for each task, a row for each entry that is chosen, at most so many of them, and
/// the shapes of these rows (`shapes_of`). The bytes have to be a journal's text: else its first bad line is answered.
pub fn chart(
    alloc: Global,
    bytes: &[u8],
    choice: &Choice,
    most: usize,
) -> Result<Vec<u8>, ChartFault>
    ensures ok { OnOk result ((es : List Event) × IsJournal bytes.now es) }
    ensures err { IfErr result (IsChartFault bytes.now) }
{
    match read_text(alloc, bytes) {
        Ok(entries) => match chart_of(alloc, bytes, entries.as_slice(), choice, most) {
            Ok(text) => Ok(text),
            Err(_) => Err(ChartFault::Memory),
        },
        Err(TextFault::BadLine(line)) => Err(ChartFault::BadLine(line)),
        Err(TextFault::Memory) => Err(ChartFault::Memory),
    }
}

fn waits_of(alloc: Global, bytes: &[u8], entries: &[Entry]) -> Result<Vec<u8>, NoMemory> {
    let starts = starts_of(alloc, bytes)?;
    waits_text(alloc, bytes, starts.as_slice(), entries)
}

/// How the tasks of a journal ended, and who waits for what. The bytes have to be a journal's text: else its first bad line is answered.
pub fn waits(alloc: Global, bytes: &[u8]) -> Result<Vec<u8>, ChartFault>
    ensures ok { OnOk result ((es : List Event) × IsJournal bytes.now es) }
    ensures err { IfErr result (IsChartFault bytes.now) }
{
    match read_text(alloc, bytes) {
        Ok(entries) => match waits_of(alloc, bytes, entries.as_slice()) {
            Ok(text) => Ok(text),
            Err(_) => Err(ChartFault::Memory),
        },
        Err(TextFault::BadLine(line)) => Err(ChartFault::BadLine(line)),
        Err(TextFault::Memory) => Err(ChartFault::Memory),
    }
}
