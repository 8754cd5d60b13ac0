//! The columns of a chart: one for each task.

use crate::rows::{Deed, Row};
use kilim_run_journal::{Act, Entry};
use kilim_units::NoMemory;
use std::alloc::Global;

/// A column.
#[derive(Clone, Copy)]
pub struct Column {
    pub task: u32,
    /// The line in which the task is started, from 1 on; 0 where there is none.
    pub line: usize,
    /// The last row in which the task occurs.
    pub last: usize,
}

// The tasks of the rows, and those that a row starts: each once, in their order.
fn tasks_of(alloc: Global, rows: &[Row]) -> Result<Vec<u32>, NoMemory> {
    let mut tasks = Vec::new(alloc);
    for row in rows {
        let Ok(()) = tasks.push(row.task) else {
            return Err(NoMemory);
        };
        if let Deed::Start(task) = row.deed {
            let Ok(()) = tasks.push(task) else {
                return Err(NoMemory);
            };
        }
    }
    let Ok(()) = tasks.sort() else {
        return Err(NoMemory);
    };
    tasks.dedup();
    Ok(tasks)
}

/// The place of a task's column, from 0; None where it has none.
pub fn column_of(columns: &[Column], task: u32) -> Option<usize> {
    match columns.binary_search_by_key(&task, |column| column.task) {
        Ok(at) => Some(at),
        Err(_) => None,
    }
}

fn with_row(columns: &mut [Column], task: u32, row: usize) {
    if let Some(at) = column_of(columns, task) {
        if at < columns.len() {
            columns[at].last = row;
        }
    }
}

fn with_line(columns: &mut [Column], task: u32, line: usize) {
    if let Some(at) = column_of(columns, task) {
        if at < columns.len() {
            columns[at].line = line;
        }
    }
}

fn bare(alloc: Global, tasks: &[u32]) -> Result<Vec<Column>, NoMemory> {
    let mut columns = Vec::new(alloc);
    for task in tasks {
        let column = Column {
            task: *task,
            line: 0,
            last: 0,
        };
        let Ok(()) = columns.push(column) else {
            return Err(NoMemory);
        };
    }
    Ok(columns)
}

/// The columns of rows, by the numbers of the tasks. Where a task is started is looked up in the whole journal.
pub fn columns_of(alloc: Global, entries: &[Entry], rows: &[Row]) -> Result<Vec<Column>, NoMemory> {
    let Ok(tasks) = tasks_of(alloc, rows) else {
        return Err(NoMemory);
    };
    let Ok(mut columns) = bare(alloc, tasks.as_slice()) else {
        return Err(NoMemory);
    };
    for (i, row) in rows.iter().enumerate() {
        with_row(columns.as_mut_slice(), row.task, i);
        if let Deed::Start(task) = row.deed {
            with_row(columns.as_mut_slice(), task, i);
        }
    }
    for (i, entry) in entries.iter().enumerate() {
        if let Act::Start(task, _) = &entry.act {
            with_line(columns.as_mut_slice(), *task, i + 1);
        }
    }
    Ok(columns)
}
