//! What tables say of a place in code.

ghost use Rattle.std.specs.Prelude.{◌≡◌, None, find};
ghost use Rattle.kilim_explain_lines.specs.Lookups.{best_row, better, holds, is_behind, line_of, name_of};

use crate::tables::{LineNumber, LocalVariable};

fn is_behind(best: Option<LineNumber>, row: LineNumber) -> bool
    ensures { result ≡ is_behind best row }
{
    match best {
        Some(best) => best.start_pc <= row.start_pc,
        None => true,
    }
}

fn better(place: u32, best: Option<LineNumber>, row: LineNumber) -> Option<LineNumber>
    ensures { result ≡ better place best row }
{
    if u32::from(row.start_pc) <= place && is_behind(best, row) {
        Some(row)
    } else {
        best
    }
}

/// The line of a place: that of the last row of those that begin nearest before it, or at it.
pub fn line_at(rows: &[LineNumber], place: u32) -> Option<u16>
    ensures { result ≡ line_of (best_row place None rows.now) }
{
    let mut best = None;
    for row in rows {
        best = better(place, best, *row);
    }
    match best {
        Some(row) => Some(row.line_number),
        None => None,
    }
}

fn holds(slot: u16, place: u32, row: &LocalVariable) -> bool
    ensures { result ≡ holds slot place row.now }
{
    let start = u32::from(row.start_pc);
    row.index == slot && (start <= place && place < start + u32::from(row.length))
}

/// The index of the name of the variable that a slot holds at a place, as the first row of it says.
pub fn variable_at(rows: &[LocalVariable], slot: u16, place: u32) -> Option<u16>
    ensures { result ≡ name_of (find (holds slot place) rows.now) }
{
    for row in rows {
        if holds(slot, place, row) {
            return Some(row.name_index);
        }
    }
    None
}
