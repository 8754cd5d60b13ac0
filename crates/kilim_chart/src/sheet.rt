//! The sheet on which a chart is drawn: its measures, in pixels, and its parts.

use crate::columns::{Column, column_of};
use crate::lines::{class_of, line_of};
use crate::rows::Row;
use kilim_pieces::{Piece, behind, front, push};
use kilim_program::BoxName;
use kilim_units::NoMemory;

/// The first column's place, and how far columns and rows are apart.
const LEFT: usize = 110;

const COLUMN: usize = 150;

const TOP: usize = 70;

const ROW: usize = 18;

/// The most characters of a label.
const LABEL: usize = 22;

/// The colours of mailboxes.
const COLOURS: [&str; 8] = [
    "#0b62c4", "#b3261e", "#1b7f3b", "#8a3ffc", "#b25e00", "#007d79", "#a2195b", "#4b5563",
];

/// What is drawn from: the journal's text with the beginnings of its lines, the rows and the columns.
#[derive(Clone, Copy)]
pub struct Sheet<'a> {
    pub bytes: &'a [u8],
    pub starts: &'a [usize],
    pub rows: &'a [Row],
    pub columns: &'a [Column],
}

/// The colour of a mailbox.
pub fn colour(name: BoxName) -> &'static str {
    let at = (name.task % 8 * 3 + name.number % 8) % 8;
    COLOURS[at as usize]
}

/// How far a column is from the left.
pub fn x_of(column: usize) -> usize {
    column.saturating_mul(COLUMN).saturating_add(LEFT)
}

/// How far a row is from the top.
pub fn y_of(row: usize) -> usize {
    row.saturating_mul(ROW).saturating_add(TOP)
}

/// How far the column of a task is from the left. Each task of the rows has one.
pub fn task_x(sheet: Sheet<'_>, task: u32) -> usize {
    match column_of(sheet.columns, task) {
        Some(at) => x_of(at),
        None => LEFT,
    }
}

/// The text of a row's line.
pub fn text_of<'a>(sheet: Sheet<'a>, row: &Row) -> &'a [u8] {
    line_of(sheet.bytes, sheet.starts, row.line)
}

/// A label behind a mark, with the whole line as its title. White around the letters keeps them readable where an arrow crosses them.
pub fn push_label<'a>(
    out: &mut Vec<u8>,
    at: (usize, usize),
    colour: &'a str,
    text: &'a [u8],
    title: &'a [u8],
) -> Result<(), NoMemory> {
    let rest = if text.len() > LABEL { ".." } else { "" };
    push(
        out,
        &[
            Piece::Text("<text x=\""),
            Piece::Number(at.0.saturating_add(8)),
            Piece::Text("\" y=\""),
            Piece::Number(at.1.saturating_add(4)),
            Piece::Text("\" fill=\""),
            Piece::Text(colour),
            Piece::Text("\" stroke=\"#fff\" stroke-width=\"3\" paint-order=\"stroke\">"),
            Piece::Shown(front(text, LABEL)),
            Piece::Text(rest),
            Piece::Text("<title>"),
            Piece::Shown(title),
            Piece::Text("</title></text>\n"),
        ],
    )
}

/// What stands before all shapes: the size, the head of arrows, a white ground.
pub fn push_head(out: &mut Vec<u8>, sheet: Sheet<'_>) -> Result<(), NoMemory> {
    push(
        out,
        &[
            Piece::Text("<svg xmlns=\"http://www.w3.org/2000/svg\" width=\""),
            Piece::Number(x_of(sheet.columns.len()).saturating_add(ROW)),
            Piece::Text("\" height=\""),
            Piece::Number(y_of(sheet.rows.len()).saturating_add(ROW)),
            Piece::Text("\" font-family=\"sans-serif\" font-size=\"11\">\n"),
            Piece::Text(
                "<defs><marker id=\"head\" markerWidth=\"7\" markerHeight=\"6\" refX=\"6\" refY=\"3\" orient=\"auto\">",
            ),
            Piece::Text("<path d=\"M0,0L7,3L0,6z\" fill=\"#555\"/></marker></defs>\n"),
            Piece::Text("<rect width=\"100%\" height=\"100%\" fill=\"#fff\"/>\n"),
        ],
    )
}

// The name of a task: its class, as its start says; that of the first is in no journal.
fn name_of<'a>(sheet: Sheet<'a>, column: &Column) -> &'a [u8] {
    if column.task == 0 {
        return b"main";
    }
    if column.line == 0 {
        return &[];
    }
    class_of(behind(line_of(sheet.bytes, sheet.starts, column.line), 3))
}

// A column: the task's number and name, and a line down to the last row in which it occurs.
fn push_column(
    out: &mut Vec<u8>,
    sheet: Sheet<'_>,
    column: &Column,
    x: usize,
) -> Result<(), NoMemory> {
    push(
        out,
        &[
            Piece::Text("<text x=\""),
            Piece::Number(x),
            Piece::Text("\" y=\"24\" text-anchor=\"middle\" font-weight=\"bold\">task "),
            Piece::Number(column.task as usize),
            Piece::Text("</text>\n<text x=\""),
            Piece::Number(x),
            Piece::Text("\" y=\"40\" text-anchor=\"middle\">"),
            Piece::Shown(name_of(sheet, column)),
            Piece::Text("</text>\n<path d=\"M"),
            Piece::Number(x),
            Piece::Text(",50V"),
            Piece::Number(y_of(column.last)),
            Piece::Text("\" stroke=\"#ccc\"/>\n"),
        ],
    )
}

/// All columns.
pub fn push_columns(out: &mut Vec<u8>, sheet: Sheet<'_>) -> Result<(), NoMemory> {
    for (i, column) in sheet.columns.iter().enumerate() {
        let Ok(()) = push_column(out, sheet, column, x_of(i)) else {
            return Err(NoMemory);
        };
    }
    Ok(())
}

/// What stands behind all shapes: how many rows were left out, and the end.
pub fn push_end(out: &mut Vec<u8>, sheet: Sheet<'_>, left: usize) -> Result<(), NoMemory> {
    if left > 0 {
        let Ok(()) = push(
            out,
            &[
                Piece::Text("<text x=\"20\" y=\""),
                Piece::Number(y_of(sheet.rows.len())),
                Piece::Text("\" fill=\"#b3261e\">"),
                Piece::Number(left),
                Piece::Text(
                    " more entries aren't drawn: --to=LINE draws all up to that line of the journal</text>\n",
                ),
            ],
        ) else {
            return Err(NoMemory);
        };
    }
    push(out, &[Piece::Text("</svg>\n")])
}
