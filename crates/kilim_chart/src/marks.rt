//! The shapes as elements of SVG.

use crate::rows::{Deed, Row};
use crate::shapes::Shape;
use crate::sheet::{Sheet, colour, push_label, task_x, text_of, y_of};
use kilim_pieces::{Piece, behind, push};
use kilim_run_state::EndCause;
use kilim_units::NoMemory;

// A circle, filled or hollow, with a title.
fn push_circle<'a>(
    out: &mut Vec<u8>,
    at: (usize, usize),
    fill: &'a str,
    stroke: &'a str,
    title: &'a [u8],
) -> Result<(), NoMemory> {
    push(
        out,
        &[
            Piece::Text("<circle cx=\""),
            Piece::Number(at.0),
            Piece::Text("\" cy=\""),
            Piece::Number(at.1),
            Piece::Text("\" r=\"4\" fill=\""),
            Piece::Text(fill),
            Piece::Text("\" stroke=\""),
            Piece::Text(stroke),
            Piece::Text("\" stroke-width=\"2\"><title>"),
            Piece::Shown(title),
            Piece::Text("</title></circle>\n"),
        ],
    )
}

// A bar across a column, with a title.
fn push_bar<'a>(
    out: &mut Vec<u8>,
    at: (usize, usize),
    stroke: &'a str,
    title: &'a [u8],
) -> Result<(), NoMemory> {
    push(
        out,
        &[
            Piece::Text("<path d=\"M"),
            Piece::Number(at.0.saturating_sub(7)),
            Piece::Text(","),
            Piece::Number(at.1),
            Piece::Text("h14\" stroke=\""),
            Piece::Text(stroke),
            Piece::Text("\" stroke-width=\"4\"><title>"),
            Piece::Shown(title),
            Piece::Text("</title></path>\n"),
        ],
    )
}

// The colour of an end: one that isn't `done` stands out.
fn end_colour(cause: EndCause) -> &'static str {
    match cause {
        EndCause::Done => "#555",
        _ => "#d00000",
    }
}

// The number of a row's line in the journal, at the left.
fn push_line_number(out: &mut Vec<u8>, row: &Row, y: usize) -> Result<(), NoMemory> {
    push(
        out,
        &[
            Piece::Text("<text x=\"40\" y=\""),
            Piece::Number(y.saturating_add(4)),
            Piece::Text("\" text-anchor=\"end\" fill=\"#999\">"),
            Piece::Number(row.line),
            Piece::Text("</text>\n"),
        ],
    )
}

// The sign of a row: a circle that is filled where a message is given away, and hollow where one is taken; a bar at an end.
fn push_sign(
    out: &mut Vec<u8>,
    deed: Deed,
    at: (usize, usize),
    title: &[u8],
) -> Result<(), NoMemory> {
    match deed {
        Deed::Put(name) => push_circle(out, at, colour(name.mailbox), colour(name.mailbox), title),
        Deed::Take(name) => push_circle(out, at, "#fff", colour(name.mailbox), title),
        Deed::Empty(_) => push_circle(out, at, "#fff", "#ccc", title),
        Deed::Start(_) => push_circle(out, at, "#1b7f3b", "#000", title),
        Deed::Print => push_circle(out, at, "#000", "#000", title),
        Deed::End(cause) => push_bar(out, at, end_colour(cause), title),
        Deed::Wait(_) => push_bar(out, at, "#f59e0b", title),
        Deed::Bound(name) => push_circle(out, at, "#eee", colour(name), title),
    }
}

// What stands beside a sign, and its colour: the message, the mailbox, what was printed, or the whole act.
fn label_of<'a>(deed: Deed, line: &'a [u8]) -> (&'a [u8], &'static str) {
    match deed {
        Deed::Put(name) => (behind(line, 4), colour(name.mailbox)),
        Deed::Take(name) => (behind(line, 1), colour(name.mailbox)),
        Deed::End(cause) => (behind(line, 1), end_colour(cause)),
        Deed::Wait(_) => (behind(line, 1), "#b45309"),
        _ => (behind(line, 1), "#000"),
    }
}

fn push_mark(out: &mut Vec<u8>, sheet: Sheet<'_>, row: usize) -> Result<(), NoMemory> {
    if row >= sheet.rows.len() {
        return Ok(());
    }
    let drawn = &sheet.rows[row];
    let at = (task_x(sheet, drawn.task), y_of(row));
    let line = text_of(sheet, drawn);
    let (label, colour) = label_of(drawn.deed, line);
    let Ok(()) = push_line_number(out, drawn, at.1) else {
        return Err(NoMemory);
    };
    let Ok(()) = push_sign(out, drawn.deed, at, line) else {
        return Err(NoMemory);
    };
    push_label(out, at, colour, label, line)
}

// A bow from one place to another, with a head at its end. Inside a column it goes round the marks.
fn push_bow<'a>(
    out: &mut Vec<u8>,
    from: (usize, usize),
    to: (usize, usize),
    colour: &'a str,
    title: &'a [u8],
) -> Result<(), NoMemory> {
    let side = if from.0 == to.0 { 40 } else { 0 };
    push(
        out,
        &[
            Piece::Text("<path d=\"M"),
            Piece::Number(from.0),
            Piece::Text(","),
            Piece::Number(from.1),
            Piece::Text("C"),
            Piece::Number(from.0.saturating_sub(side)),
            Piece::Text(","),
            Piece::Number(from.1),
            Piece::Text(" "),
            Piece::Number(to.0.saturating_sub(side)),
            Piece::Text(","),
            Piece::Number(to.1),
            Piece::Text(" "),
            Piece::Number(to.0),
            Piece::Text(","),
            Piece::Number(to.1),
            Piece::Text("\" fill=\"none\" stroke=\""),
            Piece::Text(colour),
            Piece::Text("\" marker-end=\"url(#head)\"><title>"),
            Piece::Shown(title),
            Piece::Text("</title></path>\n"),
        ],
    )
}

// The colour of an arrow to a row: that of the mailbox.
fn arrow_colour(deed: Deed) -> &'static str {
    match deed {
        Deed::Put(name) => colour(name.mailbox),
        _ => "#555",
    }
}

fn push_arrow(
    out: &mut Vec<u8>,
    sheet: Sheet<'_>,
    put: usize,
    take: usize,
) -> Result<(), NoMemory> {
    if put >= sheet.rows.len() || take >= sheet.rows.len() {
        return Ok(());
    }
    let (from, to) = (&sheet.rows[put], &sheet.rows[take]);
    push_bow(
        out,
        (task_x(sheet, from.task), y_of(put)),
        (task_x(sheet, to.task), y_of(take)),
        arrow_colour(from.deed),
        text_of(sheet, from),
    )
}

fn push_begins(out: &mut Vec<u8>, sheet: Sheet<'_>, row: usize, task: u32) -> Result<(), NoMemory> {
    if row >= sheet.rows.len() {
        return Ok(());
    }
    let from = &sheet.rows[row];
    push_bow(
        out,
        (task_x(sheet, from.task), y_of(row)),
        (task_x(sheet, task), y_of(row)),
        "#1b7f3b",
        text_of(sheet, from),
    )
}

fn push_if_arrow(out: &mut Vec<u8>, sheet: Sheet<'_>, shape: Shape) -> Result<(), NoMemory> {
    match shape {
        Shape::Mark(_) => Ok(()),
        Shape::Arrow(put, take) => push_arrow(out, sheet, put, take),
        Shape::Begins(row, task) => push_begins(out, sheet, row, task),
    }
}

fn push_if_mark(out: &mut Vec<u8>, sheet: Sheet<'_>, shape: Shape) -> Result<(), NoMemory> {
    match shape {
        Shape::Mark(row) => push_mark(out, sheet, row),
        _ => Ok(()),
    }
}

/// All shapes as elements: the arrows first, so that the marks lie on them.
pub fn push_shapes(out: &mut Vec<u8>, sheet: Sheet<'_>, shapes: &[Shape]) -> Result<(), NoMemory> {
    for shape in shapes {
        let Ok(()) = push_if_arrow(out, sheet, *shape) else {
            return Err(NoMemory);
        };
    }
    for shape in shapes {
        let Ok(()) = push_if_mark(out, sheet, *shape) else {
            return Err(NoMemory);
        };
    }
    Ok(())
}
