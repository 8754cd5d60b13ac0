//! A fault that has a place in code: of the rules of isolation and pausing, or of typing.

use crate::code::{Act, act_at};
use crate::methods::{Tables, line_of, variable_of};
use crate::paths::{given_at, lines_of};
use crate::sources::Sources;
use kilim_class_file::ClassFile;
use kilim_explain_words::{Advice, push_class, push_method};
use kilim_pieces::{Piece, push};
use kilim_units::NoMemory;

/// The number of the rule that a variable is asked for whose object was given away.
const GONE: usize = 2;

/// Where a fault stands: its class and method as the report has them, the file, the method's tables and code, the source.
#[derive(Clone, Copy)]
pub struct Spot<'a> {
    pub class: &'a [u8],
    pub method: &'a [u8],
    pub file: &'a ClassFile,
    pub tables: &'a Tables,
    pub code: &'a [u8],
    pub source: &'a Sources,
}

// The name of the source, or that of the class where it isn't told.
fn source_name(spot: Spot<'_>) -> &[u8] {
    let name = spot.source.name();
    if name.is_empty() { spot.class } else { name }
}

/// What begins a block: the source and the line, where they are known, or else the place; and a text.
pub fn push_head(
    out: &mut Vec<u8>,
    spot: Spot<'_>,
    place: usize,
    texts: &[Piece<'_>],
) -> Result<(), NoMemory> {
    match line_of(spot.tables, place) {
        Some(line) => push(
            out,
            &[
                Piece::Plain(source_name(spot)),
                Piece::Text(":"),
                Piece::Number(line),
                Piece::Text(": "),
            ],
        )?,
        None => push(
            out,
            &[
                Piece::Plain(spot.class),
                Piece::Text(" at place "),
                Piece::Number(place),
                Piece::Text(": "),
            ],
        )?,
    }
    push(out, texts)?;
    push(out, &[Piece::Text("\n    in ")])?;
    push_method(out, spot.class, spot.method)?;
    push(out, &[Piece::Text("\n")])
}

/// What begins a block on a whole class: the source and the first line of its code, or of its declaration, if one is known; what is wrong; the
/// class; and the line.
pub fn push_class_head(
    out: &mut Vec<u8>,
    source: &Sources,
    class: &[u8],
    first: Option<usize>,
    advice: Advice,
) -> Result<(), NoMemory> {
    let name = source.name();
    push(
        out,
        &[Piece::Plain(if name.is_empty() { class } else { name })],
    )?;
    if let Some(line) = first {
        push(out, &[Piece::Text(":"), Piece::Number(line)])?;
    }
    push(
        out,
        &[
            Piece::Text(": "),
            Piece::Text(advice.what),
            Piece::Text("\n    in class "),
        ],
    )?;
    push_class(out, class)?;
    push(out, &[Piece::Text("\n")])?;
    match first {
        Some(line) => push_source(out, source, line),
        None => Ok(()),
    }
}

/// A line of the source, where it is known.
fn push_source(out: &mut Vec<u8>, source: &Sources, line: usize) -> Result<(), NoMemory> {
    let text = source.line(line);
    if text.is_empty() {
        return Ok(());
    }
    push(
        out,
        &[
            Piece::Text("        "),
            Piece::Number(line),
            Piece::Text("  "),
            Piece::Plain(text),
            Piece::Text("\n"),
        ],
    )
}

/// The line of a place, where it is known.
pub fn push_line_at(out: &mut Vec<u8>, spot: Spot<'_>, place: usize) -> Result<(), NoMemory> {
    match line_of(spot.tables, place) {
        Some(line) => push_source(out, spot.source, line),
        None => Ok(()),
    }
}

// A variable by its name, or by the number of its slot.
fn push_variable(
    out: &mut Vec<u8>,
    spot: Spot<'_>,
    slot: u16,
    place: usize,
) -> Result<(), NoMemory> {
    match variable_of(spot.file, spot.tables, slot, place) {
        Some(name) => {
            let text = String::from_utf16_lossy(*out.allocator(), name)?;
            push(
                out,
                &[
                    Piece::Text("`"),
                    Piece::Text(text.as_str()),
                    Piece::Text("`"),
                ],
            )
        }
        None => push(
            out,
            &[Piece::Text("slot "), Piece::Number(usize::from(slot))],
        ),
    }
}

// Where the object of a slot went that is asked for at the end of a path.
fn push_given(
    out: &mut Vec<u8>,
    spot: Spot<'_>,
    places: &[usize],
    slot: u16,
) -> Result<(), NoMemory> {
    let Some(place) = given_at(spot.code, places, slot) else {
        return Ok(());
    };
    match line_of(spot.tables, place) {
        Some(line) => {
            push(
                out,
                &[
                    Piece::Text("    given away, or moved, at line "),
                    Piece::Number(line),
                    Piece::Text("\n"),
                ],
            )?;
            push_source(out, spot.source, line)
        }
        None => push(
            out,
            &[
                Piece::Text("    given away, or moved, at place "),
                Piece::Number(place),
                Piece::Text("\n"),
            ],
        ),
    }
}

// The variable that the place of a fault asks for, and where its object went.
fn push_slot(
    out: &mut Vec<u8>,
    spot: Spot<'_>,
    place: usize,
    places: &[usize],
) -> Result<(), NoMemory> {
    match act_at(spot.code, place) {
        Act::Load(slot) => {
            push(out, &[Piece::Text("    the variable: ")])?;
            push_variable(out, spot, slot, place)?;
            push(out, &[Piece::Text("\n")])?;
            push_given(out, spot, places, slot)
        }
        _ => Ok(()),
    }
}

fn push_numbers(out: &mut Vec<u8>, numbers: &[usize]) -> Result<(), NoMemory> {
    for number in numbers {
        push(out, &[Piece::Text(" "), Piece::Number(*number)])?;
    }
    push(out, &[Piece::Text("\n")])
}

// The way to the fault: by lines, or by places where there are none; nothing where it is one line.
fn push_way(out: &mut Vec<u8>, spot: Spot<'_>, places: &[usize]) -> Result<(), NoMemory> {
    let lines = lines_of(*out.allocator(), spot.tables, places)?;
    if places.len() < 2 || lines.len() == 1 {
        return Ok(());
    }
    if lines.is_empty() {
        push(out, &[Piece::Text("    the way there: places")])?;
        return push_numbers(out, places);
    }
    push(out, &[Piece::Text("    the way there: lines")])?;
    push_numbers(out, lines.as_slice())
}

/// What to write instead.
pub fn push_instead(out: &mut Vec<u8>, advice: Advice) -> Result<(), NoMemory> {
    push(
        out,
        &[
            Piece::Text("    instead: "),
            Piece::Text(advice.instead),
            Piece::Text("\n"),
        ],
    )
}

/// All of a fault of a rule but the line of the report.
pub fn push_broken(
    out: &mut Vec<u8>,
    spot: Spot<'_>,
    place: usize,
    name: (&str, usize),
    advice: Advice,
    places: &[usize],
) -> Result<(), NoMemory> {
    push_head(
        out,
        spot,
        place,
        &[
            Piece::Text("rule "),
            Piece::Number(name.1),
            Piece::Text(", "),
            Piece::Text(name.0),
            Piece::Text(": "),
            Piece::Text(advice.what),
        ],
    )?;
    push_line_at(out, spot, place)?;
    if name.1 == GONE {
        push_slot(out, spot, place, places)?;
    }
    push_way(out, spot, places)?;
    push_instead(out, advice)
}
