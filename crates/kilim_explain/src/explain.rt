//! A report, line by line.

ghost use Rattle.std.specs.Prelude.{◌≡◌, ◌<◌, ◌+◌, ◌++◌, ◌∷◌, [], Some, length, slice_get, OnOk, IfOk};
ghost use Rattle.kilim_explain.specs.Explains.{Explained, SaidTo};

use crate::given::{Given, Near, near_of};
use crate::links::{push_link, push_plain};
use crate::methods::{Tables, bytes_of, code_of, find_class, find_method, tables_of};
use crate::paths::places_of;
use crate::placed::{Spot, push_broken, push_head, push_instead, push_line_at};
use crate::sources::{Sources, load};
use kilim_class_file::{ClassFile, MemberInfo};
use kilim_explain_words::{
    Advice, advice_of, class_advice, main_advice, name_of, number, weave_advice,
};
use kilim_outside::Folder;
use kilim_pieces::{Piece, behind, between, word};
use kilim_units::NoMemory;
use std::alloc::Global;

// Where the last fault stood: the next one is mostly in the same method or behind it.
#[derive(Clone, Copy)]
struct Cursor {
    class: usize,
    method: usize,
}

// The place of a class, where the search for the next one begins.
fn seek_class(
    alloc: Global,
    given: Given<'_>,
    cursor: &mut Cursor,
    name: &[u8],
) -> Result<bool, NoMemory> {
    match find_class(alloc, given.files, cursor.class, name)? {
        Some(class) => {
            if class != cursor.class {
                cursor.method = 0;
            }
            cursor.class = class;
            Ok(true)
        }
        None => Ok(false),
    }
}

fn seek_method(
    alloc: Global,
    file: &ClassFile,
    cursor: &mut Cursor,
    name: &[u8],
) -> Result<bool, NoMemory> {
    match find_method(alloc, file, cursor.method, name)? {
        Some(method) => {
            cursor.method = method;
            Ok(true)
        }
        None => Ok(false),
    }
}

// The words of a line of a broken rule behind its place.
fn push_rule(
    out: &mut Vec<u8>,
    spot: Spot<'_>,
    place: usize,
    words: &[u8],
) -> Result<(), NoMemory> {
    let rule = match number(between(word(words), 1, word(words).len())) {
        Some(rule) => rule,
        None => 0,
    };
    let places = places_of(*out.allocator(), behind(words, 2))?;
    push_broken(
        out,
        spot,
        place,
        (name_of(rule), rule),
        advice_of(rule),
        places.as_slice(),
    )
}

const UNTYPED: Advice = Advice {
    what: "the code isn't well typed: no compiler of Java writes it so",
    instead: "compile the source anew, with javac --release 8",
};

fn push_type(out: &mut Vec<u8>, spot: Spot<'_>, place: usize) -> Result<(), NoMemory> {
    push_head(out, spot, place, &[Piece::Text(UNTYPED.what)])?;
    push_line_at(out, spot, place)?;
    push_instead(out, UNTYPED)
}

// A fault with a place.
fn push_fault<'x>(
    out: &mut Vec<u8>,
    file: &'x ClassFile,
    member: &'x MemberInfo,
    tables: &'x Tables,
    source: &'x Sources,
    line: &'x [u8],
) -> Result<(), NoMemory> {
    let spot = Spot {
        class: word(behind(line, 1)),
        method: word(behind(line, 2)),
        file,
        tables,
        code: bytes_of(member),
        source,
    };
    let place = match number(word(behind(line, 3))) {
        Some(place) => place,
        None => 0,
    };
    if word(line) == b"fault".as_slice() {
        push_rule(out, spot, place, behind(line, 4))
    } else {
        push_type(out, spot, place)
    }
}

// A fault with a place, of the method at a place of a file.
fn push_in_method<F: Folder>(
    out: &mut Vec<u8>,
    file: &ClassFile,
    near: Near<'_>,
    sources: &mut Sources,
    folder: &mut F,
    cursor: Cursor,
    line: &[u8],
) -> Result<(), NoMemory> {
    let alloc = *out.allocator();
    let Some(member) = file.methods.as_slice().get(cursor.method) else {
        return Ok(());
    };
    load(
        alloc,
        sources,
        folder,
        near.below,
        file,
        cursor.class,
        near.beside,
    )?;
    let tables = tables_of(alloc, file, code_of(member))?;
    push_fault(out, file, member, &tables, sources, line)
}

fn push_placed<F: Folder>(
    out: &mut Vec<u8>,
    given: Given<'_>,
    sources: &mut Sources,
    folder: &mut F,
    cursor: &mut Cursor,
    line: &[u8],
) -> Result<(), NoMemory> {
    let alloc = *out.allocator();
    if !seek_class(alloc, given, cursor, word(behind(line, 1)))? {
        return Ok(());
    }
    let near = near_of(given, cursor.class);
    let Some(file) = given.files.get(cursor.class) else {
        return Ok(());
    };
    if !seek_method(alloc, file, cursor, word(behind(line, 2)))? {
        return Ok(());
    }
    push_in_method(out, file, near, sources, folder, *cursor, line)
}

// The kind of a report of a class file: the word behind the name of the file, which may have spaces.
fn class_kind<'a>(given: Given<'_>, line: &'a [u8]) -> &'a [u8] {
    let rest = behind(line, 1);
    for name in given.names {
        if rest.starts_with(name.as_bytes()) {
            return word(behind(between(rest, name.len(), rest.len()), 1));
        }
    }
    word(behind(rest, 1))
}

// What comes before a line of a report.
fn push_comment<F: Folder>(
    out: &mut Vec<u8>,
    given: Given<'_>,
    sources: &mut Sources,
    folder: &mut F,
    cursor: &mut Cursor,
    line: &[u8],
) -> Result<(), NoMemory> {
    match word(line) {
        b"fault" | b"type" => push_placed(out, given, sources, folder, cursor, line),
        b"link" => push_link(out, given, sources, folder, line),
        b"class" => push_plain(
            out,
            b"",
            "a class file can't be read",
            class_advice(class_kind(given, line)),
        ),
        b"weave" => push_plain(
            out,
            word(behind(line, 1)),
            "class ",
            weave_advice(word(behind(line, 3))),
        ),
        b"main" => push_plain(out, word(behind(line, 1)), "main class ", main_advice()),
        _ => Ok(()),
    }
}

// What is said of a line.
fn comment<F: Folder>(
    alloc: Global,
    given: Given<'_>,
    sources: &mut Sources,
    folder: &mut F,
    cursor: &mut Cursor,
    line: &[u8],
) -> Result<Vec<u8>, NoMemory> {
    let mut out = Vec::new(alloc);
    push_comment(&mut out, given, sources, folder, cursor, line)?;
    Ok(out)
}

// A line of the report itself, with its line feed, behind what is said of it.
fn push_block(out: &mut Vec<u8>, said: &[u8], line: &[u8]) -> Result<(), NoMemory>
    ensures { OnOk result (out.new.items ≡ out.old.items ++ (said.now ++ (line.now ++ 10 ∷ []))) }
{
    let Ok(()) = out.extend_from_slice(said) else {
        return Err(NoMemory);
    };
    let Ok(()) = out.extend_from_slice(line) else {
        return Err(NoMemory);
    };
    let Ok(()) = out.push(b'\n') else {
        return Err(NoMemory);
    };
    Ok(())
}

fn push_rest(out: &mut Vec<u8>, rest: &[u8]) -> Result<(), NoMemory>
    ensures { OnOk result (out.new.items ≡ out.old.items ++ rest.now) }
{
    match out.extend_from_slice(rest) {
        Ok(()) => Ok(()),
        Err(_) => Err(NoMemory),
    }
}

fn byte_in(report: &[u8], at: usize) -> u8
    requires { at < length report.now }
    ensures { slice_get report.now at ≡ Some result }
{
    report[at]
}

// Goes on by one byte of the report: where that ends a line, the line is written behind what is said of it. The answer is the place at which the next line
// begins, or the one that isn't ended.
fn next_byte<F: Folder>(
    out: &mut Vec<u8>,
    given: Given<'_>,
    sources: &mut Sources,
    folder: &mut F,
    cursor: &mut Cursor,
    report: &[u8],
    places: (usize, usize),
) -> Result<usize, NoMemory>
    requires below { places.1 < length report.now }
    requires so_far { SaidTo report.now places.0 places.1 out.old.items }
    ensures { IfOk result (λ next. SaidTo report.now next (places.1 + 1) out.new.items) }
{
    let (from, i) = places;
    if byte_in(report, i) != b'\n' {
        return Ok(from);
    }
    let line = between(report, from, i);
    let Ok(said) = comment(*out.allocator(), given, sources, folder, cursor, line) else {
        return Err(NoMemory);
    };
    match push_block(out, said.as_slice(), line) {
        Ok(()) => Ok(i + 1),
        Err(_) => Err(NoMemory),
    }
}

/// A report with what it means: before each of its lines stands what a person wants to know. The lines of the report stand in it as they are, in
/// their order.
pub fn explained<F: Folder>(
    alloc: Global,
    report: &[u8],
    given: Given<'_>,
    sources: &mut Sources,
    folder: &mut F,
) -> Result<Vec<u8>, NoMemory>
    ensures { IfOk result (λ text. Explained report.now text.items) }
{
    let mut out = Vec::new(alloc);
    let mut cursor = Cursor {
        class: 0,
        method: 0,
    };
    let mut from = 0usize;
    for i in 0..report.len() {
        let Ok(next) = next_byte(
            &mut out,
            given,
            sources,
            folder,
            &mut cursor,
            report,
            (from, i),
        ) else {
            return Err(NoMemory);
        };
        from = next;
    }
    let Ok(()) = push_rest(&mut out, between(report, from, report.len())) else {
        return Err(NoMemory);
    };
    Ok(out)
}
