//! Faults of linking: where they stand, in code, at a field, or at the class.

use crate::finding::{Wanted, find};
use crate::given::{Given, Near, near_of};
use crate::methods::{
    Tables, bytes_of, code_of, find_class, find_method, line_of, method_words, tables_of,
};
use crate::placed::{Spot, push_class_head, push_head, push_instead, push_line_at};
use crate::sources::{Sources, load};
use kilim_class_file::{ClassFile, MemberInfo};
use kilim_explain_words::{Advice, link_advice, number, push_class, simple};
use kilim_link_views::own_name;
use kilim_outside::Folder;
use kilim_pieces::{Piece, behind, between, push, word};
use kilim_units::NoMemory;
use std::alloc::Global;

// The number of an instruction in the word of a part that is left out.
fn opcode_in(name: &[u8]) -> Option<u8> {
    if !name.starts_with(b"opcode-") {
        return None;
    }
    match number(between(name, 7, name.len())) {
        Some(number) => match u8::try_from(number) {
            Ok(opcode) => Some(opcode),
            Err(_) => None,
        },
        None => None,
    }
}

// Whether a class is one of what is thrown and caught: then a handler may name it, and no instruction.
fn is_thrown(name: &[u8]) -> bool {
    name.ends_with(b"Throwable") || name.ends_with(b"Exception") || name.ends_with(b"Error")
}

// What is looked for in the code of a class of that name, to say where it stands.
fn wanted_by<'a>(class: &'a [u16], kind: &[u8], name: &'a [u8]) -> Option<Wanted<'a>> {
    match kind {
        b"missing" => Some(Wanted::Class(name)),
        b"no-member" => Some(Wanted::Member(name)),
        b"field-kind" => Some(Wanted::Field(class, name)),
        b"left-out" => {
            if name == b"pausable-handlers".as_slice() {
                return Some(Wanted::PausableHandlers);
            }
            match opcode_in(name) {
                Some(opcode) => Some(Wanted::Opcode(opcode)),
                None => None,
            }
        }
        _ => None,
    }
}

// A place in code: that of the class among the files, of the method in the class, and of the instruction.
#[derive(Clone, Copy)]
struct Place {
    class: usize,
    method: usize,
    at: usize,
}

/// A fault without a place: what it is of, and what is wrong.
pub fn push_plain(
    out: &mut Vec<u8>,
    of: &[u8],
    kind: &'static str,
    advice: Advice,
) -> Result<(), NoMemory> {
    push(out, &[Piece::Text(kind)])?;
    push_class(out, of)?;
    push(
        out,
        &[
            Piece::Text(": "),
            Piece::Text(advice.what),
            Piece::Text("\n"),
        ],
    )?;
    push_instead(out, advice)
}

// The same of linking, at a place of a method of these words.
fn push_told<'x>(
    out: &mut Vec<u8>,
    file: &'x ClassFile,
    member: &'x MemberInfo,
    tables: &'x Tables,
    source: &'x Sources,
    words: (&'x [u8], &'x [u8]),
    place: usize,
    advice: Advice,
) -> Result<(), NoMemory> {
    let (class, method) = words;
    let spot = Spot {
        class,
        method,
        file,
        tables,
        code: bytes_of(member),
        source,
    };
    push_head(out, spot, place, &[Piece::Text(advice.what)])?;
    push_line_at(out, spot, place)?;
    push_instead(out, advice)
}

// A fault of linking at a place of a method.
fn push_link_at<F: Folder>(
    out: &mut Vec<u8>,
    file: &ClassFile,
    near: Near<'_>,
    sources: &mut Sources,
    folder: &mut F,
    place: Place,
    line: &[u8],
    advice: Advice,
) -> Result<(), NoMemory> {
    let alloc = *out.allocator();
    let Some(member) = file.methods.as_slice().get(place.method) else {
        return Ok(());
    };
    load(
        alloc,
        sources,
        folder,
        near.below,
        file,
        place.class,
        near.beside,
    )?;
    let tables = tables_of(alloc, file, code_of(member))?;
    let method = method_words(alloc, file, member)?;
    let class = word(behind(line, 1));
    let words = (class, method.as_slice());
    push_told(out, file, member, &tables, sources, words, place.at, advice)
}

// The first line of a method's code, if it has any.
fn line_of_method(
    alloc: Global,
    file: &ClassFile,
    member: &MemberInfo,
) -> Result<Option<usize>, NoMemory> {
    let tables = tables_of(alloc, file, code_of(member))?;
    Ok(line_of(&tables, 0))
}

// The first line of a class's methods: that of the word `class` where javac wrote the constructor.
fn line_of_class(alloc: Global, file: &ClassFile) -> Result<Option<usize>, NoMemory> {
    let mut first: Option<usize> = None;
    for member in file.methods.as_slice() {
        let line = line_of_method(alloc, file, member)?;
        first = match (first, line) {
            (Some(one), Some(other)) => Some(one.min(other)),
            (known, None) => known,
            (None, line) => line,
        };
    }
    Ok(first)
}

// A fault of linking of a whole class, at its first line.
fn push_link_of_class<F: Folder>(
    out: &mut Vec<u8>,
    file: &ClassFile,
    near: Near<'_>,
    sources: &mut Sources,
    folder: &mut F,
    class: usize,
    name: &[u8],
    advice: Advice,
) -> Result<(), NoMemory> {
    let alloc = *out.allocator();
    load(alloc, sources, folder, near.below, file, class, near.beside)?;
    let first = match line_of_class(alloc, file)? {
        Some(line) => Some(line),
        None => sources.declared_at(simple(name)),
    };
    if first.is_none() && sources.name().is_empty() {
        return push_plain(out, name, "class ", advice);
    }
    push_class_head(out, sources, name, first, advice)?;
    push_instead(out, advice)
}

// Where a fault of linking stands: in code where it is found there, else at the method that the report names.
fn place_of(
    alloc: Global,
    file: &ClassFile,
    line: &[u8],
) -> Result<Option<(usize, usize)>, NoMemory> {
    let kind = word(behind(line, 2));
    let name = word(behind(line, 3));
    if let Some(wanted) = wanted_by(own_name(file), kind, name) {
        return match find(alloc, file, wanted)? {
            Some(at) => Ok(Some(at)),
            None if is_thrown(name) => find(alloc, file, Wanted::Handlers),
            None => Ok(None),
        };
    }
    let at = match number(word(behind(line, 4))) {
        Some(at) => at,
        None => 0,
    };
    if kind == b"override".as_slice() || kind == b"code".as_slice() {
        return match find_method(alloc, file, 0, name)? {
            Some(method) => Ok(Some((method, at))),
            None => Ok(None),
        };
    }
    Ok(None)
}

/// What is said of a fault of linking.
pub fn push_link<F: Folder>(
    out: &mut Vec<u8>,
    given: Given<'_>,
    sources: &mut Sources,
    folder: &mut F,
    line: &[u8],
) -> Result<(), NoMemory> {
    let alloc = *out.allocator();
    let name = word(behind(line, 1));
    let told = link_advice(word(behind(line, 2)), word(behind(line, 3)));
    let Some(class) = find_class(alloc, given.files, 0, name)? else {
        return push_plain(out, name, "class ", told);
    };
    let near = near_of(given, class);
    let Some(file) = given.files.get(class) else {
        return Ok(());
    };
    match place_of(alloc, file, line)? {
        Some((method, at)) => {
            let place = Place { class, method, at };
            push_link_at(out, file, near, sources, folder, place, line, told)
        }
        None => push_link_of_class(out, file, near, sources, folder, class, name, told),
    }
}
