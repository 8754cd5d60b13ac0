//! Where in the code of a class something stands.

use crate::code::{byte_at, length_at, pair_at};
use crate::methods::{code_of, is_written};
use kilim_class_attributes::Code;
use kilim_class_file::{ClassFile, MemberInfo};
use kilim_class_pool::{Entry, Pool};
use kilim_link_views::{class_text, is_pausable, text_of};
use kilim_reports::{descriptor_text, member_name_text};
use kilim_units::{NoMemory, Units, name_text};
use std::alloc::Global;

/// What is looked for.
#[derive(Clone, Copy)]
pub enum Wanted<'a> {
    /// An instruction, by its number.
    Opcode(u8),
    /// A class that an instruction names, as a report writes it.
    Class(&'a [u8]),
    /// A member that an instruction names, as a report writes it.
    Member(&'a [u8]),
    /// A field of the class of these units, by the name that a report writes.
    Field(&'a [u16], &'a [u8]),
    /// A method with handlers.
    Handlers,
    /// A method that pauses and has handlers.
    PausableHandlers,
}

// Whether bytes stand somewhere in others.
fn holds(text: &[u8], part: &[u8]) -> bool {
    for i in 0..text.len() {
        if kilim_pieces::between(text, i, text.len()).starts_with(part) {
            return true;
        }
    }
    false
}

// Whether a type of that class stands in a descriptor.
fn has_type(alloc: Global, descriptor: &[u16], class: &[u8]) -> Result<bool, NoMemory> {
    let text = name_text(alloc, descriptor)?;
    let mut wanted = Vec::from_slice(alloc, b"L")?;
    wanted.extend_from_slice(class)?;
    wanted.push(b';')?;
    Ok(holds(text.as_slice(), wanted.as_slice()))
}

// Whether a class entry names that class, or an array of it.
fn names_class(alloc: Global, name: &[u16], class: &[u8]) -> Result<bool, NoMemory> {
    let text = name_text(alloc, name)?;
    if text.as_slice() == class {
        return Ok(true);
    }
    has_type(alloc, name, class)
}

// The owner, the name and the descriptor of a member entry.
fn member_at(pool: &Pool, index: u16) -> Option<(&[u16], &[u16], &[u16])> {
    let (owner, named) = match pool.entry(index) {
        Some(Entry::Fieldref(owner, named)) => (*owner, *named),
        Some(Entry::Methodref(owner, named)) => (*owner, *named),
        Some(Entry::InterfaceMethodref(owner, named)) => (*owner, *named),
        _ => return None,
    };
    match pool.entry(named) {
        Some(Entry::NameAndType(name, descriptor)) => Some((
            class_text(pool, owner),
            text_of(pool, *name),
            text_of(pool, *descriptor),
        )),
        _ => None,
    }
}

fn entry_has_class(alloc: Global, pool: &Pool, index: u16, class: &[u8]) -> Result<bool, NoMemory> {
    match member_at(pool, index) {
        Some((owner, _, descriptor)) => {
            if names_class(alloc, owner, class)? {
                return Ok(true);
            }
            has_type(alloc, descriptor, class)
        }
        None => names_class(alloc, class_text(pool, index), class),
    }
}

// A member as a report writes it.
fn member_words(
    alloc: Global,
    owner: &[u16],
    name: &[u16],
    descriptor: &[u16],
) -> Result<Vec<u8>, NoMemory> {
    let mut text = name_text(alloc, owner)?;
    text.push(b'.')?;
    let name = member_name_text(alloc, &Units::from_slice(alloc, name)?)?;
    text.extend_from_slice(name.as_slice())?;
    let descriptor = descriptor_text(alloc, &Units::from_slice(alloc, descriptor)?)?;
    text.extend_from_slice(descriptor.as_slice())?;
    Ok(text)
}

fn entry_is_member(
    alloc: Global,
    pool: &Pool,
    index: u16,
    member: &[u8],
) -> Result<bool, NoMemory> {
    match member_at(pool, index) {
        Some((owner, name, descriptor)) => {
            let words = member_words(alloc, owner, name, descriptor)?;
            Ok(words.as_slice() == member)
        }
        None => Ok(false),
    }
}

// Whether a member entry is the field of that name, of the class of these units.
fn entry_is_field(
    alloc: Global,
    pool: &Pool,
    index: u16,
    class: &[u16],
    field: &[u8],
) -> Result<bool, NoMemory> {
    match member_at(pool, index) {
        Some((owner, name, _)) if owner == class => is_written(alloc, name, field),
        _ => Ok(false),
    }
}

// Whether an instruction has an index of a field behind it (JVMS 6.5, getstatic to putfield).
fn has_field(opcode: u8) -> bool {
    (178..=181).contains(&opcode)
}

// Whether an instruction has an index of a class or of a member behind it.
fn has_index(opcode: u8) -> bool {
    (178 <= opcode && opcode <= 187) || (189..=193).contains(&opcode) || opcode == 197
}

// Whether the instruction at a place is what is looked for.
fn is_here(
    alloc: Global,
    pool: &Pool,
    code: &[u8],
    at: usize,
    wanted: Wanted<'_>,
) -> Result<bool, NoMemory> {
    let opcode = byte_at(code, at);
    let index = pair_at(code, at.saturating_add(1));
    match wanted {
        Wanted::Opcode(number) => Ok(opcode == number),
        Wanted::Class(class) => {
            if !has_index(opcode) {
                return Ok(false);
            }
            entry_has_class(alloc, pool, index, class)
        }
        Wanted::Member(member) => {
            if !has_index(opcode) {
                return Ok(false);
            }
            entry_is_member(alloc, pool, index, member)
        }
        Wanted::Field(class, field) => {
            if !has_field(opcode) {
                return Ok(false);
            }
            entry_is_field(alloc, pool, index, class, field)
        }
        Wanted::Handlers | Wanted::PausableHandlers => Ok(false),
    }
}

// The first place in some code at which what is looked for stands.
fn place_in(
    alloc: Global,
    pool: &Pool,
    code: &[u8],
    wanted: Wanted<'_>,
) -> Result<Option<usize>, NoMemory> {
    let mut at = 0usize;
    for _ in 0..code.len() {
        if at >= code.len() {
            break;
        }
        if is_here(alloc, pool, code, at, wanted)? {
            return Ok(Some(at));
        }
        at = at.saturating_add(length_at(code, at));
    }
    Ok(None)
}

// Where the range of the first handler begins.
fn first_handled(code: &Code) -> Option<usize> {
    match code.exception_table.as_slice().first() {
        Some(handler) => Some(usize::from(handler.start_pc)),
        None => None,
    }
}

// The place in a method.
fn place_of(
    alloc: Global,
    pool: &Pool,
    member: &MemberInfo,
    wanted: Wanted<'_>,
) -> Result<Option<usize>, NoMemory> {
    let Some(code) = code_of(member) else {
        return Ok(None);
    };
    match wanted {
        Wanted::Handlers => Ok(first_handled(code)),
        Wanted::PausableHandlers => {
            if is_pausable(pool, member) {
                Ok(first_handled(code))
            } else {
                Ok(None)
            }
        }
        _ => place_in(alloc, pool, code.code.as_slice(), wanted),
    }
}

/// The first method of a class in whose code something stands, and the place.
pub fn find(
    alloc: Global,
    file: &ClassFile,
    wanted: Wanted<'_>,
) -> Result<Option<(usize, usize)>, NoMemory> {
    for (k, member) in file.methods.as_slice().iter().enumerate() {
        if let Some(place) = place_of(alloc, &file.constant_pool, member, wanted)? {
            return Ok(Some((k, place)));
        }
    }
    Ok(None)
}
