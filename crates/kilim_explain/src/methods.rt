//! Classes and methods by the words of reports, and their debug tables.

use kilim_class_attributes::{Attribute, Code, CodeAttribute, CodeInfo, Info};
use kilim_class_file::{ClassFile, MemberInfo};
use kilim_class_pool::Pool;
use kilim_explain_lines::{
    LineNumber, LocalVariable, TableFault, line_at, line_numbers, local_variables, source_file,
    variable_at,
};
use kilim_link_views::{is_text, member_descriptor, member_name, own_name, text_of};
use kilim_reports::{descriptor_text, member_name_text};
use kilim_units::{NoMemory, Seq, Units, name_text};
use std::alloc::Global;

/// Whether these units are written so in a report.
pub fn is_written(alloc: Global, units: &[u16], word: &[u8]) -> Result<bool, NoMemory> {
    let text = name_text(alloc, units)?;
    Ok(text.as_slice() == word)
}

/// The name and the descriptor of a method, as they stand in a report.
pub fn method_words(
    alloc: Global,
    file: &ClassFile,
    member: &MemberInfo,
) -> Result<Vec<u8>, NoMemory> {
    let name = Units::from_slice(alloc, member_name(file, member))?;
    let descriptor = Units::from_slice(alloc, member_descriptor(file, member))?;
    let mut text = member_name_text(alloc, &name)?;
    let behind = descriptor_text(alloc, &descriptor)?;
    text.extend_from_slice(behind.as_slice())?;
    Ok(text)
}

/// The first class of that name, from a place on and then from the beginning.
pub fn find_class(
    alloc: Global,
    files: &[ClassFile],
    from: usize,
    word: &[u8],
) -> Result<Option<usize>, NoMemory> {
    for k in from..files.len() {
        if is_written(alloc, own_name(&files[k]), word)? {
            return Ok(Some(k));
        }
    }
    for k in 0..files.len() {
        if is_written(alloc, own_name(&files[k]), word)? {
            return Ok(Some(k));
        }
    }
    Ok(None)
}

fn is_method(
    alloc: Global,
    file: &ClassFile,
    member: &MemberInfo,
    word: &[u8],
) -> Result<bool, NoMemory> {
    let words = method_words(alloc, file, member)?;
    Ok(words.as_slice() == word)
}

/// The first method of that name and descriptor, from a place on and then from the beginning.
pub fn find_method(
    alloc: Global,
    file: &ClassFile,
    from: usize,
    word: &[u8],
) -> Result<Option<usize>, NoMemory> {
    let methods = file.methods.as_slice();
    for k in from..methods.len() {
        if is_method(alloc, file, &methods[k], word)? {
            return Ok(Some(k));
        }
    }
    for k in 0..methods.len() {
        if is_method(alloc, file, &methods[k], word)? {
            return Ok(Some(k));
        }
    }
    Ok(None)
}

/// The code of a method, if it has one.
pub fn code_of(member: &MemberInfo) -> Option<&Code> {
    for attribute in member.attributes.as_slice() {
        if let Info::Code(code) = &attribute.info {
            return Some(code);
        }
    }
    None
}

/// The bytes of a method's code.
pub fn bytes_of(member: &MemberInfo) -> &[u8] {
    match code_of(member) {
        Some(code) => code.code.as_slice(),
        None => &[],
    }
}

// The bytes of the first attribute of a name that is kept as it is.
fn raw_in_code<'a>(pool: &Pool, attributes: &'a [CodeAttribute], name: &[u8]) -> Option<&'a [u8]> {
    for attribute in attributes {
        if let CodeInfo::Raw(bytes) = &attribute.info {
            if is_text(text_of(pool, attribute.attribute_name_index), name) {
                return Some(bytes.as_slice());
            }
        }
    }
    None
}

fn raw_in_class<'a>(pool: &Pool, attributes: &'a [Attribute], name: &[u8]) -> Option<&'a [u8]> {
    for attribute in attributes {
        if let Info::Raw(bytes) = &attribute.info {
            if is_text(text_of(pool, attribute.attribute_name_index), name) {
                return Some(bytes.as_slice());
            }
        }
    }
    None
}

/// The debug tables of a method; empty where it has none.
#[derive(Drop)]
pub struct Tables {
    pub lines: Seq<LineNumber>,
    pub variables: Seq<LocalVariable>,
}

fn lines_of(alloc: Global, pool: &Pool, code: &Code) -> Result<Seq<LineNumber>, NoMemory> {
    match raw_in_code(pool, code.attributes.as_slice(), b"LineNumberTable") {
        Some(bytes) => match line_numbers(alloc, bytes) {
            Ok(rows) => Ok(rows),
            Err(TableFault::NoTable) => Ok(Seq::new(alloc)),
            Err(TableFault::Memory) => Err(NoMemory),
        },
        None => Ok(Seq::new(alloc)),
    }
}

fn variables_of(alloc: Global, pool: &Pool, code: &Code) -> Result<Seq<LocalVariable>, NoMemory> {
    match raw_in_code(pool, code.attributes.as_slice(), b"LocalVariableTable") {
        Some(bytes) => match local_variables(alloc, bytes) {
            Ok(rows) => Ok(rows),
            Err(TableFault::NoTable) => Ok(Seq::new(alloc)),
            Err(TableFault::Memory) => Err(NoMemory),
        },
        None => Ok(Seq::new(alloc)),
    }
}

/// The debug tables of a method's code.
pub fn tables_of(alloc: Global, file: &ClassFile, code: Option<&Code>) -> Result<Tables, NoMemory> {
    match code {
        Some(code) => {
            let lines = lines_of(alloc, &file.constant_pool, code)?;
            let variables = variables_of(alloc, &file.constant_pool, code)?;
            Ok(Tables { lines, variables })
        }
        None => Ok(Tables {
            lines: Seq::new(alloc),
            variables: Seq::new(alloc),
        }),
    }
}

/// The line of a place; none without lines.
pub fn line_of(tables: &Tables, place: usize) -> Option<usize> {
    match u32::try_from(place) {
        Ok(place) => line_at(tables.lines.as_slice(), place).map(usize::from),
        Err(_) => None,
    }
}

/// The name of the variable that a slot holds at a place; none where no table tells.
pub fn variable_of<'a>(
    file: &'a ClassFile,
    tables: &Tables,
    slot: u16,
    place: usize,
) -> Option<&'a [u16]> {
    let Ok(place) = u32::try_from(place) else {
        return None;
    };
    match variable_at(tables.variables.as_slice(), slot, place) {
        Some(index) => Some(text_of(&file.constant_pool, index)),
        None => None,
    }
}

/// The name of a class's source file; none where its file doesn't tell.
pub fn source_of(file: &ClassFile) -> Option<&[u16]> {
    let pool = &file.constant_pool;
    match raw_in_class(pool, file.attributes.as_slice(), b"SourceFile") {
        Some(bytes) => match source_file(bytes) {
            Ok(index) => Some(text_of(pool, index)),
            Err(_) => None,
        },
        None => None,
    }
}
