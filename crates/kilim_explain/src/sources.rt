//! The texts of source files.

use crate::methods::source_of;
use kilim_class_file::ClassFile;
use kilim_link_views::own_name;
use kilim_outside::{Folder, FolderFault};
use kilim_pieces::between;
use kilim_units::NoMemory;
use std::alloc::Global;

/// The source of one class, the last one that was asked for: which class, its name, its bytes, and where its lines begin. So each
/// source is read once for all faults of a class.
#[derive(Drop)]
pub struct Sources {
    class: Option<usize>,
    name: Vec<u8>,
    bytes: Vec<u8>,
    starts: Vec<usize>,
}

// A text of units as bytes.
fn utf8_of(alloc: Global, units: &[u16]) -> Result<Vec<u8>, NoMemory> {
    match String::from_utf16_lossy(alloc, units) {
        Ok(text) => Ok(text.into_bytes()),
        Err(_) => Err(NoMemory),
    }
}

// The folder in front of the last name: with its stroke, or nothing.
fn folder_of(name: &[u8]) -> &[u8] {
    let mut to = 0usize;
    for (i, byte) in name.iter().enumerate() {
        if *byte == b'/' {
            to = i + 1;
        }
    }
    between(name, 0, to)
}

fn joined(alloc: Global, first: &[u8], second: &[u8], third: &[u8]) -> Result<Vec<u8>, NoMemory> {
    let mut text = Vec::from_slice(alloc, first)?;
    text.extend_from_slice(second)?;
    text.extend_from_slice(third)?;
    Ok(text)
}

// The bytes of a file; none where it can't be read.
fn read_in<F: Folder>(alloc: Global, files: &mut F, name: &[u8]) -> Result<Vec<u8>, NoMemory> {
    let text = String::from_utf8_lossy(alloc, name)?;
    let mut bytes = Vec::new(alloc);
    match files.read(text.as_str(), &mut bytes) {
        Ok(()) => Ok(bytes),
        Err(FolderFault::Failed) => {
            bytes.clear();
            Ok(bytes)
        }
        Err(FolderFault::NoMemory) => Err(NoMemory),
    }
}

fn starts_of(alloc: Global, bytes: &[u8]) -> Result<Vec<usize>, NoMemory> {
    let mut starts = Vec::new(alloc);
    starts.push(0)?;
    for (i, byte) in bytes.iter().enumerate() {
        if *byte == b'\n' {
            starts.push(i + 1)?;
        }
    }
    starts.push(bytes.len().saturating_add(1))?;
    Ok(starts)
}

// A line without blanks at its ends.
fn trimmed(line: &[u8]) -> &[u8] {
    let mut from = line.len();
    let mut to = 0usize;
    for (i, byte) in line.iter().enumerate() {
        if *byte > b' ' {
            from = from.min(i);
            to = i + 1;
        }
    }
    between(line, from, to)
}

// Whether a byte is one of a name's letters and digits.
fn is_of_name(byte: u8) -> bool {
    byte.is_ascii_alphanumeric() || byte == b'_' || byte == b'$'
}

// Whether a text begins with a word, a space, and that name.
fn begins_with(text: &[u8], word: &[u8], name: &[u8]) -> bool {
    let behind = between(text, word.len(), text.len());
    let rest = between(behind, name.len(), behind.len());
    text.starts_with(word)
        && behind.starts_with(name)
        && !rest.first().is_some_and(|byte| is_of_name(*byte))
}

// Whether a line declares a class, an interface or an enum of that name.
fn declares(line: &[u8], name: &[u8]) -> bool {
    for i in 0..line.len() {
        let rest = between(line, i, line.len());
        if begins_with(rest, b"class ", name)
            || begins_with(rest, b"interface ", name)
            || begins_with(rest, b"enum ", name)
        {
            return true;
        }
    }
    false
}

impl Sources {
    /// No source is known.
    pub fn new(alloc: Global) -> Sources {
        Sources {
            class: None,
            name: Vec::new(alloc),
            bytes: Vec::new(alloc),
            starts: Vec::new(alloc),
        }
    }

    /// The name of the source, with the folders of its package; nothing where the class file doesn't tell.
    pub fn name(&self) -> &[u8] {
        self.name.as_slice()
    }

    /// The first line that declares a class of that name, without its package and the classes around it; none where the source isn't known.
    pub fn declared_at(&self, name: &[u8]) -> Option<usize> {
        for line in 1..self.starts.len() {
            if declares(self.line(line), name) {
                return Some(line);
            }
        }
        None
    }

    /// A line without blanks at its ends, from 1 on; nothing where it isn't known.
    pub fn line(&self, line: usize) -> &[u8] {
        match (
            self.starts.get(line.saturating_sub(1)),
            self.starts.get(line),
        ) {
            (Some(from), Some(to)) => trimmed(between(
                self.bytes.as_slice(),
                *from,
                to.saturating_sub(1),
            )),
            _ => &[],
        }
    }
}

// The source, looked for below the folder that was given, and beside the class file.
fn found_source<F: Folder>(
    alloc: Global,
    files: &mut F,
    below: Option<&str>,
    beside: &[u8],
    package: &[u8],
    name: &[u8],
) -> Result<Vec<u8>, NoMemory> {
    if let Some(folder) = below {
        let root = joined(alloc, folder.as_bytes(), b"/", package)?;
        let whole = joined(alloc, root.as_slice(), name, b"")?;
        let bytes = read_in(alloc, files, whole.as_slice())?;
        if !bytes.is_empty() {
            return Ok(bytes);
        }
        let flat = joined(alloc, folder.as_bytes(), b"/", name)?;
        let bytes = read_in(alloc, files, flat.as_slice())?;
        if !bytes.is_empty() {
            return Ok(bytes);
        }
    }
    let near = joined(alloc, folder_of(beside), name, b"")?;
    read_in(alloc, files, near.as_slice())
}

// The source of a class that is the one at a place, from the file of that name.
fn source_at<F: Folder>(
    alloc: Global,
    files: &mut F,
    below: Option<&str>,
    file: &ClassFile,
    class: usize,
    beside: &[u8],
) -> Result<Sources, NoMemory> {
    let own = utf8_of(alloc, own_name(file))?;
    let package = folder_of(own.as_slice());
    let Some(units) = source_of(file) else {
        return Ok(Sources {
            class: Some(class),
            name: Vec::new(alloc),
            bytes: Vec::new(alloc),
            starts: Vec::new(alloc),
        });
    };
    let source = utf8_of(alloc, units)?;
    let bytes = found_source(alloc, files, below, beside, package, source.as_slice())?;
    let starts = starts_of(alloc, bytes.as_slice())?;
    let name = joined(alloc, package, simple_file(source.as_slice()), b"")?;
    Ok(Sources {
        class: Some(class),
        name,
        bytes,
        starts,
    })
}

// The last name of a path.
fn simple_file(name: &[u8]) -> &[u8] {
    between(name, folder_of(name).len(), name.len())
}

/// The source of a class: the one that is known, or another one that is read.
pub fn load<F: Folder>(
    alloc: Global,
    sources: &mut Sources,
    files: &mut F,
    below: Option<&str>,
    file: &ClassFile,
    class: usize,
    beside: &[u8],
) -> Result<(), NoMemory> {
    if sources.class == Some(class) {
        return Ok(());
    }
    *sources = source_at(alloc, files, below, file, class, beside)?;
    Ok(())
}
