//! The lines of a journal's text, and words in them.

use kilim_pieces::between;
use kilim_units::NoMemory;
use std::alloc::Global;

/// Where each line begins, and where the text ends.
pub fn starts_of(alloc: Global, bytes: &[u8]) -> Result<Vec<usize>, NoMemory> {
    let mut starts = Vec::new(alloc);
    let Ok(()) = starts.push(0) else {
        return Err(NoMemory);
    };
    for (i, byte) in bytes.iter().enumerate() {
        if *byte == b'\n' {
            let Ok(()) = starts.push(i + 1) else {
                return Err(NoMemory);
            };
        }
    }
    Ok(starts)
}

/// A line without its line feed, by its number, from 1 on; nothing where there is none.
pub fn line_of<'a>(bytes: &'a [u8], starts: &[usize], line: usize) -> &'a [u8] {
    match (starts.get(line.saturating_sub(1)), starts.get(line)) {
        (Some(from), Some(to)) => between(bytes, *from, to.saturating_sub(1)),
        _ => &[],
    }
}

/// The class with which an object's text begins, without its package.
pub fn class_of(shape: &[u8]) -> &[u8] {
    let mut from = 0usize;
    for (i, byte) in shape.iter().enumerate() {
        if *byte == b'(' {
            return between(shape, from, i);
        }
        if *byte == b'/' {
            from = i + 1;
        }
    }
    &[]
}
