//! A text on a terminal.

use kilim_pieces::between;
use kilim_units::NoMemory;
use std::alloc::Global;

const BOLD: &[u8] = b"\x1b[1m";

const PLAIN: &[u8] = b"\x1b[0m";

// Whether the line behind a place is set in: then the line before it is the first of a block.
fn is_set_in(text: &[u8], at: usize) -> bool {
    between(text, at, text.len()).starts_with(b"    ")
}

/// The text with the first line of each block in bold letters.
pub fn bold(alloc: Global, text: &[u8]) -> Result<Vec<u8>, NoMemory> {
    let mut out = Vec::new(alloc);
    let mut from = 0usize;
    for (i, byte) in text.iter().enumerate() {
        if *byte == b'\n' {
            let line = between(text, from, i);
            let first = !is_set_in(text, from) && is_set_in(text, i + 1);
            if first {
                out.extend_from_slice(BOLD)?;
            }
            out.extend_from_slice(line)?;
            if first {
                out.extend_from_slice(PLAIN)?;
            }
            out.push(b'\n')?;
            from = i + 1;
        }
    }
    Ok(out)
}
