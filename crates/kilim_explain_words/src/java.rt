//! Names as Java writes them.

use kilim_pieces::{Piece, between, push};
use kilim_units::NoMemory;

fn push_byte(out: &mut Vec<u8>, byte: u8) -> Result<(), NoMemory> {
    match out.push(byte) {
        Ok(()) => Ok(()),
        Err(_) => Err(NoMemory),
    }
}

/// A class, from its internal name: `app/Main$Item` is `app.Main.Item`.
pub fn push_class(out: &mut Vec<u8>, name: &[u8]) -> Result<(), NoMemory> {
    for byte in name {
        let shown = if *byte == b'/' || *byte == b'$' {
            b'.'
        } else {
            *byte
        };
        push_byte(out, shown)?;
    }
    Ok(())
}

// Whether a byte parts the names of packages and classes.
fn parts(byte: u8) -> bool {
    byte == b'/' || byte == b'$' || byte == b'.'
}

/// The last name of an internal name: `Item` of `app/Main$Item`.
pub fn simple(name: &[u8]) -> &[u8] {
    let mut from = 0usize;
    for (i, byte) in name.iter().enumerate() {
        if parts(*byte) {
            from = i + 1;
        }
    }
    between(name, from, name.len())
}

// The word of a type of one letter; none where the letter stands for none.
fn plain_type(letter: u8) -> Option<&'static str> {
    match letter {
        b'B' => Some("byte"),
        b'C' => Some("char"),
        b'D' => Some("double"),
        b'F' => Some("float"),
        b'I' => Some("int"),
        b'J' => Some("long"),
        b'S' => Some("short"),
        b'Z' => Some("boolean"),
        b'V' => Some("void"),
        _ => None,
    }
}

// The place of a byte behind a place, or the end.
fn place_of(bytes: &[u8], wanted: u8, from: usize) -> usize {
    for (i, byte) in bytes.iter().enumerate() {
        if i >= from && *byte == wanted {
            return i;
        }
    }
    bytes.len()
}

// A type at a place, and the place behind it.
fn push_type(out: &mut Vec<u8>, bytes: &[u8], at: usize) -> Result<usize, NoMemory> {
    let mut from = at;
    let mut arrays = 0usize;
    for byte in between(bytes, at, bytes.len()) {
        if *byte != b'[' {
            break;
        }
        arrays = arrays.saturating_add(1);
        from = from.saturating_add(1);
    }
    let behind = push_element(out, bytes, from)?;
    for _ in 0..arrays {
        push(out, &[Piece::Text("[]")])?;
    }
    Ok(behind)
}

fn push_element(out: &mut Vec<u8>, bytes: &[u8], at: usize) -> Result<usize, NoMemory> {
    match bytes.get(at) {
        Some(b'L') => {
            let end = place_of(bytes, b';', at);
            let name = between(bytes, at.saturating_add(1), end);
            push(out, &[Piece::Plain(simple(name))])?;
            Ok(end.saturating_add(1))
        }
        Some(letter) => {
            if let Some(word) = plain_type(*letter) {
                push(out, &[Piece::Text(word)])?;
            }
            Ok(at.saturating_add(1))
        }
        None => Ok(bytes.len()),
    }
}

// The types of a descriptor's parameters, between its brackets.
fn push_types(out: &mut Vec<u8>, types: &[u8]) -> Result<(), NoMemory> {
    let mut at = 0usize;
    for _ in 0..types.len() {
        if at >= types.len() {
            break;
        }
        if at > 0 {
            push(out, &[Piece::Text(", ")])?;
        }
        at = push_type(out, types, at)?;
    }
    Ok(())
}

/// A method, from its class and its name with its descriptor: `Heap.add(Job)`; a constructor has its class's name.
pub fn push_method(out: &mut Vec<u8>, class: &[u8], method: &[u8]) -> Result<(), NoMemory> {
    let open = place_of(method, b'(', 0);
    let name = between(method, 0, open);
    push_class(out, class)?;
    push(out, &[Piece::Text(".")])?;
    if name == b"<init>".as_slice() {
        push(out, &[Piece::Plain(simple(class))])?;
    } else {
        push(out, &[Piece::Plain(name)])?;
    }
    push(out, &[Piece::Text("(")])?;
    let close = place_of(method, b')', open);
    push_types(out, between(method, open.saturating_add(1), close))?;
    push(out, &[Piece::Text(")")])
}
