//! Texts in pieces.

ghost use Rattle.std.specs.Prelude.{◌≡◌, ◌++◌, OnOk};
ghost use Rattle.kilim_pieces.specs.Texts.{shown, shown_text};

use kilim_units::NoMemory;
use std::alloc::AllocError;

/// A part of a text.
#[derive(Clone, Copy)]
pub enum Piece<'a> {
    /// A text as it is.
    Text(&'a str),
    /// A number, by its digits.
    Number(usize),
    /// Bytes as they are.
    Plain(&'a [u8]),
    /// Bytes with what is markup in them escaped.
    Shown(&'a [u8]),
}

// Adds a byte, or the name of one that is markup.
fn push_byte(out: &mut Vec<u8>, byte: u8) -> Result<(), AllocError>
    ensures { OnOk result (out.new.items ≡ out.old.items ++ shown byte) }
{
    if byte == b'&' {
        out.extend_from_slice(b"&amp;")
    } else if byte == b'<' {
        out.extend_from_slice(b"&lt;")
    } else if byte == b'>' {
        out.extend_from_slice(b"&gt;")
    } else if byte == b'"' {
        out.extend_from_slice(b"&quot;")
    } else {
        out.extend_from_slice(&[byte])
    }
}

// Adds bytes so that none of them is taken for markup.
fn push_shown(out: &mut Vec<u8>, bytes: &[u8]) -> Result<(), NoMemory>
    ensures { OnOk result (out.new.items ≡ out.old.items ++ shown_text bytes.now) }
{
    for byte in bytes {
        let Ok(()) = push_byte(out, *byte) else {
            return Err(NoMemory);
        };
    }
    Ok(())
}

fn push_number(out: &mut Vec<u8>, number: usize) -> Result<(), NoMemory> {
    let Ok(digits) = format!(in *out.allocator(); "{number}") else {
        return Err(NoMemory);
    };
    match out.extend_from_slice(digits.as_bytes()) {
        Ok(()) => Ok(()),
        Err(_) => Err(NoMemory),
    }
}

fn push_piece(out: &mut Vec<u8>, piece: Piece<'_>) -> Result<(), NoMemory> {
    match piece {
        Piece::Text(text) => match out.extend_from_slice(text.as_bytes()) {
            Ok(()) => Ok(()),
            Err(_) => Err(NoMemory),
        },
        Piece::Number(number) => push_number(out, number),
        Piece::Plain(bytes) => match out.extend_from_slice(bytes) {
            Ok(()) => Ok(()),
            Err(_) => Err(NoMemory),
        },
        Piece::Shown(bytes) => push_shown(out, bytes),
    }
}

/// Adds pieces at the end.
pub fn push(out: &mut Vec<u8>, pieces: &[Piece<'_>]) -> Result<(), NoMemory> {
    for piece in pieces {
        let Ok(()) = push_piece(out, *piece) else {
            return Err(NoMemory);
        };
    }
    Ok(())
}
