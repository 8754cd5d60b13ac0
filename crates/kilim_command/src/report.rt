//! Reports, and the line of accepted files: each with its line feed.

ghost use Rattle.std.specs.Prelude.{◌≡◌, ◌++◌, codes, IfOk};
ghost use Rattle.std.specs.List.{flat_map};
ghost use Rattle.std.specs.Char.Escape.{encode_utf16};
ghost use Rattle.std.specs.Str.{chars};
ghost use Rattle.kilim_command.specs.Report.{utf16_of, named_line, accepted_line};

use kilim_units::NoMemory;
use std::alloc::{AllocError, Global};

#[tactic(auto, using(crate::proofs::Texts::of_text))]
fn chars_of(alloc: Global, text: &str) -> Result<Vec<char>, AllocError>
    ensures { IfOk result (λ all. all.items ≡ chars text.now) }
{
    text.chars().collect(alloc)
}

// Characters as UTF-16 units.
fn encoded(alloc: Global, chars: &[char]) -> Result<Vec<u16>, AllocError>
    ensures { IfOk result (λ units. units.items ≡ flat_map encode_utf16 chars.now) }
{
    let mut units = Vec::new(alloc);
    for c in chars {
        let mut pair = [0u16; 2];
        let Ok(()) = units.extend_from_slice(c.encode_utf16(&mut pair)) else {
            return Err(AllocError);
        };
    }
    Ok(units)
}

/// A text as UTF-16 units.
pub fn utf16_of(alloc: Global, text: &str) -> Result<Vec<u16>, AllocError>
    ensures { IfOk result (λ units. units.items ≡ utf16_of text.now) }
{
    let chars = chars_of(alloc, text)?;
    encoded(alloc, chars.as_slice())
}

fn line_of(alloc: Global, name: &[u8]) -> Result<Vec<u8>, AllocError>
    ensures { IfOk result (λ text. text.items ≡ codes "main " ++ (name.now ++ codes "\n")) }
{
    let Ok(mut text) = Vec::from_slice(alloc, b"main ") else {
        return Err(AllocError);
    };
    let Ok(()) = text.extend_from_slice(name) else {
        return Err(AllocError);
    };
    let Ok(()) = text.push(b'\n') else {
        return Err(AllocError);
    };
    Ok(text)
}

/// No class of that name is fit to be the main class.
pub fn no_main(alloc: Global, name: &[u16]) -> Result<Vec<u8>, NoMemory>
    ensures { IfOk result (λ text. text.items ≡ named_line name.now) }
{
    let Ok(text) = kilim_units::name_text(alloc, name) else {
        return Err(NoMemory);
    };
    match line_of(alloc, text.as_slice()) {
        Ok(line) => Ok(line),
        Err(_) => Err(NoMemory),
    }
}

/// The line of accepted files: how many classes they have, and how many methods with code.
pub fn accepted_line(alloc: Global, classes: usize, methods: usize) -> Result<Vec<u8>, AllocError>
    ensures { IfOk result (λ text. text.items ≡ accepted_line classes methods) }
{
    match format!(in alloc; "accepted {classes} {methods}\n") {
        Ok(line) => Ok(line.into_bytes()),
        Err(_) => Err(AllocError),
    }
}
