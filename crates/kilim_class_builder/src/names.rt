//! Texts as UTF-16 units.

ghost use Rattle.std.specs.Prelude.{◌≡◌, IfOk};
ghost use Rattle.std.specs.Str.{chars};
ghost use Rattle.std.specs.Char.Escape.{encode_utf16};
ghost use Rattle.std.specs.List.{flat_map};
ghost use Rattle.kilim_class_builder.specs.Members.{utf16_of};

use kilim_units::Units;
use std::alloc::{AllocError, Global};

#[tactic(auto, using(crate::proofs::Texts::of_text))]
fn chars_of(alloc: Global, text: &str) -> Result<Vec<char>, AllocError>
    ensures { IfOk result (λ all. all.items ≡ chars text.now) }
{
    text.chars().collect(alloc)
}

// Characters as UTF-16 units.
fn encoded(alloc: Global, chars: &[char]) -> Result<Vec<u16>, AllocError>
    ensures { IfOk result (λ units. units.items ≡ flat_map encode_utf16 chars.now) }
{
    let mut units = Vec::new(alloc);
    for c in chars {
        let mut pair = [0u16; 2];
        units.extend_from_slice(c.encode_utf16(&mut pair))?;
    }
    Ok(units)
}

/// A text as UTF-16 units.
pub fn utf16_of(alloc: Global, text: &str) -> Result<Units, AllocError>
    ensures { IfOk result (λ units. units ≡ utf16_of text.now) }
{
    let chars = chars_of(alloc, text)?;
    let units = encoded(alloc, chars.as_slice())?;
    Units::from_vec(alloc, units)
}
