//! Names as reports and journals show them.

ghost use Rattle.std.specs.Prelude.{◌≡◌, ◌<◌, ◌++◌, OnOk, IfOk};
ghost use Rattle.kilim_units.specs.NameText.{hex_digit, escape, stands_in_name, name_unit, name_text};

use crate::memory::NoMemory;
use std::alloc::{AllocError, Global};

fn hex_digit(d: u16) -> u8
    requires { d < 16 }
    ensures { result ≡ hex_digit d }
{
    if d < 10 {
        b'0' + d as u8
    } else {
        b'a' - 10 + d as u8
    }
}

/// Adds a unit that doesn't stand for itself: `\u` and four lower-case hexadecimal digits.
pub fn push_escape(out: &mut Vec<u8>, unit: u16) -> Result<(), AllocError>
    ensures { OnOk result (out.new.items ≡ out.old.items ++ escape unit) }
{
    out.extend_from_slice(&[
        b'\\',
        b'u',
        hex_digit(unit / 4096),
        hex_digit(unit / 256 % 16),
        hex_digit(unit / 16 % 16),
        hex_digit(unit % 16),
    ])
}

fn stands_in_name(unit: u16) -> bool
    ensures { result ≡ stands_in_name unit }
{
    (97 <= unit && unit <= 122)
        || (65 <= unit && unit <= 90)
        || (48 <= unit && unit <= 57)
        || unit == 95
        || unit == 36
        || unit == 47
        || unit == 91
        || unit == 59
}

fn push_name_unit(out: &mut Vec<u8>, unit: u16) -> Result<(), AllocError>
    ensures { OnOk result (out.new.items ≡ out.old.items ++ name_unit unit) }
{
    if stands_in_name(unit) {
        out.push(unit as u8)?;
        Ok(())
    } else {
        push_escape(out, unit)
    }
}

/// Adds the text of a name: see `name_text`.
pub fn push_name(out: &mut Vec<u8>, units: &[u16]) -> Result<(), AllocError>
    ensures { OnOk result (out.new.items ≡ out.old.items ++ name_text units.now) }
{
    for unit in units {
        let Ok(()) = push_name_unit(out, *unit) else {
            return Err(AllocError);
        };
    }
    Ok(())
}

/// The text of a name: of a class name, a member's name or a descriptor, in ASCII.
///
/// The ASCII letters and digits stand for themselves, and `_`, `$`, `/`, `[`, `;`. Every other UTF-16 unit is
/// `\u` and four lower-case hexadecimal digits.
pub fn name_text(alloc: Global, units: &[u16]) -> Result<Vec<u8>, NoMemory>
    ensures { IfOk result (λ text. text.items ≡ name_text units.now) }
{
    let mut out = Vec::new(alloc);
    let Ok(()) = push_name(&mut out, units) else {
        return Err(NoMemory);
    };
    Ok(out)
}
