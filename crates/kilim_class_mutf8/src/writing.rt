//! Units to bytes.

ghost use Rattle.std.specs.Prelude.{◌≡◌, ◌++◌, OnOk, OnErr};
ghost use Rattle.kilim_class_mutf8.specs.Spelling.{unit_text, spelling};
ghost use Rattle.kilim_class_mutf8.specs.Text.{OneSpelling};
ghost use Rattle.kilim_class_mutf8.specs.Whole.{UnitsAreSpelled};

use kilim_units::{NoMemory, Units};
use std::alloc::AllocError;

// One unit, or nothing for want of memory.
fn push_unit(into: &mut Vec<u8>, unit: u16) -> Result<(), AllocError>
    ensures ok { OnOk result (into.new.items ≡ into.old.items ++ unit_text unit) }
    ensures err { OnErr result (into.new.items ≡ into.old.items) }
{
    if unit > 0 && unit < 0x80 {
        into.extend_from_slice(&[unit as u8])
    } else if unit < 0x800 {
        into.extend_from_slice(&[(0xC0 + unit / 64) as u8, (0x80 + unit % 64) as u8])
    } else {
        into.extend_from_slice(&[
            (0xE0 + unit / 4096) as u8,
            (0x80 + unit / 64 % 64) as u8,
            (0x80 + unit % 64) as u8,
        ])
    }
}

/// Adds the spelling of units at the end: one to three bytes for each, in time linear in their number. For want
/// of memory the bytes stay as they were.
pub fn write(units: &Units, into: &mut Vec<u8>) -> Result<(), NoMemory>
    ensures ok { OnOk result (into.new.items ≡ into.old.items ++ spelling units.now) }
    ensures err { OnErr result (into.new.items ≡ into.old.items) }
{
    let before = into.len();
    for unit in units.as_slice() {
        if push_unit(into, *unit).is_err() {
            into.truncate(before);
            return Err(NoMemory);
        }
    }
    Ok(())
}

/// A law, and no work: no two lists of units have one spelling, and no other units are spelled by bytes that were
/// written, whatever follows in another part.
pub fn one_spelling()
    ensures { OneSpelling }
{}

/// A law, and no work: bytes have units exactly where they are the spelling of these units.
pub fn units_are_spelled()
    ensures { UnitsAreSpelled }
{}
