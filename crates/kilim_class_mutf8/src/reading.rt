//! Bytes to units.

ghost use Rattle.std.specs.Prelude.{◌≡◌, ◌⊎◌, ◌+◌, ◌<◌, ◌^◌, List, ℕ, IfOk, IfErr, MatchResult};
ghost use Rattle.kilim_class_mutf8.specs.declared.fault.TextFault.{TextFault};
ghost use Rattle.kilim_class_mutf8.specs.declared.fault.TextFault.TheVariants.{Memory};
ghost use Rattle.kilim_class_mutf8.specs.Spelling.{spelling, UnitsFit};
ghost use Rattle.kilim_class_mutf8.specs.Whole.{units_of, ReadsUnits};
ghost use Rattle.kilim_class_mutf8.specs.Text.{HasFault, placed, IsUnlessMemory};

use crate::fault::TextFault;
use crate::unit::{UnitFault, unit_at};
use kilim_units::Units;
use std::alloc::Global;

// A fault of the unit that begins at a place.
fn placed(at: usize, fault: UnitFault) -> TextFault
    requires { at + 256 < 2 ^ 64 }
    ensures { result ≡ placed at fault }
{
    match fault {
        UnitFault::BadByte(distance) => TextFault::BadByte(at + usize::from(distance)),
        UnitFault::Cut => TextFault::Cut,
        UnitFault::SecondSpelling => TextFault::SecondSpelling(at),
    }
}

/// The units that bytes spell, all of the bytes: in time linear in their number.
///
/// It answers `Ok` exactly for the spelling of some units. Else the fault is that of the first unit that isn't
/// spelled; where the bytes end inside it, it is `Cut`, whatever they are.
pub fn read(alloc: Global, bytes: &[u8]) -> Result<Units, TextFault>
    // What is read is spelled so.
    ensures found { IfOk result (λ units. bytes.now ≡ spelling units) }

    // What is spelled so is read.
    ensures only { (units : List ℕ) → UnitsFit units → bytes.now ≡ spelling units → MatchResult result (λ read. read ≡ units) (λ e. e ≡ Memory) }

    // So the answer is determined by the units of the bytes.
    ensures units { ReadsUnits result (units_of bytes.now) }

    // A fault is the first one, and the first one is found.
    ensures fault { IfErr result (λ e. (e ≡ Memory) ⊎ HasFault bytes.now e) }
    ensures first { (fault : TextFault) → HasFault bytes.now fault → MatchResult result (λ read. ⊥) (IsUnlessMemory fault) }
{
    let mut units = Vec::new(alloc);
    let mut rest = bytes;
    while !rest.is_empty() {
        match unit_at(rest) {
            Ok((unit, after)) => {
                let Ok(()) = units.push(unit) else {
                    return Err(TextFault::Memory);
                };
                rest = after;
            }
            Err(fault) => return Err(placed(bytes.len() - rest.len(), fault)),
        }
    }
    let Ok(text) = Units::from_vec(alloc, units) else {
        return Err(TextFault::Memory);
    };
    Ok(text)
}
