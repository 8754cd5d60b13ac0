//! Where frames are declared.

ghost use Rattle.std.specs.Prelude.{◌≡◌, ◌<◌, ◌==◌, ℕ, true, false, Some, length, get_or, set, slice_get, if◌then◌else◌, IfOk, OnOk};
ghost use Rattle.kilim_weave_pieces.specs.Listed.{AreDeclared};
ghost use Rattle.kilim_weave_method.specs.Flags.{AreFlags};

use kilim_program::{Frame, Method};
use kilim_units::NoMemory;
use std::alloc::Global;

// Room for a flag.
fn grow(flags: &mut Vec<bool>, number: usize) -> Result<(), NoMemory>
    ensures same { OnOk result ((k : ℕ) → get_or flags.new.items k false ≡ get_or flags.old.items k false) }
    ensures room { OnOk result (number < length flags.new.items) }
{
    while flags.len() <= number {
        let Ok(()) = flags.push(false) else {
            return Err(NoMemory);
        };
    }
    Ok(())
}

fn raise(flags: &mut Vec<bool>, at: usize)
    requires { at < length flags.old.items }
    ensures { flags.new.items ≡ set flags.old.items at true }
{
    flags[at] = true;
}

fn flag(flags: &mut Vec<bool>, place: u32) -> Result<(), NoMemory>
    ensures { OnOk result ((k : ℕ) → get_or flags.new.items k false ≡ (if place == k then true else get_or flags.old.items k false)) }
{
    let at = place as usize;
    grow(flags, at)?;
    raise(flags, at);
    Ok(())
}

fn entry_at(frames: &[(u32, Frame)], at: usize) -> &(u32, Frame)
    requires { at < length frames.now }
    ensures { slice_get frames.now at ≡ Some result.now }
{
    &frames[at]
}

// Flags for the places at which frames are declared.
fn flags_of(alloc: Global, frames: &[(u32, Frame)]) -> Result<Vec<bool>, NoMemory>
    ensures { IfOk result (λ flags. AreFlags frames.now flags.items) }
{
    let mut flags = Vec::new(alloc);
    let mut left = frames.len();
    while left > 0 {
        left -= 1;
        let entry = entry_at(frames, left);
        let Ok(()) = flag(&mut flags, entry.0) else {
            return Err(NoMemory);
        };
    }
    Ok(flags)
}

/// Flags for the places at which a method declares frames.
pub fn declared_flags(alloc: Global, method: &Method) -> Result<Vec<bool>, NoMemory>
    ensures { IfOk result (λ flags. AreDeclared method.now flags.items) }
{
    flags_of(alloc, method.frames.as_slice())
}
