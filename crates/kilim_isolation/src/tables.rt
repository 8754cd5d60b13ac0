//! What stands at a place, by tables.

ghost use Rattle.std.specs.Prelude.{◌≡◌, ◌<◌, ◌+◌, ℕ, List, length, set, drop, option_copied, IfOk};
ghost use Rattle.std.specs.Option.{option_map};
ghost use Rattle.kilim_program.specs.Lengths.{fetched, first_place};
ghost use Rattle.kilim_type_spec.specs.Typed.{declared, frame_types};
ghost use Rattle.kilim_isolation_graph.specs.Canonical.{index_of};
ghost use Rattle.kilim_isolation.specs.Answers.{looked};
ghost use Rattle.kilim_isolation.specs.Tables.{IsTable, places_of};
ghost use Rattle.kilim_isolation.specs.Walks as spec;

use kilim_program::{Frame, Instr, Method};
use kilim_type_spec::VerifiedFrame;
use kilim_units::NoMemory;
use std::alloc::Global;

// Writes the number at a place, where the table has that place.
fn note(table: &mut Vec<usize>, place: u32, number: usize)
    ensures { table.new.items ≡ set table.old.items place number }
{
    let at = place as usize;
    if at < table.len() {
        table[at] = number;
    }
}

// For each place below a size the number of the first of these entries that stands there.
fn table_of<T>(alloc: Global, entries: &[(u32, T)], size: usize) -> Result<Vec<usize>, NoMemory>
    ensures { IfOk result (λ table. IsTable table.items (places_of entries.now) size) }
{
    let Ok(mut table) = vec![in alloc; entries.len(); size] else {
        return Err(NoMemory);
    };
    let mut number = entries.len();
    while number > 0 {
        number -= 1;
        note(&mut table, entries[number].0, number);
    }
    Ok(table)
}

/// The table of a method's instructions.
pub fn code_table(alloc: Global, method: &Method) -> Result<Vec<usize>, NoMemory>
    ensures { IfOk result (λ table. IsTable table.items (places_of method.now.code) method.now.code_length) }
{
    table_of(alloc, method.code.as_slice(), method.code_length as usize)
}

/// The table of a method's declared frames.
pub fn frame_table(alloc: Global, method: &Method) -> Result<Vec<usize>, NoMemory>
    ensures { IfOk result (λ table. IsTable table.items (places_of method.now.frames) method.now.code_length) }
{
    table_of(alloc, method.frames.as_slice(), method.code_length as usize)
}

// The number that a table has for a place.
fn number_at(table: &[usize], place: u32) -> usize
    requires { place < length table.now }
    ensures { (places : List ℕ) (size : ℕ) → IsTable table.now places size → place < size → result ≡ index_of place places }
{
    table[place as usize]
}

// The place behind an instruction, by its number.
fn place_behind(code: &[(u32, Instr)], end: u32, at: usize) -> u32
    requires { at < length code.now }
    ensures { result ≡ first_place (drop (at + 1) code.now) end }
{
    if at + 1 < code.len() {
        code[at + 1].0
    } else {
        end
    }
}

/// The instruction at a place, and the place behind it.
pub fn fetch<'a>(method: &'a Method, code_at: &[usize], place: u32) -> Option<(&'a Instr, u32)>
    requires table { IsTable code_at.now (places_of method.now.code) method.now.code_length }
    requires place { place < method.now.code_length }
    ensures { looked result ≡ fetched method.now.code method.now.code_length place }
{
    let code = method.code.as_slice();
    let at = number_at(code_at, place);
    if at < code.len() {
        Some((&code[at].1, place_behind(code, method.code_length, at)))
    } else {
        None
    }
}

/// The frame that is declared at a place, or none.
pub fn declared_by<'a>(method: &'a Method, frames_at: &[usize], place: u32) -> Option<&'a Frame>
    requires table { IsTable frames_at.now (places_of method.now.frames) method.now.code_length }
    requires place { place < method.now.code_length }
    ensures { option_map frame_types (option_copied result) ≡ declared method.now place }
{
    let frames = method.frames.as_slice();
    let at = number_at(frames_at, place);
    if at < frames.len() {
        Some(&frames[at].1)
    } else {
        None
    }
}

/// The verified frame at a place, or none.
pub fn frame_by<'a>(
    method: &Method,
    code_at: &[usize],
    frames: &'a [VerifiedFrame],
    place: u32,
) -> Option<&'a VerifiedFrame>
    requires table { IsTable code_at.now (places_of method.now.code) method.now.code_length }
    requires place { place < method.now.code_length }
    ensures { option_copied result ≡ spec.frame_among method.now.code frames.now place }
{
    let at = number_at(code_at, place);
    if at >= method.code.len() {
        return None;
    }
    if at >= frames.len() {
        return None;
    }
    Some(&frames[at])
}
