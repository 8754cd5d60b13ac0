//! Instructions by their places (JVMS 4.7.3). The number of an instruction counts those before it in its method.

ghost use Rattle.std.specs.Prelude.{◌≡◌, ◌<◌, ◌+◌, Some, drop, length, slice_get};
ghost use Rattle.std.specs.Option.{IsSome};
ghost use Rattle.kilim_program.specs.Lengths.{fetched, first_place};
ghost use Rattle.kilim_program.specs.Names.{method_at};
ghost use Rattle.kilim_program.specs.lookups.Places.{Rising};

use crate::{Instr, Method, MethodId, Program};

/// A law, and no work: the places of a method's code increase.
pub fn code_rises(program: &Program, id: MethodId, method: &Method)
    requires { method_at program.now id ≡ Some method.now }
    ensures { Rising method.now.code }
{
    let _classes = &program.classes;
}

/// The entry of a number.
#[inline(always)]
pub fn entry_at(code: &[(u32, Instr)], at: usize) -> &(u32, Instr)
    requires { at < length code.now }
    ensures { slice_get code.now at ≡ Some result.now }
{
    &code[at]
}

// The place behind the entry of a number.
#[tactic(auto, using(crate::proofs::lookups::Numbers::first_at, crate::proofs::lookups::Numbers::first_past))]
#[inline(always)]
fn place_after(code: &[(u32, Instr)], end: u32, at: usize) -> u32
    requires { at < length code.now }
    ensures { result ≡ first_place (drop (at + 1) code.now) end }
{
    if at + 1 < code.len() {
        let entry = entry_at(code, at + 1);
        entry.0
    } else {
        end
    }
}

/// The number of the instruction at a place. `hint` is likely it.
#[inline(always)]
pub fn number_at(code: &[(u32, Instr)], end: u32, place: u32, hint: usize) -> usize
    requires { IsSome (fetched code.now end place) }
    ensures range { result < length code.now }
    ensures place { first_place (drop result code.now) end ≡ place }
{
    if hint < code.len() {
        let entry = entry_at(code, hint);
        if entry.0 == place {
            return hint;
        }
    }
    search(code, end, place)
}

fn search(code: &[(u32, Instr)], end: u32, place: u32) -> usize
    requires { IsSome (fetched code.now end place) }
    ensures range { result < length code.now }
    ensures place { first_place (drop result code.now) end ≡ place }
{
    for at in 0..code.len() {
        let entry = entry_at(code, at);
        if entry.0 == place {
            return at;
        }
    }
    unreachable!()
}

/// The instruction of a number, and the place behind it.
#[inline(always)]
pub fn instr_at(code: &[(u32, Instr)], end: u32, at: usize) -> (&Instr, u32)
    requires rising { Rising code.now }
    requires range { at < length code.now }
    ensures found { fetched code.now end (first_place (drop at code.now) end) ≡ Some (result.0.now, result.1) }
    ensures next { result.1 ≡ first_place (drop (at + 1) code.now) end }
{
    let entry = entry_at(code, at);
    let next = place_after(code, end, at);
    (&entry.1, next)
}

/// The number of the instruction behind that of a number, where there is one.
#[inline(always)]
pub fn number_after(code: &[(u32, Instr)], end: u32, at: usize) -> usize
    requires range { at < length code.now }
    requires found { IsSome (fetched code.now end (first_place (drop (at + 1) code.now) end)) }
    ensures range { result < length code.now }
    ensures place { first_place (drop result code.now) end ≡ first_place (drop (at + 1) code.now) end }
{
    if at + 1 < code.len() {
        return at + 1;
    }
    let next = place_after(code, end, at);
    search(code, end, next)
}

/// The instruction at a place, and the place behind it.
pub fn fetch(code: &[(u32, Instr)], end: u32, place: u32, hint: usize) -> (&Instr, u32)
    requires rising { Rising code.now }
    requires found { IsSome (fetched code.now end place) }
    ensures { fetched code.now end place ≡ Some (result.0.now, result.1) }
{
    let at = number_at(code, end, place, hint);
    instr_at(code, end, at)
}
