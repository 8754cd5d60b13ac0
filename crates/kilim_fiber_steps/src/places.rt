//! Instructions and their marks by their places.

ghost use Rattle.std.specs.Prelude.{◌≡◌, ◌<◌, IfSome, Some, drop, length, slice_get};
ghost use Rattle.kilim_program.specs.Lengths.{first_place};
ghost use Rattle.kilim_program.specs.lookups.Places.{Rising};
ghost use Rattle.kilim_fiber_spec.specs.Fibers.{marks_of};
ghost use Rattle.kilim_fiber_steps.specs.Marks.{IsNumber};

use kilim_program::{Instr, MethodId, Program};
use kilim_units::{NoMemory, Seq};
use std::alloc::Global;

/// For each method, at each place of its code, the number of the instruction there. Nothing but speed depends on it.
#[derive(Drop)]
pub struct Places {
    numbers: Vec<Vec<u32>>,
}

impl Places {
    /// The numbers of a program's instructions.
    pub fn new(alloc: Global, program: &Program) -> Result<Places, NoMemory> {
        let mut numbers = Vec::new(alloc);
        for method in program.methods.as_slice() {
            let Ok(of_method) = numbers_of(alloc, method.code.as_slice()) else {
                return Err(NoMemory);
            };
            let Ok(()) = numbers.push(of_method) else {
                return Err(NoMemory);
            };
        }
        Ok(Places { numbers })
    }

    pub(crate) fn of_method(&self, method: MethodId) -> &[u32] {
        let at = method.0 as usize;
        if at < self.numbers.len() {
            self.numbers[at].as_slice()
        } else {
            &[]
        }
    }
}

fn numbers_of(alloc: Global, code: &[(u32, Instr)]) -> Result<Vec<u32>, NoMemory> {
    let mut numbers = Vec::new(alloc);
    for (at, entry) in code.iter().enumerate() {
        let place = entry.0 as usize;
        let missing = place.saturating_sub(numbers.len());
        for _ in 0..missing {
            let Ok(()) = numbers.push(0) else {
                return Err(NoMemory);
            };
        }
        let Ok(()) = numbers.push(u32::try_from(at).unwrap_or(0)) else {
            return Err(NoMemory);
        };
    }
    Ok(numbers)
}

/// Likely the number of the instruction at a place.
#[inline(always)]
pub(crate) fn number_near(table: &[u32], place: u32) -> usize {
    let place = place as usize;
    if place < table.len() {
        table[place] as usize
    } else {
        0
    }
}

/// The marks of a method.
pub(crate) fn marks_of(counted: &Seq<Seq<bool>>, method: MethodId) -> Option<&Seq<bool>>
    ensures { IfSome result (λ marks. marks_of counted.now method ≡ marks.now) }
{
    counted.as_slice().get(method.0 as usize)
}

#[inline(always)]
fn entry_at(code: &[(u32, Instr)], at: usize) -> &(u32, Instr)
    requires { at < length code.now }
    ensures { slice_get code.now at ≡ Some result.now }
{
    &code[at]
}

#[inline(always)]
fn flag_at(marks: &[bool], at: usize) -> bool
    requires { at < length marks.now }
    ensures { slice_get marks.now at ≡ Some result }
{
    marks[at]
}

/// The mark of the instruction of a number, which stands at its place.
#[tactic(auto, using(crate::proofs::Marks::number_here))]
#[inline(always)]
pub(crate) fn mark_of(code: &[(u32, Instr)], marks: &[bool], end: u32, at: usize) -> bool
    requires rising { Rising code.now }
    requires within { at < length code.now }
    requires marked { at < length marks.now }
    ensures { IsNumber code.now marks.now end (first_place (drop at code.now) end) at result }
{
    let _ = end;
    let entry = entry_at(code, at);
    let _place = entry.0;
    flag_at(marks, at)
}

/// The place of the instruction of a number.
#[tactic(auto, using(crate::proofs::Marks::first_at))]
#[inline(always)]
pub(crate) fn place_at(code: &[(u32, Instr)], end: u32, at: usize) -> u32
    requires { at < length code.now }
    ensures { result ≡ first_place (drop at code.now) end }
{
    let _ = end;
    let entry = entry_at(code, at);
    entry.0
}

// The mark of the instruction of that number, if it stands at the place.
#[tactic(auto, using(crate::proofs::Marks::is_number))]
#[inline(always)]
fn mark_at(code: &[(u32, Instr)], marks: &[bool], end: u32, place: u32, at: usize) -> Option<bool>
    requires { Rising code.now }
    ensures { IfSome result (λ mark. IsNumber code.now marks.now end place at mark) }
{
    let _ = end;
    if at >= code.len() || at >= marks.len() {
        return None;
    }
    let entry = entry_at(code, at);
    let mark = flag_at(marks, at);
    if entry.0 == place { Some(mark) } else { None }
}

/// The number of the instruction at a place, and its mark. `hint` is likely the number.
#[inline(always)]
pub(crate) fn number_at(
    code: &[(u32, Instr)],
    marks: &[bool],
    end: u32,
    place: u32,
    hint: usize,
) -> Option<(usize, bool)>
    requires { Rising code.now }
    ensures { IfSome result (λ found. IsNumber code.now marks.now end place found.0 found.1) }
{
    if let Some(mark) = mark_at(code, marks, end, place, hint) {
        return Some((hint, mark));
    }
    search(code, marks, end, place)
}

fn search(code: &[(u32, Instr)], marks: &[bool], end: u32, place: u32) -> Option<(usize, bool)>
    requires { Rising code.now }
    ensures { IfSome result (λ found. IsNumber code.now marks.now end place found.0 found.1) }
{
    for at in 0..code.len() {
        if let Some(mark) = mark_at(code, marks, end, place, at) {
            return Some((at, mark));
        }
    }
    None
}
