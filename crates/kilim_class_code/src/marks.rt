//! Targets that are no places.

ghost use Rattle.std.specs.Prelude.{◌≡◌, ℤ, map, not, IfOk};
ghost use Rattle.std.specs.List.{find};
ghost use Rattle.kilim_class_code.specs.declared.opcodes.instr.RawInstr.{RawInstr};
ghost use Rattle.kilim_class_code.specs.Code.{Placed, targets_of, is_place, first_failing, mid_target};
ghost use Rattle.kilim_class_code.specs.Marks.{is_marked, PlacesBelow};

use crate::opcodes::RawInstr;
use std::alloc::{AllocError, Global};

// For each byte whether an instruction begins there.
fn place_marks(alloc: Global, code: &[(u32, RawInstr)], len: usize) -> Result<Vec<bool>, AllocError>
    requires { PlacesBelow len code.now }
    ensures { IfOk result (λ marks. (to : ℤ) → is_marked marks.items to ≡ is_place code.now to) }
{
    let mut marks = vec![in alloc; false; len]?;
    for (at, _) in code {
        marks[*at as usize] = true;
    }
    Ok(marks)
}

fn is_marked(marks: &[bool], to: i64) -> bool
    ensures { result ≡ is_marked marks.now to }
{
    match usize::try_from(to) {
        Ok(place) => place < marks.len() && marks[place],
        Err(_) => false,
    }
}

fn first_of(marks: &[bool], targets: &[i64]) -> Option<i64>
    ensures { result ≡ find (λ to. not (is_marked marks.now to)) targets.now }
{
    for to in targets {
        if !is_marked(marks, *to) {
            return Some(*to);
        }
    }
    None
}

fn first_of_pairs(marks: &[bool], pairs: &[(i32, i64)]) -> Option<i64>
    ensures { result ≡ find (λ to. not (is_marked marks.now to)) (map (λ pair. pair.1) pairs.now) }
{
    for pair in pairs {
        if !is_marked(marks, pair.1) {
            return Some(pair.1);
        }
    }
    None
}

// The first target of an instruction that isn't marked.
#[tactic(auto, unfolding(crate::specs::Code::targets_of))]
fn first_target(marks: &[bool], instr: &RawInstr) -> Option<i64>
    ensures { result ≡ find (λ to. not (is_marked marks.now to)) (targets_of instr.now) }
{
    match instr {
        RawInstr::Jump(_, to) | RawInstr::WideJump(_, to) => first_of(marks, &[*to]),
        RawInstr::TableSwitch(_, default, _, targets) => {
            if is_marked(marks, *default) {
                first_of(marks, targets.as_slice())
            } else {
                Some(*default)
            }
        }
        RawInstr::LookupSwitch(_, default, pairs) => {
            if is_marked(marks, *default) {
                first_of_pairs(marks, pairs.as_slice())
            } else {
                Some(*default)
            }
        }
        _ => None,
    }
}

fn first_failing(marks: &[bool], code: &[(u32, RawInstr)]) -> Option<(u32, i64)>
    ensures { result ≡ first_failing (is_marked marks.now) code.now }
{
    for (at, instr) in code {
        if let Some(to) = first_target(marks, instr) {
            return Some((*at, to));
        }
    }
    None
}

/// The first target that is no place of the code, in time linear in the code's length.
pub fn mid_target(
    alloc: Global,
    code: &[(u32, RawInstr)],
    len: usize,
) -> Result<Option<(u32, i64)>, AllocError>
    requires { PlacesBelow len code.now }
    ensures { IfOk result (λ found. found ≡ mid_target code.now) }
{
    let marks = place_marks(alloc, code, len)?;
    Ok(first_failing(marks.as_slice(), code))
}
