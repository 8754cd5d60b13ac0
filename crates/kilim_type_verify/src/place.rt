//! One instruction: the least rule but 12 that fails there, or what it leaves.

ghost use Rattle.std.specs.Prelude.{◌≡◌, IfOk};
ghost use Rattle.kilim_program.specs.Lengths.{jump_targets};
ghost use Rattle.kilim_type_spec.specs.Step.{type_step};
ghost use Rattle.kilim_type_spec.specs.Faults.{lesser, fails_unless, instr_rule, targets_declared};
ghost use Rattle.kilim_type_verify.specs.Places.{declared_all, flow_all, place_of, IsStepped};
ghost use Rattle.kilim_program.specs.declared.instr.Instr.{Instr};
ghost use Rattle.std.specs.Prelude.{List, ℕ};

use crate::flows::{are_declared, flow_to_all, flows_to};
use crate::stated::is_declared;
use kilim_program::{Instr, Method, Program};
use kilim_type_flow::{ends_path, jump_targets};
use kilim_type_step::{State, StepFault, type_step};
use kilim_units::NoMemory;
use std::alloc::Global;

// The rules, by their numbers.
const NO_FLOW: u8 = 1;

pub const NO_FRAME: u8 = 2;

/// A rule, unless it holds.
pub fn fails_unless(holds: bool, rule: u8) -> Option<u8>
    ensures { result ≡ fails_unless holds rule }
{
    if holds { None } else { Some(rule) }
}

/// The lesser of two rules, where there are two.
pub fn lesser(a: Option<u8>, b: Option<u8>) -> Option<u8>
    ensures { result ≡ lesser a b }
{
    match a {
        None => b,
        Some(one) => match b {
            None => Some(one),
            Some(other) => { if one <= other { Some(one) } else { Some(other) } }
        },
    }
}

// Rule 2: jump targets are declared, and what is behind an instruction that control doesn't go past.
pub fn targets_declared(method: &Method, ends: bool, targets: &[u32], behind: Option<u32>) -> bool
    ensures { result ≡ declared_all method.now ends targets.now behind }
{
    if !are_declared(method, targets) {
        return false;
    }
    match behind {
        Some(next) => !ends || is_declared(method, next),
        None => true,
    }
}

// Rule 1: what is left flows into the declared frames.
fn all_flow(
    program: &Program,
    method: &Method,
    from: &State,
    ends: bool,
    targets: &[u32],
    behind: Option<u32>,
) -> bool
    ensures { result ≡ flow_all program.now method.now from.now ends targets.now behind }
{
    if !flow_to_all(program, method, from, targets) {
        return false;
    }
    match behind {
        Some(next) => ends || flows_to(program, method, from, next),
        None => true,
    }
}

/// Whether what rule 2 asks of an instruction holds; the places of its targets, and the place behind it.
#[tactic(auto, using(crate::proofs::Rules::declared_behind))]
pub fn is_followed(
    alloc: Global,
    method: &Method,
    instr: &Instr,
    behind: Option<u32>,
) -> Result<bool, NoMemory>
    ensures { IfOk result (λ b. (es : List (ℕ × Instr)) → place_of es ≡ behind → b ≡ targets_declared method.now instr.now es) }
{
    let Ok(targets) = jump_targets(alloc, instr) else {
        return Err(NoMemory);
    };
    Ok(targets_declared(method, ends_path(instr), &targets, behind))
}

// Steps an instruction with these targets.
#[tactic(auto, using(crate::proofs::Rules::stepped, crate::proofs::Rules::no_flow, crate::proofs::Rules::no_frame, crate::proofs::Rules::step_fails, crate::proofs::Rules::both_fail))]
fn step_to(
    alloc: Global,
    program: &Program,
    method: &Method,
    at: u32,
    instr: &Instr,
    targets: &[u32],
    behind: Option<u32>,
    state: &mut State,
) -> Result<Option<u8>, NoMemory>
    requires { targets.now ≡ jump_targets instr.now }
    ensures { IfOk result (λ rule. (es : List (ℕ × Instr)) → place_of es ≡ behind →
        IsStepped (instr_rule program.now method.now instr.now es (type_step program.now method.now at instr.now state.old)) (type_step program.now method.now at instr.now state.old) rule state.new) }
{
    let ends = ends_path(instr);
    let stepped = type_step(alloc, program, method, at, instr, state);
    let followed = targets_declared(method, ends, targets, behind);
    match stepped {
        Ok(()) => {
            if !all_flow(program, method, state, ends, targets, behind) {
                return Ok(Some(NO_FLOW));
            }
            if !followed {
                return Ok(Some(NO_FRAME));
            }
            Ok(None)
        }
        Err(StepFault::Rule(rule)) => {
            if followed {
                Ok(Some(rule))
            } else {
                Ok(lesser(Some(NO_FRAME), Some(rule)))
            }
        }
        Err(StepFault::Memory) => Err(NoMemory),
    }
}

/// Steps an instruction: the least rule but 12 that fails there. If none does, the state is what it leaves.
pub fn step(
    alloc: Global,
    program: &Program,
    method: &Method,
    at: u32,
    instr: &Instr,
    behind: Option<u32>,
    state: &mut State,
) -> Result<Option<u8>, NoMemory>
    ensures { IfOk result (λ rule. (es : List (ℕ × Instr)) → place_of es ≡ behind →
        IsStepped (instr_rule program.now method.now instr.now es (type_step program.now method.now at instr.now state.old)) (type_step program.now method.now at instr.now state.old) rule state.new) }
{
    let Ok(targets) = jump_targets(alloc, instr) else {
        return Err(NoMemory);
    };
    let found = step_to(alloc, program, method, at, instr, &targets, behind, state);
    drop(targets);
    found
}
