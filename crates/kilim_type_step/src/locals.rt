//! Loads and stores of locals.

ghost use Rattle.std.specs.Prelude.{◌≡◌, true};
ghost use Rattle.kilim_type_spec.specs.Step.{by_row, type_step, pushed, Loads, Stores, Adds};
ghost use Rattle.kilim_type_step.specs.Answers.{answers};
ghost use Rattle.kilim_type_step.specs.Operands.{operand_of};
ghost use Rattle.kilim_type_step.specs.Families.{is_local};

use crate::apply::{MISSING_OPERAND, STACK_TOO_HIGH, WRONG_LOCAL, WRONG_OPERAND, has_room_for};
use crate::fault::StepFault;
use crate::operands::{Taken, meets};
use crate::state::{State, size};
use kilim_program::{Instr, Method, Program, VType};
use std::alloc::AllocError;

fn pushed(taken: Taken) -> VType
    ensures { result ≡ pushed (operand_of taken) }
{
    match taken {
        Taken::Is(t) => t,
        Taken::Reference
        | Taken::Initialized
        | Taken::ArrayOf(_)
        | Taken::Bytes
        | Taken::References
        | Taken::Array
        | Taken::Own(_) => VType::Null,
    }
}

fn load(
    program: &Program,
    method: &Method,
    state: &mut State,
    taken: Taken,
    slot: u16,
) -> Result<(), StepFault>
    ensures { answers (by_row program.now method.now 0 (Loads (operand_of taken) slot) state.old) result state.new }
{
    if !has_room_for(method, state, 0, pushed(taken)) {
        return Err(StepFault::Rule(STACK_TOO_HIGH));
    }
    let t = state.local(slot);
    if slot >= method.max_locals || !meets(program, taken, t) {
        return Err(StepFault::Rule(WRONG_LOCAL));
    }
    match state.push(t) {
        Ok(()) => Ok(()),
        Err(AllocError) => Err(StepFault::Memory),
    }
}

#[tactic(auto, using(crate::proofs::Forms::store_lacks, crate::proofs::Forms::store_on))]
fn store(
    program: &Program,
    method: &Method,
    state: &mut State,
    taken: Taken,
    slot: u16,
) -> Result<(), StepFault>
    ensures { answers (by_row program.now method.now 0 (Stores (operand_of taken) slot) state.old) result state.new }
{
    let Some(t) = state.below(0) else {
        return Err(StepFault::Rule(MISSING_OPERAND));
    };
    if !meets(program, taken, t) {
        return Err(StepFault::Rule(WRONG_OPERAND));
    }
    if u32::from(slot) + u32::from(size(t)) > u32::from(method.max_locals) {
        return Err(StepFault::Rule(WRONG_LOCAL));
    }
    state.drop_top(1);
    match state.store(slot, t) {
        Ok(()) => Ok(()),
        Err(AllocError) => Err(StepFault::Memory),
    }
}

fn change(program: &Program, method: &Method, state: &mut State, slot: u16) -> Result<(), StepFault>
    ensures { answers (by_row program.now method.now 0 (Adds slot) state.old) result state.new }
{
    if slot >= method.max_locals || !meets(program, Taken::Is(VType::Int), state.local(slot)) {
        return Err(StepFault::Rule(WRONG_LOCAL));
    }
    Ok(())
}

/// Loads and stores of locals, and `iinc`.
#[tactic(auto, unfolding(kilim_type_spec::specs::Step::row))]
pub fn on_local(
    program: &Program,
    method: &Method,
    at: u32,
    instr: &Instr,
    state: &mut State,
) -> Result<(), StepFault>
    requires { is_local instr.now ≡ true }
    ensures { answers (type_step program.now method.now at instr.now state.old) result state.new }
{
    match instr {
        Instr::Iload(slot) => load(program, method, state, Taken::Is(VType::Int), *slot),
        Instr::Lload(slot) => load(program, method, state, Taken::Is(VType::Long), *slot),
        Instr::Aload(slot) => load(program, method, state, Taken::Reference, *slot),
        Instr::Istore(slot) => store(program, method, state, Taken::Is(VType::Int), *slot),
        Instr::Lstore(slot) => store(program, method, state, Taken::Is(VType::Long), *slot),
        Instr::Astore(slot) => store(program, method, state, Taken::Reference, *slot),
        Instr::Iinc(slot, _) => change(program, method, state, *slot),
        _ => unreachable!(),
    }
}
