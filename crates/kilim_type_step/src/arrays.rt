//! Elements of arrays of references.

ghost use Rattle.std.specs.Prelude.{◌≡◌, true, Option};
ghost use Rattle.kilim_type_spec.specs.Step.{by_row, type_step, Element};
ghost use Rattle.kilim_type_step.specs.Answers.{answers, element_by};
ghost use Rattle.kilim_type_step.specs.Families.{is_reference_element};

use crate::apply::{MISSING_OPERAND, STACK_TOO_HIGH, WRONG_OPERAND, all_meet, apply, has_room_for};
use crate::constants::object_type;
use crate::fault::StepFault;
use crate::operands::{Taken, vtype};
use crate::state::State;
use kilim_program::{Instr, Method, Program, Ty, VType};
use std::alloc::AllocError;

const INT: Taken = Taken::Is(VType::Int);

// The type of an element of an array of references.
fn element_by(t: Option<VType>) -> Option<VType>
    ensures { result ≡ element_by t }
{
    match t {
        Some(VType::Null) => Some(VType::Null),
        Some(VType::Object(ty)) => Some(vtype(Ty {
            dims: ty.dims.saturating_sub(1),
            base: ty.base,
        })),
        Some(VType::Top | VType::Int | VType::Long | VType::UninitThis | VType::Uninit(_)) | None =>
            None,
    }
}

#[tactic(auto, using(crate::proofs::Forms::element_found, crate::proofs::Forms::element_lacks))]
fn take_element(program: &Program, method: &Method, state: &mut State) -> Result<(), StepFault>
    ensures { answers (by_row program.now method.now 0 Element state.old) result state.new }
{
    if state.height() < 2 {
        return Err(StepFault::Rule(MISSING_OPERAND));
    }
    if !has_room_for(method, state, 2, VType::Null) {
        return Err(StepFault::Rule(STACK_TOO_HIGH));
    }
    if !all_meet(program, &[INT, Taken::References], state) {
        return Err(StepFault::Rule(WRONG_OPERAND));
    }
    let Some(t) = element_by(state.below(1)) else {
        return Err(StepFault::Rule(WRONG_OPERAND));
    };
    state.drop_top(2);
    match state.push(t) {
        Ok(()) => Ok(()),
        Err(AllocError) => Err(StepFault::Memory),
    }
}

/// Loads and stores of references.
#[tactic(auto, unfolding(kilim_type_spec::specs::Step::row))]
pub fn on_reference_element(
    program: &Program,
    method: &Method,
    at: u32,
    instr: &Instr,
    state: &mut State,
) -> Result<(), StepFault>
    requires { is_reference_element instr.now ≡ true }
    ensures { answers (type_step program.now method.now at instr.now state.old) result state.new }
{
    match instr {
        Instr::Aaload => take_element(program, method, state),
        Instr::Aastore => {
            let Ok(object) = object_type(program) else {
                return Err(StepFault::Memory);
            };
            let takes = [Taken::Is(object), INT, Taken::References];
            apply(program, method, state, &takes, None, &[])
        }
        _ => unreachable!(),
    }
}
