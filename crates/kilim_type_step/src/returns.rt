//! Returns.

ghost use Rattle.std.specs.Prelude.{◌≡◌, true};
ghost use Rattle.kilim_type_spec.specs.Step.{type_step, is_int, has_int, has_long};
ghost use Rattle.kilim_type_step.specs.Answers.{answers};
ghost use Rattle.kilim_type_step.specs.Families.{is_return};

use crate::apply::{WRONG_RETURN, leave};
use crate::fault::StepFault;
use crate::operands::{Also, Taken, vtype};
use crate::state::{State, is_long};
use kilim_program::{Instr, Method, Program, Ty, VType};

fn is_int(t: VType) -> bool
    ensures { result ≡ is_int t }
{
    match t {
        VType::Int => true,
        VType::Top
        | VType::Long
        | VType::Null
        | VType::UninitThis
        | VType::Uninit(_)
        | VType::Object(_) => false,
    }
}

fn has_int(ty: Option<Ty>) -> bool
    ensures { result ≡ has_int ty }
{
    match ty {
        Some(ty) => is_int(vtype(ty)),
        None => false,
    }
}

fn has_long(ty: Option<Ty>) -> bool
    ensures { result ≡ has_long ty }
{
    match ty {
        Some(ty) => is_long(vtype(ty)),
        None => false,
    }
}

#[tactic(auto, unfolding(kilim_type_spec::specs::Step::row))]
fn on_areturn(
    program: &Program,
    method: &Method,
    at: u32,
    state: &mut State,
) -> Result<(), StepFault>
    ensures { answers (type_step program.now method.now at Instr.Areturn state.old) result state.new }
{
    match method.result {
        Some(ty) => {
            let also = [Also::OneInitialized, Also::Returns(vtype(ty))];
            leave(program, method, state, &[Taken::Reference], &also)
        }
        None => {
            let also = [Also::OneInitialized, Also::Needs(WRONG_RETURN, false)];
            leave(program, method, state, &[Taken::Reference], &also)
        }
    }
}

/// Returns.
#[tactic(auto, unfolding(kilim_type_spec::specs::Step::row))]
pub fn on_return(
    program: &Program,
    method: &Method,
    at: u32,
    instr: &Instr,
    state: &mut State,
) -> Result<(), StepFault>
    requires { is_return instr.now ≡ true }
    ensures { answers (type_step program.now method.now at instr.now state.old) result state.new }
{
    match instr {
        Instr::Ireturn => {
            let fits = Also::Needs(WRONG_RETURN, has_int(method.result));
            leave(program, method, state, &[Taken::Is(VType::Int)], &[fits])
        }
        Instr::Lreturn => {
            let fits = Also::Needs(WRONG_RETURN, has_long(method.result));
            leave(program, method, state, &[Taken::Is(VType::Long)], &[fits])
        }
        Instr::Areturn => on_areturn(program, method, at, state),
        Instr::Return => {
            let fits = Also::Needs(WRONG_RETURN, method.result.is_none());
            leave(program, method, state, &[], &[fits])
        }
        _ => unreachable!(),
    }
}
