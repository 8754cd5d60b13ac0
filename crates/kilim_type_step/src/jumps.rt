//! Jumps that test references.

ghost use Rattle.std.specs.Prelude.{◌≡◌, true};
ghost use Rattle.kilim_type_spec.specs.Step.{type_step};
ghost use Rattle.kilim_type_step.specs.Answers.{answers};
ghost use Rattle.kilim_type_step.specs.Families.{is_reference_jump};

use crate::apply::apply;
use crate::fault::StepFault;
use crate::operands::{Also, Taken};
use crate::state::State;
use kilim_program::{Instr, Method, Program};

/// Comparisons of references, with each other and with null.
#[tactic(auto, unfolding(kilim_type_spec::specs::Step::row))]
pub fn on_reference_jump(
    program: &Program,
    method: &Method,
    at: u32,
    instr: &Instr,
    state: &mut State,
) -> Result<(), StepFault>
    requires { is_reference_jump instr.now ≡ true }
    ensures { answers (type_step program.now method.now at instr.now state.old) result state.new }
{
    match instr {
        Instr::IfAcmpeq(_) | Instr::IfAcmpne(_) => {
            let takes = [Taken::Reference, Taken::Reference];
            apply(
                program,
                method,
                state,
                &takes,
                None,
                &[Also::TwoInitialized],
            )
        }
        Instr::Ifnull(_) | Instr::Ifnonnull(_) => {
            apply(
                program,
                method,
                state,
                &[Taken::Reference],
                None,
                &[Also::OneInitialized],
            )
        }
        _ => unreachable!(),
    }
}
