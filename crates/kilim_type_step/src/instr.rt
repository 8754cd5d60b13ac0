//! The type step: one instruction.

ghost use Rattle.std.specs.Prelude.{◌≡◌};
ghost use Rattle.kilim_type_spec.specs.Step.{type_step};
ghost use Rattle.kilim_type_step.specs.Answers.{answers};

use crate::arrays::on_reference_element;
use crate::constants::on_constant;
use crate::fault::StepFault;
use crate::jumps::on_reference_jump;
use crate::locals::on_local;
use crate::makes::on_made;
use crate::members::on_member;
use crate::plain::on_plain;
use crate::returns::on_return;
use crate::shuffles::on_shuffle;
use crate::state::State;
use kilim_program::{Instr, Method, Program};
use std::alloc::Global;

/// What the instruction at a place of a method makes of the types there (JVMS 4.10.1.9), or the least rule but 1, 2
/// and 12 that it breaks. After a fault nothing is known of the types.
pub fn type_step(
    alloc: Global,
    program: &Program,
    method: &Method,
    at: u32,
    instr: &Instr,
    state: &mut State,
) -> Result<(), StepFault>
    ensures { answers (type_step program.now method.now at instr.now state.old) result state.new }
{
    match instr {
        Instr::Ldc(_) | Instr::LdcW(_) | Instr::Ldc2W(_) => {
            on_constant(program, method, at, instr, state)
        }
        Instr::Iload(_)
        | Instr::Lload(_)
        | Instr::Aload(_)
        | Instr::Istore(_)
        | Instr::Lstore(_)
        | Instr::Astore(_)
        | Instr::Iinc(_, _) => { on_local(program, method, at, instr, state) }
        Instr::Aaload | Instr::Aastore => on_reference_element(program, method, at, instr, state),
        Instr::Pop
        | Instr::Pop2
        | Instr::Dup
        | Instr::DupX1
        | Instr::DupX2
        | Instr::Dup2
        | Instr::Dup2X1
        | Instr::Dup2X2
        | Instr::Swap => { on_shuffle(alloc, program, method, at, instr, state) }
        Instr::IfAcmpeq(_) | Instr::IfAcmpne(_) | Instr::Ifnull(_) | Instr::Ifnonnull(_) => {
            on_reference_jump(program, method, at, instr, state)
        }
        Instr::Ireturn | Instr::Lreturn | Instr::Areturn | Instr::Return => {
            on_return(program, method, at, instr, state)
        }
        Instr::Getstatic(_)
        | Instr::Getfield(_)
        | Instr::Putfield(_)
        | Instr::Invokevirtual(_)
        | Instr::Invokespecial(_)
        | Instr::Invokestatic(_) => { on_member(alloc, program, method, at, instr, state) }
        Instr::New(_)
        | Instr::Newarray(_)
        | Instr::Anewarray(_)
        | Instr::Checkcast(_)
        | Instr::Instanceof(_)
        | Instr::Athrow => { on_made(program, method, at, instr, state) }
        // Arithmetic, constants, jumps that test no reference, and elements of arrays of primitive types.
        _ => on_plain(program, method, at, instr, state),
    }
}
