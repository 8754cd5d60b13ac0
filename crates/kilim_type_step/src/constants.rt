//! Constants.

ghost use Rattle.std.specs.Prelude.{◌≡◌, true, IfOk, IfErr};
ghost use Rattle.kilim_program.specs.Names.{class_named};
ghost use Rattle.kilim_type_spec.specs.Step.{by_row, type_step, text_type, object_type, throwable_type, vtype_of_class, constant_row, long_constant_row};
ghost use Rattle.kilim_type_step.specs.Answers.{answers};
ghost use Rattle.kilim_type_step.specs.Families.{is_constant};

use crate::apply::{WRONG_CONSTANT, apply};
use crate::fault::StepFault;
use crate::operands::{Also, class_vtype};
use crate::state::State;
use kilim_program::lookups::class_named;
use kilim_program::{Instr, Method, Program, VType, Value};
use kilim_units::NoMemory;

// The type of the class of that name. Want of memory comes only where there are too many classes.
fn named_type(program: &Program, name: &[u8]) -> Result<VType, StepFault>
    ensures found { IfOk result (λ t. t ≡ vtype_of_class (class_named program.now name.now)) }
    ensures memory { IfErr result (λ e. e ≡ StepFault.Memory) }
{
    match class_named(program, name) {
        Ok(Some(class)) => Ok(class_vtype(class)),
        Ok(None) => Ok(VType::Null),
        Err(NoMemory) => Err(StepFault::Memory),
    }
}

// The type of strings.
fn text_type(program: &Program) -> Result<VType, StepFault>
    ensures memory { IfErr result (λ e. e ≡ StepFault.Memory) }
    ensures found { IfOk result (λ t. t ≡ text_type program.now) }
{
    named_type(program, b"java/lang/String")
}

/// The type of all references. Want of memory comes only where there are too many classes.
pub fn object_type(program: &Program) -> Result<VType, StepFault>
    ensures found { IfOk result (λ t. t ≡ object_type program.now) }
    ensures memory { IfErr result (λ e. e ≡ StepFault.Memory) }
{
    named_type(program, b"java/lang/Object")
}

/// The type of what can be thrown. Want of memory comes only where there are too many classes.
pub fn throwable_type(program: &Program) -> Result<VType, StepFault>
    ensures found { IfOk result (λ t. t ≡ throwable_type program.now) }
    ensures memory { IfErr result (λ e. e ≡ StepFault.Memory) }
{
    named_type(program, b"java/lang/Throwable")
}

fn on_word(
    program: &Program,
    method: &Method,
    value: &Value,
    state: &mut State,
) -> Result<(), StepFault>
    ensures { answers (by_row program.now method.now 0 (constant_row program.now value.now) state.old) result state.new }
{
    match value {
        Value::Int(_) => apply(program, method, state, &[], Some(VType::Int), &[]),
        Value::Text(_) => {
            let Ok(text) = text_type(program) else {
                return Err(StepFault::Memory);
            };
            apply(program, method, state, &[], Some(text), &[])
        }
        Value::Long(_) | Value::Null | Value::Ref(_) | Value::Box(_) | Value::Fiber => {
            let wrong = Also::Needs(WRONG_CONSTANT, false);
            apply(program, method, state, &[], Some(VType::Int), &[wrong])
        }
    }
}

fn on_two_words(
    program: &Program,
    method: &Method,
    value: &Value,
    state: &mut State,
) -> Result<(), StepFault>
    ensures { answers (by_row program.now method.now 0 (long_constant_row value.now) state.old) result state.new }
{
    match value {
        Value::Long(_) => apply(program, method, state, &[], Some(VType::Long), &[]),
        Value::Int(_)
        | Value::Text(_)
        | Value::Null
        | Value::Ref(_)
        | Value::Box(_)
        | Value::Fiber => {
            let wrong = Also::Needs(WRONG_CONSTANT, false);
            apply(program, method, state, &[], Some(VType::Long), &[wrong])
        }
    }
}

/// Constants of the pool.
#[tactic(auto, unfolding(kilim_type_spec::specs::Step::row), using(crate::proofs::Places::constant_place, crate::proofs::Places::long_place))]
pub fn on_constant(
    program: &Program,
    method: &Method,
    at: u32,
    instr: &Instr,
    state: &mut State,
) -> Result<(), StepFault>
    requires { is_constant instr.now ≡ true }
    ensures { answers (type_step program.now method.now at instr.now state.old) result state.new }
{
    match instr {
        Instr::Ldc(value) | Instr::LdcW(value) => on_word(program, method, value, state),
        Instr::Ldc2W(value) => on_two_words(program, method, value, state),
        _ => unreachable!(),
    }
}
