//! New objects and arrays, and casts.

ghost use Rattle.std.specs.Prelude.{◌≡◌, true};
ghost use Rattle.kilim_type_spec.specs.Step.{by_row, type_step, may_make, Makes};
ghost use Rattle.kilim_program.specs.Names.{class_at};
ghost use Rattle.kilim_type_step.specs.Answers.{answers};
ghost use Rattle.kilim_type_step.specs.Families.{is_made};

use crate::apply::{NOT_INITIALIZED, NOT_MADE, STACK_TOO_HIGH, apply, has_room_for};
use crate::constants::{object_type, throwable_type};
use crate::fault::StepFault;
use crate::operands::{Also, Taken};
use crate::state::State;
use kilim_program::lookups::class_at;
use kilim_program::{Base, ClassId, Instr, Method, Program, Ty, VType};
use std::alloc::AllocError;

const INT: Taken = Taken::Is(VType::Int);

const MOST_DIMENSIONS: u8 = 255;

// `new` makes no abstract class and none of these.
fn may_make(program: &Program, class: ClassId) -> bool
    ensures { result ≡ may_make program.now class (class_at program.now class) }
{
    match class_at(program, class) {
        Some(found) => {
            !(found.is_abstract
                || found.name.is_text(b"kilim/Message")
                || found.name.is_text(b"java/lang/String")
                || found.name.is_text(b"kilim/Sys")
                || found.name.is_text(b"kilim/Fiber"))
        }
        None => false,
    }
}

fn make(
    program: &Program,
    method: &Method,
    at: u32,
    class: ClassId,
    state: &mut State,
) -> Result<(), StepFault>
    ensures { answers (by_row program.now method.now at (Makes (may_make program.now class (class_at program.now class))) state.old) result state.new }
{
    let made = VType::Uninit(at);
    if !has_room_for(method, state, 0, made) {
        return Err(StepFault::Rule(STACK_TOO_HIGH));
    }
    if state.has_on_stack(made) {
        return Err(StepFault::Rule(NOT_INITIALIZED));
    }
    if !may_make(program, class) {
        return Err(StepFault::Rule(NOT_MADE));
    }
    state.replace_in_locals(made, VType::Top);
    match state.push(made) {
        Ok(()) => Ok(()),
        Err(AllocError) => Err(StepFault::Memory),
    }
}

// An array of references, by the type of its elements.
#[tactic(auto, unfolding(kilim_type_spec::specs::Step::row))]
fn make_array(
    program: &Program,
    method: &Method,
    at: u32,
    element: Ty,
    state: &mut State,
) -> Result<(), StepFault>
    ensures { answers (type_step program.now method.now at (Instr.Anewarray element) state.old) result state.new }
{
    if element.dims == MOST_DIMENSIONS {
        let wrong = Also::Needs(NOT_MADE, false);
        return apply(program, method, state, &[INT], Some(VType::Null), &[wrong]);
    }
    let array = Ty {
        dims: element.dims + 1,
        base: element.base,
    };
    let fits = Also::Needs(NOT_MADE, true);
    apply(
        program,
        method,
        state,
        &[INT],
        Some(VType::Object(array)),
        &[fits],
    )
}

/// New objects and arrays, casts, and what is thrown.
#[tactic(auto, unfolding(kilim_type_spec::specs::Step::row))]
pub fn on_made(
    program: &Program,
    method: &Method,
    at: u32,
    instr: &Instr,
    state: &mut State,
) -> Result<(), StepFault>
    requires { is_made instr.now ≡ true }
    ensures { answers (type_step program.now method.now at instr.now state.old) result state.new }
{
    match instr {
        Instr::New(class) => make(program, method, at, *class, state),
        Instr::Newarray(element) => {
            let array = Ty {
                dims: 1,
                base: *element,
            };
            apply(
                program,
                method,
                state,
                &[INT],
                Some(VType::Object(array)),
                &[],
            )
        }
        Instr::Anewarray(element) => make_array(program, method, at, *element, state),
        Instr::Checkcast(ty) => {
            let Ok(object) = object_type(program) else {
                return Err(StepFault::Memory);
            };
            apply(
                program,
                method,
                state,
                &[Taken::Is(object)],
                Some(VType::Object(*ty)),
                &[],
            )
        }
        Instr::Instanceof(_) => {
            let Ok(object) = object_type(program) else {
                return Err(StepFault::Memory);
            };
            apply(
                program,
                method,
                state,
                &[Taken::Is(object)],
                Some(VType::Int),
                &[],
            )
        }
        Instr::Athrow => {
            let Ok(throwable) = throwable_type(program) else {
                return Err(StepFault::Memory);
            };
            apply(program, method, state, &[Taken::Is(throwable)], None, &[])
        }
        _ => unreachable!(),
    }
}
