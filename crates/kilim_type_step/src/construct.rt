//! Calls of constructors.

ghost use Rattle.std.specs.Prelude.{◌≡◌, ◌+◌, ◌<◌, ◌∷◌, ◌++◌, [], Some, suc, drop, length, slice_get, option_to_list, OnOk};
ghost use Rattle.kilim_type_spec.specs.Step.{by_row, made_at, made_by, needs, superclass_at, class_vtype, has_operands, room_for, is_class, Constructs};
ghost use Rattle.kilim_program.specs.Names.{class_at};
ghost use Rattle.kilim_type_step.specs.Answers.{answers, class_made, initialized, left_by_made};
ghost use Rattle.kilim_type_step.specs.Operands.{operands_of};

use crate::apply::{
    MISSING_OPERAND, NOT_INITIALIZED, STACK_TOO_HIGH, WRONG_MEMBER, WRONG_OPERAND, WRONG_SPECIAL,
    all_meet, has_room,
};
use crate::fault::StepFault;
use crate::operands::{Taken, class_vtype};
use crate::state::State;
use kilim_program::lookups::class_at;
use kilim_program::{ClassId, Instr, Method, Program, VType};
use std::alloc::AllocError;

fn entry_at(code: &[(u32, Instr)], at: usize) -> &(u32, Instr)
    requires { at < length code.now }
    ensures { slice_get code.now at ≡ Some result.now }
{
    &code[at]
}

/// The class that the `new` at a place makes, none where there is no `new`.
#[tactic(auto, using(crate::proofs::Constructing::made_here, crate::proofs::Constructing::made_on))]
pub fn made_at(code: &[(u32, Instr)], at: u32) -> Option<ClassId>
    ensures { result ≡ made_at code.now at }
{
    for index in 0..code.len() {
        let entry = entry_at(code, index);
        if entry.0 == at {
            return made_by(&entry.1);
        }
    }
    None
}

fn made_by(instr: &Instr) -> Option<ClassId>
    ensures { result ≡ made_by instr.now }
{
    match instr {
        Instr::New(class) => Some(*class),
        _ => None,
    }
}

fn is_class(class: ClassId, other: Option<ClassId>) -> bool
    ensures { result ≡ is_class class other }
{
    match other {
        Some(other) => class.0 == other.0,
        None => false,
    }
}

fn superclass_of(program: &Program, class: ClassId) -> Option<ClassId>
    ensures { result ≡ superclass_at (class_at program.now class) }
{
    match class_at(program, class) {
        Some(found) => found.superclass,
        None => None,
    }
}

// The class of the object that a constructor of this class makes of a type, none where it doesn't fit.
fn class_made(program: &Program, method: &Method, class: ClassId, t: VType) -> Option<ClassId>
    ensures { result ≡ class_made program.now method.now class t }
{
    match t {
        VType::UninitThis => {
            if class.0 == method.owner.0 || is_class(class, superclass_of(program, method.owner)) {
                Some(method.owner)
            } else {
                None
            }
        }
        VType::Uninit(at) => {
            if is_class(class, made_at(method.code.as_slice(), at)) {
                Some(class)
            } else {
                None
            }
        }
        VType::Top | VType::Int | VType::Long | VType::Null | VType::Object(_) => None,
    }
}

// The object is initialized, wherever it stands.
fn initialize(state: &mut State, object: VType, class: ClassId)
    ensures { state.new ≡ initialized object (class_vtype class) state.old }
{
    let made = class_vtype(class);
    match object {
        VType::UninitThis => {
            state.replace_in_locals(VType::UninitThis, made);
            state.replace_on_stack(VType::UninitThis, made);
            state.set();
        }
        VType::Top | VType::Int | VType::Long | VType::Null | VType::Uninit(_) | VType::Object(_) =>
            {
                state.replace_in_locals(object, made);
                state.replace_on_stack(object, made);
            }
    }
}

fn push_result(state: &mut State, gives: Option<VType>) -> Result<(), AllocError>
    ensures { OnOk result (state.new ≡ record state.old { stack = option_to_list gives ++ state.old.stack }) }
{
    match gives {
        Some(t) => state.push(t),
        None => Ok(()),
    }
}

// One more than what is taken.
#[tactic(auto, using(crate::proofs::Rows::operands_long))]
fn has_object(takes: &[Taken], state: &State) -> bool
    ensures { result ≡ has_operands (suc (length (operands_of takes.now))) state.now.stack }
{
    takes.len() < state.height()
}

#[tactic(auto, using(crate::proofs::Constructing::dropped))]
fn has_room_above(method: &Method, takes: &[Taken], state: &State, gives: Option<VType>) -> bool
    ensures { result ≡ room_for method.now (option_to_list gives) (drop (suc (length (operands_of takes.now))) state.now.stack) }
{
    has_room(method, state, takes.len() + 1, gives)
}

#[tactic(auto, using(crate::proofs::Rows::operands_long))]
fn object_below(takes: &[Taken], state: &State) -> Option<VType>
    ensures { result ≡ slice_get state.now.stack (length (operands_of takes.now)) }
{
    state.below(takes.len())
}

#[tactic(auto, using(crate::proofs::Rows::operands_long))]
fn finish(
    state: &mut State,
    takes: &[Taken],
    object: VType,
    made: ClassId,
    gives: Option<VType>,
) -> Result<(), AllocError>
    ensures { OnOk result (state.new ≡ left_by_made object made (option_to_list gives) (drop (length (operands_of takes.now) + 1) state.old.stack) state.old) }
{
    state.drop_top(takes.len() + 1);
    initialize(state, object, made);
    push_result(state, gives)
}

/// A call of a constructor: what it takes above the object, what it gives, its class, whether it may be named, and whether
/// it has code.
pub fn construct(
    program: &Program,
    method: &Method,
    state: &mut State,
    takes: &[Taken],
    gives: Option<VType>,
    class: ClassId,
    named: bool,
    fits: bool,
) -> Result<(), StepFault>
    ensures { answers (by_row program.now method.now 0 (Constructs (operands_of takes.now) (option_to_list gives) class (needs 8 named ∷ []) (needs 14 fits ∷ [])) state.old) result state.new }
{
    if !has_object(takes, state) {
        return Err(StepFault::Rule(MISSING_OPERAND));
    }
    if !has_room_above(method, takes, state, gives) {
        return Err(StepFault::Rule(STACK_TOO_HIGH));
    }
    if !all_meet(program, takes, state) {
        return Err(StepFault::Rule(WRONG_OPERAND));
    }
    if !named {
        return Err(StepFault::Rule(WRONG_MEMBER));
    }
    match object_below(takes, state) {
        Some(object) => match class_made(program, method, class, object) {
            Some(made) => {
                if !fits {
                    return Err(StepFault::Rule(WRONG_SPECIAL));
                }
                match finish(state, takes, object, made, gives) {
                    Ok(()) => Ok(()),
                    Err(AllocError) => Err(StepFault::Memory),
                }
            }
            None => Err(StepFault::Rule(NOT_INITIALIZED)),
        },
        None => Err(StepFault::Rule(NOT_INITIALIZED)),
    }
}
