//! Rows that take types from the stack and give one.

ghost use Rattle.std.specs.Prelude.{◌≡◌, ◌++◌, ◌∷◌, [], ◌&&◌, length, drop, option_to_list, OnOk};
ghost use Rattle.kilim_type_spec.specs.Step.{all_meet, has_operands, has_room, room_for, is_object, class_vtype, by_row, Is, Takes, Leaves};
ghost use Rattle.kilim_program.specs.Same.{is_constructor};
ghost use Rattle.kilim_type_step.specs.Answers.{answers, failing};
ghost use Rattle.kilim_type_step.specs.Operands.{operands_of, further_of, furthers_of, anything};

use crate::fault::StepFault;
use crate::operands::{Also, Taken, class_vtype, meets};
use crate::state::{State, size};
use kilim_program::{ClassId, Method, Program, VType};
use std::alloc::AllocError;

// The rules, by their numbers.
pub const MISSING_OPERAND: u8 = 3;

pub const STACK_TOO_HIGH: u8 = 4;

pub const WRONG_OPERAND: u8 = 5;

pub const WRONG_LOCAL: u8 = 6;

pub const WRONG_MEMBER: u8 = 8;

pub const WRONG_CONSTANT: u8 = 9;

pub const NOT_INITIALIZED: u8 = 10;

pub const WRONG_RETURN: u8 = 11;

pub const NOT_MADE: u8 = 13;

pub const WRONG_SPECIAL: u8 = 14;

#[tactic(auto, using(crate::proofs::Rows::operands_long))]
pub fn has_operands(takes: &[Taken], state: &State) -> bool
    ensures { result ≡ has_operands (length (operands_of takes.now)) state.now.stack }
{
    takes.len() <= state.height()
}

/// Whether the topmost types are such as are taken.
pub fn all_meet(program: &Program, takes: &[Taken], state: &State) -> bool
    ensures { result ≡ all_meet program.now (operands_of takes.now) state.now.stack }
{
    for (at, taken) in takes.iter().enumerate() {
        match state.below(at) {
            Some(t) => {
                if !meets(program, *taken, t) {
                    return false;
                }
            }
            None => return false,
        }
    }
    true
}

/// Whether there is room for a type in place of the topmost ones.
#[tactic(auto, using(crate::proofs::Rows::room_left, crate::proofs::Rows::no_room))]
pub fn has_room_for(method: &Method, state: &State, without: usize, t: VType) -> bool
    ensures { result ≡ has_room method.now (t ∷ drop without state.now.stack) }
{
    let most = method.max_stack;
    let taken = size(t);
    if most < taken {
        return false;
    }
    state.rest_is_within(without, most - taken)
}

/// Whether there is room for what is given, if anything is.
pub fn has_room(method: &Method, state: &State, without: usize, gives: Option<VType>) -> bool
    ensures { result ≡ room_for method.now (option_to_list gives) (drop without state.now.stack) }
{
    match gives {
        Some(t) => has_room_for(method, state, without, t),
        None => true,
    }
}

// Whether the type below so many others is of a class.
#[tactic(auto, using(crate::proofs::Rows::below_met, crate::proofs::Rows::below_lacks))]
fn stands_below(program: &Program, state: &State, count: usize, class: ClassId) -> bool
    ensures { result ≡ all_meet program.now (anything count ++ (Is (class_vtype class) ∷ [])) state.now.stack }
{
    match state.below(count) {
        Some(t) => meets(program, Taken::Is(class_vtype(class)), t),
        None => false,
    }
}

fn is_object(t: VType) -> bool
    ensures { result ≡ is_object t }
{
    match t {
        VType::Object(_) => true,
        VType::Top
        | VType::Int
        | VType::Long
        | VType::Null
        | VType::UninitThis
        | VType::Uninit(_) => false,
    }
}

// Whether a further rule holds.
fn holds(program: &Program, also: Also, state: &State) -> bool
    ensures { result ≡ ((further_of also).holds && all_meet program.now (further_of also).operands state.now.stack) }
{
    match also {
        Also::Needs(_, holds) => holds,
        Also::OneInitialized => all_meet(program, &[Taken::Initialized], state),
        Also::TwoInitialized => {
            all_meet(program, &[Taken::Initialized, Taken::Initialized], state)
        }
        Also::Returns(t) => is_object(t) && all_meet(program, &[Taken::Is(t)], state),
        Also::Below(count, class) => stands_below(program, state, count, class),
    }
}

fn number(also: Also) -> u8
    ensures { result ≡ (further_of also).number }
{
    match also {
        Also::Needs(rule, _) => rule,
        Also::OneInitialized | Also::TwoInitialized => NOT_INITIALIZED,
        Also::Returns(_) => WRONG_RETURN,
        Also::Below(_, _) => WRONG_OPERAND,
    }
}

/// The first further rule that fails.
#[tactic(auto, using(crate::proofs::Rows::failing_at))]
pub fn failing(program: &Program, also: &[Also], state: &State) -> Option<u8>
    ensures { result ≡ failing program.now (furthers_of also.now) state.now.stack }
{
    for more in also {
        if !holds(program, *more, state) {
            return Some(number(*more));
        }
    }
    None
}

#[tactic(auto, using(crate::proofs::Rows::operands_long))]
fn put(state: &mut State, takes: &[Taken], gives: Option<VType>) -> Result<(), AllocError>
    ensures { OnOk result (state.new ≡ record state.old { stack = option_to_list gives ++ drop (length (operands_of takes.now)) state.old.stack }) }
{
    state.drop_top(takes.len());
    match gives {
        Some(t) => state.push(t),
        None => Ok(()),
    }
}

/// A row that takes types from the stack, the top first, and gives at most one.
#[tactic(auto, using(crate::proofs::Rows::further_breaks, crate::proofs::Rows::further_holds, crate::proofs::Rows::operands_long))]
pub fn apply(
    program: &Program,
    method: &Method,
    state: &mut State,
    takes: &[Taken],
    gives: Option<VType>,
    also: &[Also],
) -> Result<(), StepFault>
    ensures { answers (by_row program.now method.now 0 (Takes (operands_of takes.now) (option_to_list gives) (furthers_of also.now)) state.old) result state.new }
{
    if !has_operands(takes, state) {
        return Err(StepFault::Rule(MISSING_OPERAND));
    }
    if !has_room(method, state, takes.len(), gives) {
        return Err(StepFault::Rule(STACK_TOO_HIGH));
    }
    if !all_meet(program, takes, state) {
        return Err(StepFault::Rule(WRONG_OPERAND));
    }
    if let Some(rule) = failing(program, also, state) {
        return Err(StepFault::Rule(rule));
    }
    match put(state, takes, gives) {
        Ok(()) => Ok(()),
        Err(AllocError) => Err(StepFault::Memory),
    }
}

// A constructor before its object is initialized.
fn leaves_unset(method: &Method, state: &State) -> bool
    ensures { result ≡ (state.now.unset && is_constructor method.now) }
{
    state.is_unset() && method.name.is_text(b"<init>")
}

/// A return: what it takes, and further rules.
#[tactic(auto, using(crate::proofs::Rows::further_breaks, crate::proofs::Rows::further_holds))]
pub fn leave(
    program: &Program,
    method: &Method,
    state: &mut State,
    takes: &[Taken],
    also: &[Also],
) -> Result<(), StepFault>
    ensures { answers (by_row program.now method.now 0 (Leaves (operands_of takes.now) (furthers_of also.now)) state.old) result state.new }
{
    if !has_operands(takes, state) {
        return Err(StepFault::Rule(MISSING_OPERAND));
    }
    if !all_meet(program, takes, state) {
        return Err(StepFault::Rule(WRONG_OPERAND));
    }
    if let Some(rule) = failing(program, also, state) {
        return Err(StepFault::Rule(rule));
    }
    if leaves_unset(method, state) {
        return Err(StepFault::Rule(WRONG_RETURN));
    }
    state.clear();
    Ok(())
}
