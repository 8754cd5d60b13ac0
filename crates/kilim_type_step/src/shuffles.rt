//! Pop, dup and swap forms.

ghost use Rattle.std.specs.Prelude.{◌≡◌, ◌+◌, ◌≤◌, ◌++◌, true, MatchResult, OnOk, Ok};
ghost use Rattle.kilim_program.specs.declared.class.Method.{Method};
ghost use Rattle.kilim_program.specs.Program.{Program};
ghost use Rattle.kilim_type_spec.specs.Step.{by_row, row, type_step, off, shuffled, with_stack, words, Shuffles, form_words, form_adds, form_room};
ghost use Rattle.kilim_type_step.specs.Answers.{answers};
ghost use Rattle.kilim_type_step.specs.Forms.{form_of, count_off, number, SplitFails};
ghost use Rattle.kilim_type_step.specs.Families.{is_shuffle};

use crate::apply::{MISSING_OPERAND, STACK_TOO_HIGH};
use crate::fault::StepFault;
use crate::state::State;
use kilim_program::{Instr, Method, Program, VType};
use std::alloc::{AllocError, Global};

const SPLIT_LONG: u8 = 7;

/// A number of words.
#[derive(Clone, Copy)]
pub enum Words {
    Zero,
    One,
    Two,
}

/// Which words a form takes, passes over and gives.
#[derive(Clone, Copy)]
pub enum Shuffle {
    /// So many words go.
    Drops(Words),
    /// So many words are copied below so many others.
    Copies(Words, Words),
    Swaps,
}

fn number(words: Words) -> u16
    ensures value { result ≡ number words }
    ensures small { result ≤ 2 }
{
    match words {
        Words::Zero => 0,
        Words::One => 1,
        Words::Two => 2,
    }
}

// How many types so many words are, by the two topmost ones.
fn count_off(words: Words, first: Option<VType>, second: Option<VType>) -> Result<usize, u8>
    ensures { result ≡ count_off (number words) first second }
{
    match words {
        Words::Zero => Ok(0),
        Words::One => match first {
            None => Err(MISSING_OPERAND),
            Some(VType::Long) => Err(SPLIT_LONG),
            Some(
                VType::Top
                | VType::Int
                | VType::Null
                | VType::UninitThis
                | VType::Uninit(_)
                | VType::Object(_),
            ) => Ok(1),
        },
        Words::Two => match first {
            None => Err(MISSING_OPERAND),
            Some(VType::Long) => Ok(1),
            Some(
                VType::Top
                | VType::Int
                | VType::Null
                | VType::UninitThis
                | VType::Uninit(_)
                | VType::Object(_),
            ) => match second {
                None => Err(MISSING_OPERAND),
                Some(VType::Long) => Err(SPLIT_LONG),
                Some(
                    VType::Top
                    | VType::Int
                    | VType::Null
                    | VType::UninitThis
                    | VType::Uninit(_)
                    | VType::Object(_),
                ) => Ok(2),
            },
        },
    }
}

// The types of so many words from the top, which are taken away.
fn split(alloc: Global, state: &mut State, words: Words) -> Result<Vec<VType>, StepFault>
    ensures split { MatchResult result (λ parts. off (number words) state.old.stack ≡ Ok (parts.items, state.new.stack)) (SplitFails (number words) state.old.stack) }
    ensures rest { state.new ≡ record state.old { stack = state.new.stack } }
{
    match count_off(words, state.below(0), state.below(1)) {
        Ok(count) => {
            let Ok(parts) = state.top(alloc, count) else {
                return Err(StepFault::Memory);
            };
            state.drop_top(count);
            Ok(parts)
        }
        Err(rule) => Err(StepFault::Rule(rule)),
    }
}

#[tactic(auto, using(crate::proofs::Shuffled::drops_ok, crate::proofs::Shuffled::drops_fault))]
fn drop_words(alloc: Global, state: &mut State, words: Words) -> Result<(), StepFault>
    ensures { answers (with_stack state.old (shuffled (form_of (Shuffle.Drops words)) state.old.stack)) result state.new }
{
    match split(alloc, state, words) {
        Ok(_) => Ok(()),
        Err(fault) => Err(fault),
    }
}

fn push_all(
    state: &mut State,
    first: &[VType],
    then: &[VType],
    last: &[VType],
) -> Result<(), AllocError>
    ensures { OnOk result (state.new ≡ record state.old { stack = last.now ++ (then.now ++ (first.now ++ state.old.stack)) }) }
{
    let Ok(()) = state.push_all(first) else {
        return Err(AllocError);
    };
    let Ok(()) = state.push_all(then) else {
        return Err(AllocError);
    };
    state.push_all(last)
}

#[tactic(auto, using(crate::proofs::Shuffled::copies_ok, crate::proofs::Shuffled::copies_fault, crate::proofs::Shuffled::copies_later))]
fn copy_words(
    alloc: Global,
    state: &mut State,
    words: Words,
    passed: Words,
) -> Result<(), StepFault>
    ensures { answers (with_stack state.old (shuffled (form_of (Shuffle.Copies words passed)) state.old.stack)) result state.new }
{
    let copied = match split(alloc, state, words) {
        Ok(parts) => parts,
        Err(fault) => return Err(fault),
    };
    let below = match split(alloc, state, passed) {
        Ok(parts) => parts,
        Err(fault) => return Err(fault),
    };
    let pushed = push_all(state, &copied, &below, &copied);
    drop(below);
    drop(copied);
    match pushed {
        Ok(()) => Ok(()),
        Err(_) => Err(StepFault::Memory),
    }
}

#[tactic(auto, using(crate::proofs::Shuffled::swaps_ok, crate::proofs::Shuffled::swaps_fault, crate::proofs::Shuffled::swaps_later))]
fn swap_words(alloc: Global, state: &mut State) -> Result<(), StepFault>
    ensures { answers (with_stack state.old (shuffled (form_of Shuffle.Swaps) state.old.stack)) result state.new }
{
    let top = match split(alloc, state, Words::One) {
        Ok(parts) => parts,
        Err(fault) => return Err(fault),
    };
    let below = match split(alloc, state, Words::One) {
        Ok(parts) => parts,
        Err(fault) => return Err(fault),
    };
    let pushed = push_all(state, &[], &top, &below);
    drop(below);
    drop(top);
    match pushed {
        Ok(()) => Ok(()),
        Err(_) => Err(StepFault::Memory),
    }
}

fn move_words(alloc: Global, state: &mut State, form: Shuffle) -> Result<(), StepFault>
    ensures { answers (with_stack state.old (shuffled (form_of form) state.old.stack)) result state.new }
{
    match form {
        Shuffle::Drops(words) => drop_words(alloc, state, words),
        Shuffle::Copies(words, passed) => copy_words(alloc, state, words, passed),
        Shuffle::Swaps => swap_words(alloc, state),
    }
}

fn words_of(form: Shuffle) -> u16
    ensures value { result ≡ form_words (form_of form) }
    ensures small { result ≤ 4 }
{
    match form {
        Shuffle::Drops(words) => number(words),
        Shuffle::Copies(words, passed) => number(words) + number(passed),
        Shuffle::Swaps => 2,
    }
}

fn added(form: Shuffle) -> u16
    ensures value { result ≡ form_adds (form_of form) }
    ensures small { result ≤ 2 }
{
    match form {
        Shuffle::Drops(_) | Shuffle::Swaps => 0,
        Shuffle::Copies(words, _) => number(words),
    }
}

// A form that drops pushes nothing.
fn has_room(method: &Method, state: &State, form: Shuffle) -> bool
    ensures { result ≡ form_room method.now (form_of form) (words state.now.stack) }
{
    match form {
        Shuffle::Drops(_) => true,
        Shuffle::Copies(_, _) | Shuffle::Swaps => state.has_room(added(form), method.max_stack),
    }
}

fn shuffle_words(
    alloc: Global,
    program: &Program,
    method: &Method,
    state: &mut State,
    form: Shuffle,
) -> Result<(), StepFault>
    ensures { answers (by_row program.now method.now 0 (Shuffles (form_of form)) state.old) result state.new }
{
    if !state.has_words(words_of(form)) {
        return Err(StepFault::Rule(MISSING_OPERAND));
    }
    if !has_room(method, state, form) {
        return Err(StepFault::Rule(STACK_TOO_HIGH));
    }
    move_words(alloc, state, form)
}

// The form of an instruction.
#[tactic(auto, unfolding(kilim_type_spec::specs::Step::row))]
fn shuffle_of(instr: &Instr) -> Shuffle
    requires { is_shuffle instr.now ≡ true }
    ensures { (p : Program) (m : Method) → row p m instr.now ≡ Shuffles (form_of result) }
{
    match instr {
        Instr::Pop => Shuffle::Drops(Words::One),
        Instr::Pop2 => Shuffle::Drops(Words::Two),
        Instr::Dup => Shuffle::Copies(Words::One, Words::Zero),
        Instr::DupX1 => Shuffle::Copies(Words::One, Words::One),
        Instr::DupX2 => Shuffle::Copies(Words::One, Words::Two),
        Instr::Dup2 => Shuffle::Copies(Words::Two, Words::Zero),
        Instr::Dup2X1 => Shuffle::Copies(Words::Two, Words::One),
        Instr::Dup2X2 => Shuffle::Copies(Words::Two, Words::Two),
        Instr::Swap => Shuffle::Swaps,
        _ => unreachable!(),
    }
}

/// Pop, dup and swap forms.
pub fn on_shuffle(
    alloc: Global,
    program: &Program,
    method: &Method,
    at: u32,
    instr: &Instr,
    state: &mut State,
) -> Result<(), StepFault>
    requires { is_shuffle instr.now ≡ true }
    ensures { answers (type_step program.now method.now at instr.now state.old) result state.new }
{
    shuffle_words(alloc, program, method, state, shuffle_of(instr))
}
