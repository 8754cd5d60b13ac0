//! The forms that move words of the stack (JVMS 2.11.7). A long is one value and two words.

ghost use Rattle.std.specs.Prelude.{◌≡◌, ◌≤◌, ◌<◌, ◌+◌, ◌∷◌, ◌++◌, false, length, take, drop, IfOk};
ghost use Rattle.kilim_run_machine.specs.Does.{does};
ghost use Rattle.kilim_run_machine.specs.Effect.{is_wide};
ghost use Rattle.kilim_program.specs.declared.instr.Instr.TheVariants.{Pop, Pop2, Dup, DupX1, DupX2, Dup2, Dup2X1, Dup2X2, Swap};
ghost use Rattle.kilim_run_rows.specs.Laid.{IsLaid, copied};
ghost use Rattle.kilim_run_rows.specs.Outcome.{is_stuck, height, Shows, SameFrame};

use crate::outcome::Moved;
use kilim_program::{Method, Program, Value};
use kilim_run_state::Heap;
use kilim_run_state::frames::Frame;
use std::alloc::AllocError;

/// `pop`.
#[tactic(auto, unfolding(kilim_run_machine::specs::Does::does))]
#[inline(always)]
pub fn pop_word(program: &Program, own: &Method, next: u32, frame: &mut Frame, heap: &Heap) -> Moved
    requires fine { is_stuck (does program.now own.now Pop next frame.old.locals frame.old.stack.values heap.now) ≡ false }
    requires room { height (does program.now own.now Pop next frame.old.locals frame.old.stack.values heap.now) ≤ frame.old.stack.room }
    ensures step { Shows own.now (does program.now own.now Pop next frame.old.locals frame.old.stack.values heap.now) next result frame.old frame.new heap.now heap.now }
    ensures same { SameFrame frame.old frame.new }
{
    let _ = frame.stack.pop();
    Moved::Next
}

/// `pop2`.
#[tactic(auto, unfolding(kilim_run_machine::specs::Does::does))]
#[inline(always)]
pub fn pop_two(program: &Program, own: &Method, next: u32, frame: &mut Frame, heap: &Heap) -> Moved
    requires fine { is_stuck (does program.now own.now Pop2 next frame.old.locals frame.old.stack.values heap.now) ≡ false }
    requires room { height (does program.now own.now Pop2 next frame.old.locals frame.old.stack.values heap.now) ≤ frame.old.stack.room }
    ensures step { Shows own.now (does program.now own.now Pop2 next frame.old.locals frame.old.stack.values heap.now) next result frame.old frame.new heap.now heap.now }
    ensures same { SameFrame frame.old frame.new }
{
    let is_one_long = {
        let top = frame.stack.pop();
        is_long(&top)
    };
    if !is_one_long {
        let _ = frame.stack.pop();
    }
    Moved::Next
}

/// `dup`.
#[tactic(auto, unfolding(kilim_run_machine::specs::Does::does))]
#[inline(always)]
pub fn copy_word(
    program: &Program,
    own: &Method,
    next: u32,
    frame: &mut Frame,
    heap: &Heap,
) -> Moved
    requires fine { is_stuck (does program.now own.now Dup next frame.old.locals frame.old.stack.values heap.now) ≡ false }
    requires room { height (does program.now own.now Dup next frame.old.locals frame.old.stack.values heap.now) ≤ frame.old.stack.room }
    ensures step { Shows own.now (does program.now own.now Dup next frame.old.locals frame.old.stack.values heap.now) next result frame.old frame.new heap.now heap.now }
    ensures same { SameFrame frame.old frame.new }
{
    word_again(frame)
}

/// `dup_x1`.
#[tactic(auto, unfolding(kilim_run_machine::specs::Does::does))]
#[inline(always)]
pub fn copy_below_one(
    program: &Program,
    own: &Method,
    next: u32,
    frame: &mut Frame,
    heap: &Heap,
) -> Moved
    requires fine { is_stuck (does program.now own.now DupX1 next frame.old.locals frame.old.stack.values heap.now) ≡ false }
    requires room { height (does program.now own.now DupX1 next frame.old.locals frame.old.stack.values heap.now) ≤ frame.old.stack.room }
    ensures step { Shows own.now (does program.now own.now DupX1 next frame.old.locals frame.old.stack.values heap.now) next result frame.old frame.new heap.now heap.now }
    ensures same { SameFrame frame.old frame.new }
{
    word_below_two(frame)
}

/// `swap`.
#[tactic(auto, unfolding(kilim_run_machine::specs::Does::does))]
#[inline(always)]
pub fn swap_words(
    program: &Program,
    own: &Method,
    next: u32,
    frame: &mut Frame,
    heap: &Heap,
) -> Moved
    requires fine { is_stuck (does program.now own.now Swap next frame.old.locals frame.old.stack.values heap.now) ≡ false }
    requires room { height (does program.now own.now Swap next frame.old.locals frame.old.stack.values heap.now) ≤ frame.old.stack.room }
    ensures step { Shows own.now (does program.now own.now Swap next frame.old.locals frame.old.stack.values heap.now) next result frame.old frame.new heap.now heap.now }
    ensures same { SameFrame frame.old frame.new }
{
    let a = frame.stack.pop();
    let b = frame.stack.pop();
    frame.stack.push(a);
    frame.stack.push(b);
    Moved::Next
}

/// `dup_x2`.
#[tactic(auto, unfolding(kilim_run_machine::specs::Does::does))]
#[inline(always)]
pub fn copy_below_two(
    program: &Program,
    own: &Method,
    next: u32,
    frame: &mut Frame,
    heap: &Heap,
) -> Moved
    requires fine { is_stuck (does program.now own.now DupX2 next frame.old.locals frame.old.stack.values heap.now) ≡ false }
    requires room { height (does program.now own.now DupX2 next frame.old.locals frame.old.stack.values heap.now) ≤ frame.old.stack.room }
    ensures step { Shows own.now (does program.now own.now DupX2 next frame.old.locals frame.old.stack.values heap.now) next result frame.old frame.new heap.now heap.now }
    ensures same { SameFrame frame.old frame.new }
{
    if is_long(frame.stack.peek(1)) {
        return word_below_two(frame);
    }
    word_below_three(frame)
}

/// `dup2`.
#[tactic(auto, unfolding(kilim_run_machine::specs::Does::does))]
#[inline(always)]
pub fn copy_two(program: &Program, own: &Method, next: u32, frame: &mut Frame, heap: &Heap) -> Moved
    requires fine { is_stuck (does program.now own.now Dup2 next frame.old.locals frame.old.stack.values heap.now) ≡ false }
    requires room { height (does program.now own.now Dup2 next frame.old.locals frame.old.stack.values heap.now) ≤ frame.old.stack.room }
    ensures step { Shows own.now (does program.now own.now Dup2 next frame.old.locals frame.old.stack.values heap.now) next result frame.old frame.new heap.now heap.now }
    ensures same { SameFrame frame.old frame.new }
{
    if is_long(frame.stack.peek(0)) {
        return word_again(frame);
    }
    pair_again(frame)
}

/// `dup2_x1`.
#[tactic(auto, unfolding(kilim_run_machine::specs::Does::does))]
#[inline(always)]
pub fn copy_two_below_one(
    program: &Program,
    own: &Method,
    next: u32,
    frame: &mut Frame,
    heap: &Heap,
) -> Moved
    requires fine { is_stuck (does program.now own.now Dup2X1 next frame.old.locals frame.old.stack.values heap.now) ≡ false }
    requires room { height (does program.now own.now Dup2X1 next frame.old.locals frame.old.stack.values heap.now) ≤ frame.old.stack.room }
    ensures step { Shows own.now (does program.now own.now Dup2X1 next frame.old.locals frame.old.stack.values heap.now) next result frame.old frame.new heap.now heap.now }
    ensures same { SameFrame frame.old frame.new }
{
    if is_long(frame.stack.peek(0)) {
        return word_below_two(frame);
    }
    pair_below_three(frame)
}

/// `dup2_x2`.
#[tactic(auto, unfolding(kilim_run_machine::specs::Does::does))]
#[inline(always)]
pub fn copy_two_below_two(
    program: &Program,
    own: &Method,
    next: u32,
    frame: &mut Frame,
    heap: &Heap,
) -> Moved
    requires fine { is_stuck (does program.now own.now Dup2X2 next frame.old.locals frame.old.stack.values heap.now) ≡ false }
    requires room { height (does program.now own.now Dup2X2 next frame.old.locals frame.old.stack.values heap.now) ≤ frame.old.stack.room }
    ensures step { Shows own.now (does program.now own.now Dup2X2 next frame.old.locals frame.old.stack.values heap.now) next result frame.old frame.new heap.now heap.now }
    ensures same { SameFrame frame.old frame.new }
{
    if is_long(frame.stack.peek(0)) {
        if is_long(frame.stack.peek(1)) {
            return word_below_two(frame);
        }
        return word_below_three(frame);
    }
    if is_long(frame.stack.peek(2)) {
        return pair_below_three(frame);
    }
    pair_below_four(frame)
}

// A copy of the topmost word, on top.
#[inline(always)]
fn word_again(frame: &mut Frame) -> Moved
    requires there { 1 ≤ length frame.old.stack.values }
    requires room { length frame.old.stack.values + 1 ≤ frame.old.stack.room }
    ensures laid { IsLaid result frame.old frame.new (copied 1 1 frame.old.stack.values) }
    ensures same { SameFrame frame.old frame.new }
{
    let Ok(copy) = copy_of(frame.stack.peek(0)) else {
        return Moved::NoMemory;
    };
    frame.stack.push(copy);
    Moved::Next
}

// A copy of the topmost word, below two.
#[inline(always)]
fn word_below_two(frame: &mut Frame) -> Moved
    requires there { 2 ≤ length frame.old.stack.values }
    requires room { length frame.old.stack.values + 1 ≤ frame.old.stack.room }
    ensures laid { IsLaid result frame.old frame.new (copied 1 2 frame.old.stack.values) }
    ensures same { SameFrame frame.old frame.new }
{
    let Ok(copy) = copy_of(frame.stack.peek(0)) else {
        return Moved::NoMemory;
    };
    put_below_two(frame, copy);
    Moved::Next
}

// A copy of the topmost word, below three.
#[inline(always)]
fn word_below_three(frame: &mut Frame) -> Moved
    requires there { 3 ≤ length frame.old.stack.values }
    requires room { length frame.old.stack.values + 1 ≤ frame.old.stack.room }
    ensures laid { IsLaid result frame.old frame.new (copied 1 3 frame.old.stack.values) }
    ensures same { SameFrame frame.old frame.new }
{
    let Ok(copy) = copy_of(frame.stack.peek(0)) else {
        return Moved::NoMemory;
    };
    put_below_three(frame, copy);
    Moved::Next
}

// Copies of the two topmost words, on top.
#[inline(always)]
fn pair_again(frame: &mut Frame) -> Moved
    requires there { 2 ≤ length frame.old.stack.values }
    requires room { length frame.old.stack.values + 2 ≤ frame.old.stack.room }
    ensures laid { IsLaid result frame.old frame.new (copied 2 2 frame.old.stack.values) }
    ensures same { SameFrame frame.old frame.new }
{
    let Ok(other) = copy_of(frame.stack.peek(1)) else {
        return Moved::NoMemory;
    };
    let Ok(copy) = copy_of(frame.stack.peek(0)) else {
        return Moved::NoMemory;
    };
    frame.stack.push(other);
    frame.stack.push(copy);
    Moved::Next
}

// Copies of the two topmost words, below three.
#[inline(always)]
fn pair_below_three(frame: &mut Frame) -> Moved
    requires there { 3 ≤ length frame.old.stack.values }
    requires room { length frame.old.stack.values + 2 ≤ frame.old.stack.room }
    ensures laid { IsLaid result frame.old frame.new (copied 2 3 frame.old.stack.values) }
    ensures same { SameFrame frame.old frame.new }
{
    let Ok(other) = copy_of(frame.stack.peek(1)) else {
        return Moved::NoMemory;
    };
    let Ok(copy) = copy_of(frame.stack.peek(0)) else {
        return Moved::NoMemory;
    };
    put_below_three(frame, other);
    put_below_three(frame, copy);
    Moved::Next
}

// Copies of the two topmost words, below four.
#[inline(always)]
fn pair_below_four(frame: &mut Frame) -> Moved
    requires there { 4 ≤ length frame.old.stack.values }
    requires room { length frame.old.stack.values + 2 ≤ frame.old.stack.room }
    ensures laid { IsLaid result frame.old frame.new (copied 2 4 frame.old.stack.values) }
    ensures same { SameFrame frame.old frame.new }
{
    let Ok(other) = copy_of(frame.stack.peek(1)) else {
        return Moved::NoMemory;
    };
    let Ok(copy) = copy_of(frame.stack.peek(0)) else {
        return Moved::NoMemory;
    };
    put_below_four(frame, other);
    put_below_four(frame, copy);
    Moved::Next
}

#[inline(always)]
fn is_long(value: &Value) -> bool
    ensures { result ≡ is_wide value.now }
{
    match value {
        Value::Long(_) => true,
        _ => false,
    }
}

#[inline(always)]
fn copy_of(value: &Value) -> Result<Value, AllocError>
    ensures { IfOk result (λ copy. copy ≡ value.now) }
{
    value.clone()
}

// Puts a value below the two topmost ones.
#[inline(always)]
fn put_below_two(frame: &mut Frame, value: Value)
    requires there { 2 ≤ length frame.old.stack.values }
    requires room { length frame.old.stack.values < frame.old.stack.room }
    ensures { frame.new ≡ record frame.old { stack = record frame.old.stack { values = take 2 frame.old.stack.values ++ (value ∷ drop 2 frame.old.stack.values) } } }
{
    let a = frame.stack.pop();
    let b = frame.stack.pop();
    frame.stack.push(value);
    frame.stack.push(b);
    frame.stack.push(a);
}

// Puts a value below the three topmost ones.
#[inline(always)]
fn put_below_three(frame: &mut Frame, value: Value)
    requires there { 3 ≤ length frame.old.stack.values }
    requires room { length frame.old.stack.values < frame.old.stack.room }
    ensures { frame.new ≡ record frame.old { stack = record frame.old.stack { values = take 3 frame.old.stack.values ++ (value ∷ drop 3 frame.old.stack.values) } } }
{
    let top = frame.stack.pop();
    put_below_two(frame, value);
    frame.stack.push(top);
}

// Puts a value below the four topmost ones.
#[inline(always)]
fn put_below_four(frame: &mut Frame, value: Value)
    requires there { 4 ≤ length frame.old.stack.values }
    requires room { length frame.old.stack.values < frame.old.stack.room }
    ensures { frame.new ≡ record frame.old { stack = record frame.old.stack { values = take 4 frame.old.stack.values ++ (value ∷ drop 4 frame.old.stack.values) } } }
{
    let top = frame.stack.pop();
    put_below_three(frame, value);
    frame.stack.push(top);
}
