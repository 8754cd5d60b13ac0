//! Jumps (JVMS 2.11.7).

ghost use Rattle.std.specs.Prelude.{◌≡◌, ◌≤◌, false, pos};
ghost use Rattle.kilim_run_machine.specs.Does.{does, int_jump, compare_jump, reference_jump, null_jump, same_reference, is_null, table_target, match_target};
ghost use Rattle.kilim_program.specs.declared.instr.Instr.TheVariants.{Tableswitch, Lookupswitch};
ghost use Rattle.kilim_run_rows.specs.Operations.{holds, kept_if};
ghost use Rattle.kilim_run_rows.specs.Outcome.{is_stuck, height, Shows, SameFrame};

use crate::numbers::Test;
use crate::outcome::Moved;
use kilim_program::{Method, Program, Value};
use kilim_run_state::Heap;
use kilim_run_state::frames::Frame;
use kilim_units::Seq;

/// A comparison of an int with zero.
#[inline(always)]
pub fn jump_on_int(
    test: Test,
    to: u32,
    own: &Method,
    next: u32,
    frame: &mut Frame,
    heap: &Heap,
) -> Moved
    requires fine { is_stuck (int_jump (λ a. holds test a (pos 0)) to next frame.old.locals frame.old.stack.values heap.now) ≡ false }
    requires room { height (int_jump (λ a. holds test a (pos 0)) to next frame.old.locals frame.old.stack.values heap.now) ≤ frame.old.stack.room }
    ensures step { Shows own.now (int_jump (λ a. holds test a (pos 0)) to next frame.old.locals frame.old.stack.values heap.now) next result frame.old frame.new heap.now heap.now }
    ensures same { SameFrame frame.old frame.new }
{
    let a = frame.stack.pop_int();
    if test.of_ints(a, 0) {
        Moved::Jump(to)
    } else {
        Moved::Next
    }
}

/// A comparison of two ints.
#[inline(always)]
pub fn jump_on_two_ints(
    test: Test,
    to: u32,
    own: &Method,
    next: u32,
    frame: &mut Frame,
    heap: &Heap,
) -> Moved
    requires fine { is_stuck (compare_jump (holds test) to next frame.old.locals frame.old.stack.values heap.now) ≡ false }
    requires room { height (compare_jump (holds test) to next frame.old.locals frame.old.stack.values heap.now) ≤ frame.old.stack.room }
    ensures step { Shows own.now (compare_jump (holds test) to next frame.old.locals frame.old.stack.values heap.now) next result frame.old frame.new heap.now heap.now }
    ensures same { SameFrame frame.old frame.new }
{
    let b = frame.stack.pop_int();
    let a = frame.stack.pop_int();
    if test.of_ints(a, b) {
        Moved::Jump(to)
    } else {
        Moved::Next
    }
}

/// A comparison of two references.
#[inline(always)]
pub fn jump_on_references(
    same: bool,
    to: u32,
    own: &Method,
    next: u32,
    frame: &mut Frame,
    heap: &Heap,
) -> Moved
    requires fine { is_stuck (reference_jump (kept_if same) to next frame.old.locals frame.old.stack.values heap.now) ≡ false }
    requires room { height (reference_jump (kept_if same) to next frame.old.locals frame.old.stack.values heap.now) ≤ frame.old.stack.room }
    ensures step { Shows own.now (reference_jump (kept_if same) to next frame.old.locals frame.old.stack.values heap.now) next result frame.old frame.new heap.now heap.now }
    ensures same { SameFrame frame.old frame.new }
{
    let is_same = {
        let b = frame.stack.pop();
        let a = frame.stack.pop();
        are_same(&a, &b)
    };
    if is_same == same {
        Moved::Jump(to)
    } else {
        Moved::Next
    }
}

/// A comparison with null.
#[inline(always)]
pub fn jump_on_null(
    null: bool,
    to: u32,
    own: &Method,
    next: u32,
    frame: &mut Frame,
    heap: &Heap,
) -> Moved
    requires fine { is_stuck (null_jump (kept_if null) to next frame.old.locals frame.old.stack.values heap.now) ≡ false }
    requires room { height (null_jump (kept_if null) to next frame.old.locals frame.old.stack.values heap.now) ≤ frame.old.stack.room }
    ensures step { Shows own.now (null_jump (kept_if null) to next frame.old.locals frame.old.stack.values heap.now) next result frame.old frame.new heap.now heap.now }
    ensures same { SameFrame frame.old frame.new }
{
    let is_null = {
        let a = frame.stack.pop();
        is_none(&a)
    };
    if is_null == null {
        Moved::Jump(to)
    } else {
        Moved::Next
    }
}

/// `tableswitch`.
#[tactic(auto, unfolding(kilim_run_machine::specs::Does::does))]
#[inline(always)]
pub fn jump_by_table(
    default: u32,
    low: &i32,
    targets: &Seq<u32>,
    program: &Program,
    own: &Method,
    next: u32,
    frame: &mut Frame,
    heap: &Heap,
) -> Moved
    requires fine { is_stuck (does program.now own.now (Tableswitch default low.now targets.now) next frame.old.locals frame.old.stack.values heap.now) ≡ false }
    requires room { height (does program.now own.now (Tableswitch default low.now targets.now) next frame.old.locals frame.old.stack.values heap.now) ≤ frame.old.stack.room }
    ensures step { Shows own.now (does program.now own.now (Tableswitch default low.now targets.now) next frame.old.locals frame.old.stack.values heap.now) next result frame.old frame.new heap.now heap.now }
    ensures same { SameFrame frame.old frame.new }
{
    let a = frame.stack.pop_int();
    let index = i64::from(a) - i64::from(*low);
    Moved::Jump(target_in(targets.as_slice(), &index, default))
}

/// `lookupswitch`.
#[tactic(auto, unfolding(kilim_run_machine::specs::Does::does))]
#[inline(always)]
pub fn jump_by_match(
    default: u32,
    matches: &Seq<(i32, u32)>,
    program: &Program,
    own: &Method,
    next: u32,
    frame: &mut Frame,
    heap: &Heap,
) -> Moved
    requires fine { is_stuck (does program.now own.now (Lookupswitch default matches.now) next frame.old.locals frame.old.stack.values heap.now) ≡ false }
    requires room { height (does program.now own.now (Lookupswitch default matches.now) next frame.old.locals frame.old.stack.values heap.now) ≤ frame.old.stack.room }
    ensures step { Shows own.now (does program.now own.now (Lookupswitch default matches.now) next frame.old.locals frame.old.stack.values heap.now) next result frame.old frame.new heap.now heap.now }
    ensures same { SameFrame frame.old frame.new }
{
    let a = frame.stack.pop_int();
    Moved::Jump(match_in(matches.as_slice(), &a, default))
}

// Two strings by content, two mailboxes by name, two objects by identity.
#[inline(always)]
fn are_same(a: &Value, b: &Value) -> bool
    ensures { result ≡ same_reference a.now b.now }
{
    match a {
        Value::Null => match b {
            Value::Null => true,
            _ => false,
        },
        Value::Ref(n) => match b {
            Value::Ref(m) => *n == *m,
            _ => false,
        },
        Value::Text(s) => match b {
            Value::Text(t) => s.is_same(t),
            _ => false,
        },
        Value::Box(p) => match b {
            Value::Box(q) => p.task == q.task && p.number == q.number,
            _ => false,
        },
        Value::Fiber => match b {
            Value::Fiber => true,
            _ => false,
        },
        Value::Int(_) | Value::Long(_) => false,
    }
}

#[inline(always)]
pub fn is_none(value: &Value) -> bool
    ensures { result ≡ is_null value.now }
{
    match value {
        Value::Null => true,
        _ => false,
    }
}

#[inline(always)]
fn target_in(targets: &[u32], index: &i64, default: u32) -> u32
    ensures { result ≡ table_target targets.now index.now default }
{
    if *index < 0 {
        return default;
    }
    let index = *index as usize;
    if index < targets.len() {
        targets[index]
    } else {
        default
    }
}

fn match_in(matches: &[(i32, u32)], key: &i32, default: u32) -> u32
    ensures { result ≡ match_target matches.now key.now default }
{
    for entry in matches {
        if entry.0 == *key {
            return entry.1;
        }
    }
    default
}
