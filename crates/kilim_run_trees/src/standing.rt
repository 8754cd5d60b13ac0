//! The shape of a tree that stays in its heap, where its objects may be reached from elsewhere too, or more than once.

ghost use Rattle.std.specs.Prelude.{◌≡◌, ◌<◌, ◌≤◌, ◌++◌, ◌∷◌, [], Some, length, IfOk, OnOk, MatchOption, slice_index_or};
ghost use Rattle.kilim_run_state.specs.declared.value.Token.TheVariants as token;
ghost use Rattle.kilim_run_state.specs.Shapes.{shape_of};
ghost use Rattle.kilim_run_state.specs.Words.{IsThere};
ghost use Rattle.kilim_run_trees.specs.Walk.{AllThere};
ghost use Rattle.kilim_run_trees.specs.Shaping.{AllSuit, held};
ghost use Rattle.kilim_run_trees.specs.Standing.{AreTokensAt, EmitsAt, HasShapeAt, RefThere, opening_at};

use crate::fault::MoveFault;
use crate::reserve::tree_size;
use crate::shapes::{push_frame, push_plain, shown};
use kilim_program::{Program, Value};
use kilim_run_state::{Heap, Object, Shape, Token};
use kilim_units::{NoMemory, Seq, no_room};
use std::alloc::Global;

// The value of an object at a place among its fields and elements.
fn value_in(object: &Object, next: usize) -> Option<&Value>
    ensures { MatchOption result (length (held object.now) ≤ next) (λ v. (next < length (held object.now)) × (v.now ≡ slice_index_or (held object.now) next v.now)) }
{
    let fields = object.fields.as_slice();
    if next < fields.len() {
        return Some(&fields[next].1);
    }
    let rest = next - fields.len();
    let elements = object.elements.as_slice();
    if rest < elements.len() {
        Some(&elements[rest])
    } else {
        None
    }
}

// An object begins.
fn begin_at(
    alloc: Global,
    program: &Program,
    heap: &Heap,
    at: u32,
    tokens: &mut Shape,
    frames: &mut Vec<(u32, usize)>,
) -> Result<(), NoMemory>
    requires { IsThere heap.now at }
    ensures tokens { OnOk result (tokens.new ≡ tokens.old ++ opening_at program.now heap.now at) }
    ensures frames { OnOk result (frames.new.items ≡ frames.old.items ++ (at, 0) ∷ []) }
{
    let object = heap.object(at);
    let Ok(name) = shown(alloc, program, object.class) else {
        return Err(NoMemory);
    };
    let Ok(()) = tokens.push(Token::Open(name)) else {
        return Err(NoMemory);
    };
    push_frame(frames, at, 0)
}

// One token, or the beginning of an object.
fn emit_at(
    alloc: Global,
    program: &Program,
    heap: &Heap,
    value: &Value,
    tokens: &mut Shape,
    frames: &mut Vec<(u32, usize)>,
) -> Result<(), NoMemory>
    requires { RefThere heap.now value.now }
    ensures { OnOk result (EmitsAt program.now heap.now value.now tokens.old tokens.new frames.old.items frames.new.items) }
{
    match value {
        Value::Ref(at) => begin_at(alloc, program, heap, *at, tokens, frames),
        _ => match push_plain(tokens, value) {
            Ok(()) => Ok(()),
            Err(_) => Err(NoMemory),
        },
    }
}

// Adds the tokens of the object at a place.
fn emit_from(
    alloc: Global,
    program: &Program,
    heap: &Heap,
    root: u32,
    tokens: &mut Shape,
    frames: &mut Vec<(u32, usize)>,
) -> Result<(), NoMemory>
    requires shape { HasShapeAt program.now heap.now root }
    requires no_tokens { tokens.old ≡ [] }
    requires no_frames { frames.old.items ≡ [] }
    ensures { OnOk result (AreTokensAt program.now heap.now root tokens.new) }
{
    let Ok(()) = begin_at(alloc, program, heap, root, tokens, frames) else {
        return Err(NoMemory);
    };
    while let Some((at, next)) = frames.pop() {
        let object = heap.object(at);
        match value_in(object, next) {
            None => {
                let Ok(()) = tokens.push(Token::Close) else {
                    return Err(NoMemory);
                };
            }
            Some(value) => {
                let Some(after) = next.checked_add(1) else {
                    // room: 2^64 values of an object in memory
                    return Err(no_room());
                };
                let Ok(()) = push_frame(frames, at, after) else {
                    return Err(NoMemory);
                };
                let Ok(()) = emit_at(alloc, program, heap, value, tokens, frames) else {
                    return Err(NoMemory);
                };
            }
        }
    }
    Ok(())
}

// The tokens of the object at a place.
fn tokens_at(alloc: Global, program: &Program, heap: &Heap, root: u32) -> Result<Shape, NoMemory>
    requires { HasShapeAt program.now heap.now root }
    ensures { IfOk result (λ tokens. AreTokensAt program.now heap.now root tokens) }
{
    let mut tokens = Seq::new(alloc);
    let mut frames = Vec::new(alloc);
    match emit_from(alloc, program, heap, root, &mut tokens, &mut frames) {
        Ok(()) => Ok(tokens),
        Err(fault) => {
            drop(tokens);
            Err(fault)
        }
    }
}

/// The shape of the tree at a place, which stays there; none where it has more than 65,536 objects, each counted as often as it is met.
pub fn shape_at(
    alloc: Global,
    program: &Program,
    heap: &Heap,
    root: u32,
) -> Result<Option<Shape>, NoMemory>
    requires there { AllThere heap.now root }
    requires suits { AllSuit program.now heap.now }
    ensures { IfOk result (λ shape. shape ≡ shape_of program.now heap.now root) }
{
    match tree_size(alloc, heap, root) {
        Ok(_) => match tokens_at(alloc, program, heap, root) {
            Ok(shape) => Ok(Some(shape)),
            Err(fault) => Err(fault),
        },
        Err(MoveFault::TooLarge) => Ok(None),
        Err(MoveFault::Memory) => Err(NoMemory),
    }
}
