//! A tree leaves a heap.

ghost use Rattle.std.specs.Prelude.{◌≡◌, ◌+◌, ◌<◌, ◌≤◌, ◌^◌, ◌++◌, [], length, reverse, vec_len, vec_capacity};
ghost use Rattle.std.specs.List.{flat_map};
ghost use Rattle.kilim_run_trees.specs.Walk.{value_refs, element_refs, field_refs, refs, IsPreorder};
ghost use Rattle.kilim_run_trees.specs.Moved.{CanLeave, TakenOut};
ghost use Rattle.kilim_run_trees.specs.Steps.{CanCollect, Collected, CanNumber, Numbered, Alike, AlikeField, AlikeObject, EachPair};

use crate::reserve::push_refs;
use crate::room::Room;
use crate::tree::Tree;
use kilim_program::{FieldId, Value};
use kilim_run_state::{Heap, Object};
use kilim_units::Seq;

// The objects of a tree, in preorder, leave the heap.
fn collect(heap: &mut Heap, root: u32, objects: &mut Vec<Object>, stack: &mut Vec<u32>)
    requires tree { CanCollect heap.old root (vec_capacity objects.old) (vec_capacity stack.old) }
    requires no_objects { objects.old.items ≡ [] }
    requires no_stack { stack.old.items ≡ [] }
    ensures collected { Collected heap.old root heap.new objects.new.items }
    ensures capacity { vec_capacity stack.new ≡ vec_capacity stack.old }
    ensures stack { stack.new.items ≡ [] }
{
    stack.push_reserved(root);
    while let Some(at) = stack.pop() {
        let object = heap.remove(at);
        push_refs(stack, &object);
        objects.push_reserved(object);
    }
}

// A reference becomes the number on top of the stack.
fn number_value(value: &mut Value, stack: &mut Vec<u32>)
    requires { length (value_refs value.old) ≤ length stack.old.items }
    ensures alike { Alike value.old value.new }
    ensures refs { value_refs value.new ++ reverse stack.new.items ≡ reverse stack.old.items }
    ensures capacity { vec_capacity stack.new ≡ vec_capacity stack.old }
{
    if let Value::Ref(_) = value {
        match stack.pop() {
            Some(at) => *value = Value::Ref(at),
            None => unreachable!(),
        }
    }
}

fn number_elements(values: &mut Vec<Value>, stack: &mut Vec<u32>)
    requires { length (element_refs values.old.items) ≤ length stack.old.items }
    ensures alike { EachPair Alike values.old.items values.new.items }
    ensures refs { element_refs values.new.items ++ reverse stack.new.items ≡ reverse stack.old.items }
    ensures capacity { vec_capacity stack.new ≡ vec_capacity stack.old }
{
    for k in 0..values.len() {
        let value = &mut values[k];
        number_value(value, stack);
    }
}

fn number_fields(fields: &mut Vec<(FieldId, Value)>, stack: &mut Vec<u32>)
    requires { length (field_refs fields.old.items) ≤ length stack.old.items }
    ensures alike { EachPair AlikeField fields.old.items fields.new.items }
    ensures refs { field_refs fields.new.items ++ reverse stack.new.items ≡ reverse stack.old.items }
    ensures capacity { vec_capacity stack.new ≡ vec_capacity stack.old }
{
    for k in 0..fields.len() {
        let field = &mut fields[k];
        number_value(&mut field.1, stack);
    }
}

fn number_in_elements(values: &mut Seq<Value>, stack: &mut Vec<u32>)
    requires { length (element_refs values.old) ≤ length stack.old.items }
    ensures alike { EachPair Alike values.old values.new }
    ensures refs { element_refs values.new ++ reverse stack.new.items ≡ reverse stack.old.items }
    ensures capacity { vec_capacity stack.new ≡ vec_capacity stack.old }
{
    number_elements(&mut values.items, stack);
}

fn number_in_fields(fields: &mut Seq<(FieldId, Value)>, stack: &mut Vec<u32>)
    requires { length (field_refs fields.old) ≤ length stack.old.items }
    ensures alike { EachPair AlikeField fields.old fields.new }
    ensures refs { field_refs fields.new ++ reverse stack.new.items ≡ reverse stack.old.items }
    ensures capacity { vec_capacity stack.new ≡ vec_capacity stack.old }
{
    number_fields(&mut fields.items, stack);
}

// The references of an object become the numbers from the top of the stack on.
fn number_object(object: &mut Object, stack: &mut Vec<u32>)
    requires { length (refs object.old) ≤ length stack.old.items }
    ensures alike { AlikeObject object.old object.new }
    ensures refs { refs object.new ++ reverse stack.new.items ≡ reverse stack.old.items }
    ensures capacity { vec_capacity stack.new ≡ vec_capacity stack.old }
{
    number_in_fields(&mut object.fields, stack);
    number_in_elements(&mut object.elements, stack);
}

// References become places in the list. The last object comes first, so that what an object refers to has its number
// before it.
fn number(objects: &mut Vec<Object>, stack: &mut Vec<u32>)
    requires walked { CanNumber objects.old.items }
    requires no_stack { stack.old.items ≡ [] }
    requires fits { length objects.old.items ≤ vec_capacity stack.old }
    requires small { length objects.old.items < 2 ^ 32 }
    ensures { Numbered objects.old.items objects.new.items }
{
    let mut k = objects.len();
    while k > 0 {
        let at = k - 1;
        let object = &mut objects[at];
        number_object(object, stack);
        stack.push_reserved(at as u32);
        k = at;
    }
}

/// Takes the tree at a place out of a heap. Takes no memory.
pub fn take_out(heap: &mut Heap, root: u32, room: Room) -> Tree
    requires { CanLeave heap.old root room }
    ensures { TakenOut heap.old root heap.new result }
{
    let Room {
        root: _,
        count: _,
        mut objects,
        mut stack,
    } = room;
    collect(heap, root, &mut objects, &mut stack);
    number(&mut objects, &mut stack);
    Tree { objects }
}
