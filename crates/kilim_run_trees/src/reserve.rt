//! The size of a tree, and room for it.

ghost use Rattle.std.specs.Prelude.{◌≡◌, ◌+◌, ◌≤◌, ◌++◌, true, IfOk, IfErr, length, reverse, vec_len, vec_capacity};
ghost use Rattle.kilim_run_trees.specs.Walk.{AllThere, value_refs, element_refs, field_refs, refs};
ghost use Rattle.kilim_run_trees.specs.Moved.{Fits, IsFault};
ghost use Rattle.kilim_run_trees.specs.Steps.{IsSize};

use crate::fault::MoveFault;
use crate::room::Room;
use kilim_program::{FieldId, Value};
use kilim_run_state::{Heap, Object};
use std::alloc::Global;

/// The most objects of a tree that is moved.
const LIMIT: usize = 65_536;

// The reference of a value, if it is one.
fn push_ref(stack: &mut Vec<u32>, value: &Value)
    requires { vec_len stack.old + length (value_refs value.now) ≤ vec_capacity stack.old }
    ensures items { stack.new.items ≡ stack.old.items ++ value_refs value.now }
    ensures capacity { vec_capacity stack.new ≡ vec_capacity stack.old }
{
    if let Value::Ref(at) = value {
        stack.push_reserved(*at);
    }
}

// The references of elements, the first on top.
fn push_elements(stack: &mut Vec<u32>, values: &[Value])
    requires { vec_len stack.old + length (element_refs values.now) ≤ vec_capacity stack.old }
    ensures items { stack.new.items ≡ stack.old.items ++ reverse (element_refs values.now) }
    ensures capacity { vec_capacity stack.new ≡ vec_capacity stack.old }
{
    let mut k = values.len();
    while k > 0 {
        let at = k - 1;
        push_ref(stack, &values[at]);
        k = at;
    }
}

// The references of fields, the first on top.
fn push_fields(stack: &mut Vec<u32>, fields: &[(FieldId, Value)])
    requires { vec_len stack.old + length (field_refs fields.now) ≤ vec_capacity stack.old }
    ensures items { stack.new.items ≡ stack.old.items ++ reverse (field_refs fields.now) }
    ensures capacity { vec_capacity stack.new ≡ vec_capacity stack.old }
{
    let mut k = fields.len();
    while k > 0 {
        let at = k - 1;
        push_ref(stack, &fields[at].1);
        k = at;
    }
}

// The references of an object, the first on top.
pub(crate) fn push_refs(stack: &mut Vec<u32>, object: &Object)
    requires { vec_len stack.old + length (refs object.now) ≤ vec_capacity stack.old }
    ensures items { stack.new.items ≡ stack.old.items ++ reverse (refs object.now) }
    ensures capacity { vec_capacity stack.new ≡ vec_capacity stack.old }
{
    push_elements(stack, object.elements.as_slice());
    push_fields(stack, object.fields.as_slice());
}

// Whether there is room for the references of an object now.
fn reserve_refs(stack: &mut Vec<u32>, object: &Object) -> bool
    ensures items { stack.new.items ≡ stack.old.items }
    ensures room { result ≡ true → vec_len stack.new + length (refs object.now) ≤ vec_capacity stack.new }
{
    match object.fields.len().checked_add(object.elements.len()) {
        Some(n) => stack.reserve(n).is_ok(),
        None => false,
    }
}

// How many objects are below a place.
pub(crate) fn tree_size(alloc: Global, heap: &Heap, root: u32) -> Result<usize, MoveFault>
    requires { AllThere heap.now root }
    ensures ok { IfOk result (λ n. IsSize heap.now root n) }
    ensures err { IfErr result (λ fault. IsFault heap.now root fault) }
{
    let mut pending: Vec<u32> = Vec::new(alloc);
    if pending.push(root).is_err() {
        return Err(MoveFault::Memory);
    }
    let mut count: usize = 0;
    while let Some(at) = pending.pop() {
        // each place that is pending is met, and may be met again
        if pending.len() >= LIMIT - count {
            return Err(MoveFault::TooLarge);
        }
        count += 1;
        let object = heap.object(at);
        if !reserve_refs(&mut pending, object) {
            return Err(MoveFault::Memory);
        }
        push_refs(&mut pending, object);
    }
    Ok(count)
}

/// Room for the tree at a place.
pub fn reserve_tree(alloc: Global, heap: &Heap, root: u32) -> Result<Room, MoveFault>
    requires { AllThere heap.now root }
    ensures ok { IfOk result (λ room. Fits heap.now root room) }
    ensures err { IfErr result (λ fault. IsFault heap.now root fault) }
{
    let count = match tree_size(alloc, heap, root) {
        Ok(count) => count,
        Err(fault) => return Err(fault),
    };
    let Ok(objects) = Vec::with_capacity(alloc, count) else {
        return Err(MoveFault::Memory);
    };
    let Ok(stack) = Vec::with_capacity(alloc, count) else {
        return Err(MoveFault::Memory);
    };
    Ok(Room {
        root,
        count,
        objects,
        stack,
    })
}
