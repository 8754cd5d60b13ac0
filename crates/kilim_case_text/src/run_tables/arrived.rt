//! A tree as it stands in a heap: a word for each object, in preorder.

ghost use Rattle.std.specs.Prelude.{◌≡◌, ◌++◌, [], reverse, IfSome};
ghost use Rattle.kilim_run_trees.specs.Walk.{value_refs, field_refs, element_refs, refs, AllThere};

use crate::Text;
use kilim_program::{Base, FieldId, Value};
use kilim_run_state::{Heap, Object};
use std::alloc::Global;

/// No tree that came in has more objects.
const LIMIT: usize = 65_536;

// A value in a word. Texts and the fiber have none.
fn push_part(text: &mut Text, value: &Value) {
    match value {
        Value::Int(n) => text.signed(i64::from(*n)),
        Value::Long(n) => {
            text.signed(*n);
            text.word("L");
        }
        Value::Null => text.word("null"),
        Value::Ref(_) => text.word("&"),
        Value::Box(name) => {
            text.word("@");
            text.number(name.task as usize);
        }
        Value::Text(_) | Value::Fiber => text.lacks(),
    }
}

// The values of an object with commas between them.
fn push_parts(text: &mut Text, object: &Object) {
    for (k, field) in object.fields.as_slice().iter().enumerate() {
        if k > 0 {
            text.word(",");
        }
        push_part(text, &field.1);
    }
    for (k, element) in object.elements.as_slice().iter().enumerate() {
        if k > 0 {
            text.word(",");
        }
        push_part(text, element);
    }
}

// An object with the marks around its values, or around those of an array.
fn push_object(text: &mut Text, object: &Object) {
    let (first, last) = match (object.class.dims, object.class.base) {
        (0, _) => ("(", ")"),
        (_, Base::Int) => ("[", "]"),
        _ => ("{", "}"),
    };
    text.word(first);
    push_parts(text, object);
    text.word(last);
}

fn push_ref(pending: &mut Vec<u32>, value: &Value) -> Option<()>
    ensures { IfSome result (λ done. pending.new.items ≡ pending.old.items ++ value_refs value.now) }
{
    if let Value::Ref(at) = value {
        pending.push(*at).ok()?;
    }
    Some(())
}

fn push_elements(pending: &mut Vec<u32>, values: &[Value]) -> Option<()>
    ensures { IfSome result (λ done. pending.new.items ≡ pending.old.items ++ reverse (element_refs values.now)) }
{
    let mut k = values.len();
    while k > 0 {
        let at = k - 1;
        push_ref(pending, &values[at])?;
        k = at;
    }
    Some(())
}

fn push_fields(pending: &mut Vec<u32>, fields: &[(FieldId, Value)]) -> Option<()>
    ensures { IfSome result (λ done. pending.new.items ≡ pending.old.items ++ reverse (field_refs fields.now)) }
{
    let mut k = fields.len();
    while k > 0 {
        let at = k - 1;
        push_ref(pending, &fields[at].1)?;
        k = at;
    }
    Some(())
}

// The references of an object, the first on top.
fn push_refs(pending: &mut Vec<u32>, object: &Object) -> Option<()>
    ensures { IfSome result (λ done. pending.new.items ≡ pending.old.items ++ reverse (refs object.now)) }
{
    push_elements(pending, object.elements.as_slice())?;
    push_fields(pending, object.fields.as_slice())?;
    Some(())
}

// The objects below a place; nothing for want of memory, or where there are too many.
fn push_below(text: &mut Text, heap: &Heap, root: u32, pending: &mut Vec<u32>) -> Option<()>
    requires there { AllThere heap.now root }
    requires none { pending.old.items ≡ [] }
{
    pending.push(root).ok()?;
    let mut count: usize = 0;
    while let Some(at) = pending.pop() {
        if count == LIMIT {
            return None;
        }
        if count > 0 {
            text.word(" ");
        }
        count += 1;
        let object = heap.object(at);
        push_object(text, object);
        push_refs(pending, object)?;
    }
    Some(())
}

/// The objects below a place.
pub fn push_tree(text: &mut Text, alloc: Global, heap: &Heap, root: u32)
    requires { AllThere heap.now root }
{
    let mut pending = Vec::new(alloc);
    if push_below(text, heap, root, &mut pending).is_none() {
        text.lacks();
    }
}
