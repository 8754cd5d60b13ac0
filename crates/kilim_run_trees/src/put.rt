//! A tree comes into a heap.

ghost use Rattle.std.specs.Prelude.{◌≡◌, ◌+◌, ◌<◌, ◌≤◌, ◌++◌, [], length, IfOk, IfErr, IfSome, IfNone, vec_len, vec_capacity};
ghost use Rattle.std.specs.List.{AllByRecursion};
ghost use Rattle.kilim_run_state.specs.Machine.{Objects};
ghost use Rattle.kilim_run_trees.specs.Walk.{value_refs, element_refs, field_refs, refs, renamed_value, renamed_elements, renamed_fields, renamed};
ghost use Rattle.kilim_run_trees.specs.Moved.{PutIn, at_places};
ghost use Rattle.kilim_run_trees.specs.Steps.{Blanked, WasFree, CanFill, Filled};

use crate::tree::Tree;
use kilim_program::{Base, FieldId, Ty, Value};
use kilim_run_state::{Heap, Object};
use kilim_units::Seq;
use std::alloc::Global;

fn blank(alloc: Global) -> Object {
    Object {
        class: Ty {
            dims: 0,
            base: Base::Int,
        },
        fields: Seq::new(alloc),
        elements: Seq::new(alloc),
    }
}

// The places are free again.
fn free_all(heap: &mut Heap, places: &mut Vec<u32>)
    requires { WasFree heap.old places.old.items }
    ensures { (base : Objects) → Blanked base heap.old places.old.items → heap.new ≡ base }
{
    while let Some(at) = places.pop() {
        let _ = heap.remove(at);
    }
}

// So many places.
fn new_places(alloc: Global, heap: &mut Heap, n: usize) -> Option<Vec<u32>>
    ensures some { IfSome result (λ places. Blanked heap.old heap.new places.items × (length places.items ≡ n)) }
    ensures none { IfNone result (heap.new ≡ heap.old) }
{
    let Ok(mut places) = Vec::with_capacity(alloc, n) else {
        return None;
    };
    for k in 0..n {
        let _ = k;
        match heap.add(blank(alloc)) {
            Ok(at) => places.push_reserved(at),
            Err(_) => {
                free_all(heap, &mut places);
                return None;
            }
        }
    }
    Some(places)
}

fn rename_value(value: &mut Value, places: &[u32])
    requires { AllByRecursion (λ n. n < length places.now) (value_refs value.old) }
    ensures { renamed_value (at_places places.now) value.old ≡ value.new }
{
    if let Value::Ref(at) = value {
        *at = places[*at as usize];
    }
}

fn rename_elements(values: &mut Vec<Value>, places: &[u32])
    requires { AllByRecursion (λ n. n < length places.now) (element_refs values.old.items) }
    ensures { renamed_elements (at_places places.now) values.old.items ≡ values.new.items }
{
    for k in 0..values.len() {
        let value = &mut values[k];
        rename_value(value, places);
    }
}

fn rename_fields(fields: &mut Vec<(FieldId, Value)>, places: &[u32])
    requires { AllByRecursion (λ n. n < length places.now) (field_refs fields.old.items) }
    ensures { renamed_fields (at_places places.now) fields.old.items ≡ fields.new.items }
{
    for k in 0..fields.len() {
        let field = &mut fields[k];
        rename_value(&mut field.1, places);
    }
}

fn rename_in_elements(values: &mut Seq<Value>, places: &[u32])
    requires { AllByRecursion (λ n. n < length places.now) (element_refs values.old) }
    ensures { renamed_elements (at_places places.now) values.old ≡ values.new }
{
    rename_elements(&mut values.items, places);
}

fn rename_in_fields(fields: &mut Seq<(FieldId, Value)>, places: &[u32])
    requires { AllByRecursion (λ n. n < length places.now) (field_refs fields.old) }
    ensures { renamed_fields (at_places places.now) fields.old ≡ fields.new }
{
    rename_fields(&mut fields.items, places);
}

fn rename_object(object: &mut Object, places: &[u32])
    requires fields { AllByRecursion (λ n. n < length places.now) (field_refs object.old.fields) }
    requires elements { AllByRecursion (λ n. n < length places.now) (element_refs object.old.elements) }
    ensures { renamed (at_places places.now) object.old ≡ object.new }
{
    rename_in_fields(&mut object.fields, places);
    rename_in_elements(&mut object.elements, places);
}

// The objects stand at the places.
fn fill(heap: &mut Heap, mut objects: Vec<Object>, places: &Vec<u32>)
    requires { CanFill heap.old places.now.items objects.items }
    ensures { Filled heap.old places.now.items objects.items heap.new }
{
    while let Some(mut object) = objects.pop() {
        rename_object(&mut object, places.as_slice());
        let _ = heap.replace(places[objects.len()], object);
    }
}

/// Puts a tree into a heap, at free places. For want of memory the tree comes back.
pub fn put_in(heap: &mut Heap, tree: Tree) -> Result<u32, Tree>
    ensures ok { IfOk result (λ root. PutIn heap.old tree heap.new root) }
    ensures err { IfErr result (λ back. (back ≡ tree) × (heap.new ≡ heap.old)) }
{
    let alloc = *tree.objects.allocator();
    let Some(places) = new_places(alloc, heap, tree.objects.len()) else {
        return Err(tree);
    };
    let Tree { objects } = tree;
    fill(heap, objects, &places);
    Ok(places[0])
}
