//! Objects that are met more often than once below a place.

ghost use Rattle.std.specs.Prelude.{◌≡◌, [], ◌∷◌, IfSome, IsSome};
ghost use Rattle.std.specs.FinMap.{get};
ghost use Rattle.kilim_run_trees.specs.Walk.{refs, AllThere};
ghost use Rattle.kilim_case_text.specs.run_tables.Chains.{IsFull, IsFullAt};

use crate::Text;
use crate::run_tables::trees::node;
use kilim_program::{Base, ClassId, FieldId, Ty, Value};
use kilim_run_state::{Heap, Object};
use kilim_run_trees::{MoveFault, reserve_tree};
use kilim_units::Seq;
use std::alloc::Global;

// An object that refers to one twice.
fn pair(alloc: Global, at: u32) -> Option<Object>
    ensures { IfSome result (λ o. refs o ≡ at ∷ at ∷ []) }
{
    let mut fields = Seq::new(alloc);
    let Ok(()) = fields.push((FieldId(0), Value::Ref(at))) else {
        return None;
    };
    let Ok(()) = fields.push((FieldId(1), Value::Ref(at))) else {
        return None;
    };
    Some(Object {
        class: Ty {
            dims: 0,
            base: Base::Class(ClassId(0)),
        },
        fields,
        elements: Seq::new(alloc),
    })
}

// So many objects more, each of which refers to the one before it twice.
fn doubled(alloc: Global, heap: &mut Heap, first: u32, count: u32) -> Option<u32>
    requires { IsFullAt heap.old first }
    ensures { IfSome result (λ root. IsFullAt heap.new root) }
{
    let mut last = first;
    for k in 0..count {
        let _ = k;
        match heap.add(pair(alloc, last)?) {
            Ok(at) => last = at,
            Err(_) => return None,
        }
    }
    Some(last)
}

// One object, which refers to none.
fn alone(alloc: Global, heap: &mut Heap) -> Option<u32>
    requires { IsFull heap.old }
    ensures { IfSome result (λ root. IsFullAt heap.new root) }
{
    let Ok(at) = heap.add(node(alloc, Value::Null)?) else {
        return None;
    };
    Some(at)
}

// Whether a tree may be moved.
fn push_size(text: &mut Text, alloc: Global, heap: &Heap, root: u32)
    requires { AllThere heap.now root }
{
    match reserve_tree(alloc, heap, root) {
        Ok(_) => text.word("fits"),
        Err(MoveFault::TooLarge) => text.word("large"),
        Err(MoveFault::Memory) => text.lacks(),
    }
}

fn twice(alloc: Global, heap: &mut Heap, count: u32) -> Option<u32>
    requires { IsFull heap.old }
    ensures { IfSome result (λ root. AllThere heap.new root) }
{
    let first = alone(alloc, heap)?;
    let root = doubled(alloc, heap, first, count)?;
    Some(root)
}

/// `twice COUNT`: an object, and so many more, each of which refers to the one before it twice.
pub fn twice_case(text: &mut Text, alloc: Global, count: u32) {
    let mut heap = Heap::new(alloc);
    match twice(alloc, &mut heap, count) {
        Some(root) => push_size(text, alloc, &heap, root),
        None => text.lacks(),
    }
}

fn circle(alloc: Global, heap: &mut Heap) -> Option<u32>
    requires { IsFull heap.old }
    ensures { IfSome result (λ root. AllThere heap.new root) }
{
    let at = alone(alloc, heap)?;
    let _ = heap.replace(at, node(alloc, Value::Ref(at))?);
    Some(at)
}

/// `circle`: an object that refers to itself.
pub fn circle_case(text: &mut Text, alloc: Global, words: &[String]) {
    if !words.is_empty() {
        text.lacks();
    }
    let mut heap = Heap::new(alloc);
    match circle(alloc, &mut heap) {
        Some(root) => push_size(text, alloc, &heap, root),
        None => text.lacks(),
    }
}
