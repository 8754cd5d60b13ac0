//! Trees that are moved.

ghost use Rattle.std.specs.Prelude.{◌≡◌, IfSome};
ghost use Rattle.kilim_run_trees.specs.Walk.{value_refs, refs};
ghost use Rattle.kilim_case_text.specs.run_tables.Chains.{IsBelow, IsOwn};

use crate::Text;
use kilim_program::{Base, ClassId, FieldId, Ty, Value};
use kilim_run_state::{Heap, Object};
use kilim_run_trees::{MoveFault, Tree, put_in, reserve_tree, take_out};
use kilim_units::Seq;
use std::alloc::Global;

/// An object with one field.
pub fn node(alloc: Global, next: Value) -> Option<Object>
    ensures { IfSome result (λ o. refs o ≡ value_refs next) }
{
    let mut fields = Seq::new(alloc);
    let Ok(()) = fields.push((FieldId(0), next)) else {
        return None;
    };
    Some(Object {
        class: Ty {
            dims: 0,
            base: Base::Class(ClassId(0)),
        },
        fields,
        elements: Seq::new(alloc),
    })
}

// So many objects, each the only field's value of the one before it; null where there is none.
fn chained(alloc: Global, heap: &mut Heap, count: u32) -> Option<Value>
    ensures { IfSome result (λ head. IsBelow heap.new head) }
{
    let mut head = Value::Null;
    for k in 0..count {
        let _ = k;
        match heap.add(node(alloc, head)?) {
            Ok(at) => head = Value::Ref(at),
            Err(_) => return None,
        }
    }
    Some(head)
}

/// Takes a tree out of its heap, where it isn't too large: else that stands behind the text.
pub fn taken(text: &mut Text, alloc: Global, heap: &mut Heap, root: u32) -> Option<Tree>
    requires { IsOwn heap.old root }
{
    match reserve_tree(alloc, heap, root) {
        Ok(room) => Some(take_out(heap, root, room)),
        Err(MoveFault::TooLarge) => {
            text.word("large");
            None
        }
        Err(MoveFault::Memory) => {
            text.lacks();
            None
        }
    }
}

/// Takes a tree out, and puts it in again.
pub fn push_moved(text: &mut Text, alloc: Global, heap: &mut Heap, root: u32)
    requires { IsOwn heap.old root }
{
    let Some(tree) = taken(text, alloc, heap, root) else {
        return;
    };
    match put_in(heap, tree) {
        Ok(_) => text.word("moved"),
        Err(_) => text.lacks(),
    }
}

/// `list COUNT`: a list of so many objects, each of which refers to the next one, leaves its heap and comes back.
pub fn list_case(text: &mut Text, alloc: Global, count: u32) {
    let mut heap = Heap::new(alloc);
    match chained(alloc, &mut heap, count) {
        Some(Value::Ref(root)) => push_moved(text, alloc, &mut heap, root),
        Some(_) => text.word("null"),
        None => text.lacks(),
    }
}
