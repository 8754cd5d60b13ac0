//! Trees by the words of a case: a word for each object, in preorder.

ghost use Rattle.std.specs.Prelude.{◌≡◌, ◌++◌, ◌∷◌, [], true, reverse, IfSome};
ghost use Rattle.kilim_run_trees.specs.Walk.{value_refs, field_refs, element_refs, refs};
ghost use Rattle.kilim_case_text.specs.run_tables.Chains.{AreBelow, IsOwn};

use crate::Text;
use crate::run_tables::arrived::push_tree;
use crate::run_tables::trees::{node, push_moved, taken};
use kilim_program::{Base, BoxName, ClassId, FieldId, Ty, Value};
use kilim_run_state::{Heap, Object};
use kilim_run_trees::{Tree, put_in};
use kilim_units::Seq;
use std::alloc::Global;

const MESSAGE: Base = Base::Class(ClassId(0));

// A mailbox, a long or an int.
fn plain(part: &str) -> Option<Value>
    ensures { IfSome result (λ v. value_refs v ≡ []) }
{
    if let Some(task) = part.strip_prefix("@") {
        return match task.parse::<u32>() {
            Ok(task) => Some(Value::Box(BoxName { task, number: 0 })),
            Err(_) => None,
        };
    }
    if let Some(long) = part.strip_suffix("L") {
        return match long.parse::<i64>() {
            Ok(long) => Some(Value::Long(long)),
            Err(_) => None,
        };
    }
    match part.parse::<i32>() {
        Ok(int) => Some(Value::Int(int)),
        Err(_) => None,
    }
}

// A value; `&` stands for the object that was pending last.
fn value(part: &str, pending: &mut Vec<u32>) -> Option<Value>
    ensures { IfSome result (λ v. reverse pending.old.items ≡ value_refs v ++ reverse pending.new.items) }
{
    match part {
        "&" => match pending.pop() {
            Some(at) => Some(Value::Ref(at)),
            None => None,
        },
        "null" => Some(Value::Null),
        _ => plain(part),
    }
}

// The fields of an object, with numbers from 0.
fn fields(alloc: Global, parts: &str, pending: &mut Vec<u32>) -> Option<Seq<(FieldId, Value)>>
    ensures { IfSome result (λ fs. reverse pending.old.items ≡ field_refs fs ++ reverse pending.new.items) }
{
    let mut out = Seq::new(alloc);
    if parts.is_empty() {
        return Some(out);
    }
    let mut number = 0;
    for part in parts.split(',') {
        let Some(next) = value(part, pending) else {
            return None;
        };
        let Ok(()) = out.push((FieldId(number), next)) else {
            return None;
        };
        number = number.checked_add(1)?;
    }
    Some(out)
}

// The elements of an array.
fn elements(alloc: Global, parts: &str, pending: &mut Vec<u32>) -> Option<Seq<Value>>
    ensures { IfSome result (λ vs. reverse pending.old.items ≡ element_refs vs ++ reverse pending.new.items) }
{
    let mut out = Seq::new(alloc);
    if parts.is_empty() {
        return Some(out);
    }
    for part in parts.split(',') {
        let Some(next) = value(part, pending) else {
            return None;
        };
        let Ok(()) = out.push(next) else {
            return None;
        };
    }
    Some(out)
}

// An object of these fields.
fn message(alloc: Global, parts: &str, pending: &mut Vec<u32>) -> Option<Object>
    ensures { IfSome result (λ o. reverse pending.old.items ≡ refs o ++ reverse pending.new.items) }
{
    match fields(alloc, parts, pending) {
        Some(found) => Some(Object {
            class: Ty {
                dims: 0,
                base: MESSAGE,
            },
            fields: found,
            elements: Seq::new(alloc),
        }),
        None => None,
    }
}

// An array of these elements.
fn array(alloc: Global, base: Base, parts: &str, pending: &mut Vec<u32>) -> Option<Object>
    ensures { IfSome result (λ o. reverse pending.old.items ≡ refs o ++ reverse pending.new.items) }
{
    match elements(alloc, parts, pending) {
        Some(found) => Some(Object {
            class: Ty { dims: 1, base },
            fields: Seq::new(alloc),
            elements: found,
        }),
        None => None,
    }
}

// What stands between two marks.
fn between<'a>(word: &'a str, first: &str, last: &str) -> Option<&'a str> {
    word.strip_prefix(first)?.strip_suffix(last)
}

// The object of a word. Its objects are those that were pending last.
fn object(alloc: Global, word: &str, pending: &mut Vec<u32>) -> Option<Object>
    ensures { IfSome result (λ o. reverse pending.old.items ≡ refs o ++ reverse pending.new.items) }
{
    if let Some(parts) = between(word, "(", ")") {
        return message(alloc, parts, pending);
    }
    if let Some(parts) = between(word, "[", "]") {
        return array(alloc, Base::Int, parts, pending);
    }
    match between(word, "{", "}") {
        Some(parts) => array(alloc, MESSAGE, parts, pending),
        None => None,
    }
}

// Puts the object of a word into a heap, in front of those that are pending; whether that was possible.
#[tactic(auto, using(crate::proofs::run_tables::Below::one_more_below))]
fn draw(alloc: Global, heap: &mut Heap, word: &str, pending: &mut Vec<u32>) -> bool
    requires { AreBelow heap.old (reverse pending.old.items) }
    ensures { result ≡ true → AreBelow heap.new (reverse pending.new.items) }
{
    let Some(made) = object(alloc, word, pending) else {
        return false;
    };
    match heap.add(made) {
        Ok(at) => match pending.push(at) {
            Ok(()) => true,
            Err(_) => false,
        },
        Err(_) => false,
    }
}

// The objects of words in preorder, from the last to the first.
fn draw_words(alloc: Global, heap: &mut Heap, words: &[String], pending: &mut Vec<u32>) -> bool
    requires { AreBelow heap.old (reverse pending.old.items) }
    ensures { result ≡ true → AreBelow heap.new (reverse pending.new.items) }
{
    for word in words.iter().rev() {
        if !draw(alloc, heap, word.as_str(), pending) {
            return false;
        }
    }
    true
}

// The root, where one object is pending.
#[tactic(auto, using(crate::proofs::run_tables::Below::last_is_own))]
fn root_of(heap: &Heap, pending: &mut Vec<u32>) -> Option<u32>
    requires { AreBelow heap.now (reverse pending.old.items) }
    ensures { IfSome result (λ root. IsOwn heap.now root) }
{
    let root = pending.pop()?;
    if pending.is_empty() { Some(root) } else { None }
}

// Puts a tree into another heap.
fn push_other(text: &mut Text, alloc: Global, tree: Tree) {
    let mut other = Heap::new(alloc);
    if let Some(first) = node(alloc, Value::Null) {
        let _ = other.add(first);
    }
    match put_in(&mut other, tree) {
        Ok(at) => push_tree(text, alloc, &other, at),
        Err(_) => text.lacks(),
    }
}

// Takes the tree of words out of its heap and puts it into another one.
fn push_drawn(
    text: &mut Text,
    alloc: Global,
    heap: &mut Heap,
    words: &[String],
    pending: &mut Vec<u32>,
)
    requires { AreBelow heap.old (reverse pending.old.items) }
{
    if !draw_words(alloc, heap, words, pending) {
        text.lacks();
        return;
    }
    let Some(root) = root_of(heap, pending) else {
        text.lacks();
        return;
    };
    if let Some(tree) = taken(text, alloc, heap, root) {
        push_other(text, alloc, tree);
    }
}

/// `tree WORD..`: the objects of a tree, which went into another heap, as they stand there: in preorder, a word each.
pub fn tree_case(text: &mut Text, alloc: Global, words: &[String]) {
    let mut heap = Heap::new(alloc);
    let mut pending = Vec::new(alloc);
    push_drawn(text, alloc, &mut heap, words, &mut pending);
}

// The array of a word leaves its heap and comes back.
fn push_array(text: &mut Text, alloc: Global, heap: &mut Heap, row: &[u8], pending: &mut Vec<u32>)
    requires { AreBelow heap.old (reverse pending.old.items) }
{
    let Ok(word) = str::from_utf8(row) else {
        text.lacks();
        return;
    };
    if !draw(alloc, heap, word, pending) {
        text.lacks();
        return;
    }
    match root_of(heap, pending) {
        Some(root) => push_moved(text, alloc, heap, root),
        None => text.lacks(),
    }
}

// So many objects without fields.
fn draw_empty(alloc: Global, heap: &mut Heap, count: u32, pending: &mut Vec<u32>) -> bool
    requires { AreBelow heap.old (reverse pending.old.items) }
    ensures { result ≡ true → AreBelow heap.new (reverse pending.new.items) }
{
    for k in 0..count {
        let _ = k;
        if !draw(alloc, heap, "()", pending) {
            return false;
        }
    }
    true
}

// The array of a word, which refers to so many objects.
fn push_referring(text: &mut Text, alloc: Global, row: &[u8], objects: u32) {
    let mut heap = Heap::new(alloc);
    let mut pending = Vec::new(alloc);
    if draw_empty(alloc, &mut heap, objects, &mut pending) {
        push_array(text, alloc, &mut heap, row, &mut pending);
    } else {
        text.lacks();
    }
}

/// An array of so many equal elements, which refer to so many objects, leaves its heap and comes back: `array COUNT` has references between
/// the marks `{` and `}`, `numbers COUNT` has numbers between `[` and `]`.
pub fn row_case(
    text: &mut Text,
    alloc: Global,
    marks: (&str, &str),
    part: &str,
    count: u32,
    objects: u32,
) {
    let mut row = Text::new(alloc);
    row.word(marks.0);
    for k in 0..count {
        if k > 0 {
            row.word(",");
        }
        row.word(part);
    }
    row.word(marks.1);
    match row.whole() {
        Some(row) => push_referring(text, alloc, row.as_slice(), objects),
        None => text.lacks(),
    }
}
