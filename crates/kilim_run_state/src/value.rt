//! Objects, and the shapes of trees.

use kilim_program::{BoxName, FieldId, Ty, Value};
use kilim_units::{Seq, Units};

/// One token of a shape: a tree is its tokens in preorder, without the names of objects.
#[derive(Clone, Drop)]
pub enum Token {
    /// An object begins: its class name, or for an array its descriptor.
    Open(Units),
    /// The object that began last ends.
    Close,
    Int(i32),
    Long(i64),
    Null,
    Text(Units),
    Box(BoxName),
}

/// A value without the names of its objects: its tokens in preorder. The fields of superclasses come
/// first, each class in declared order.
pub type Shape = Seq<Token>;

/// An object or an array: its class or array type, the fields with their values, the elements.
#[derive(Drop)]
pub struct Object {
    /// The class of the object, or the type of the array.
    pub class: Ty,
    /// The fields of its class and superclasses; none for an array.
    pub fields: Seq<(FieldId, Value)>,
    /// The elements of an array; none for another object.
    pub elements: Seq<Value>,
}
