//! Types of fields, parameters and results.

use crate::names::ClassId;

/// The base of a type: a primitive type of this profile, or a class (JVMS 4.3.2).
#[derive(Clone, Copy, PartialEq, Eq)]
pub enum Base {
    Bool,
    Byte,
    Char,
    Short,
    Int,
    Long,
    Class(ClassId),
}

/// A type: a base, or an array of it.
#[derive(Clone, Copy, PartialEq, Eq)]
pub struct Ty {
    /// The number of array dimensions, 0 for no array.
    pub dims: u8,
    /// What the type, or the innermost element of the array, is.
    pub base: Base,
}

/// The kind of a type: what may refer to what, and what a message may carry.
#[derive(Clone, Copy)]
pub enum Kind {
    /// int-like types, long, strings and mailboxes.
    Value,
    /// Tasks, messages, arrays of values, and arrays of trees other than tasks.
    Tree,
    /// Every other class, and arrays of private types.
    Private,
}

/// What a method may do with a tree that it is handed.
#[derive(Clone, Copy)]
pub enum Qualifier {
    /// The root of a whole tree. The callee owns it.
    Free,
    /// It may have a parent in the heap. Subtrees may be cut from it.
    Cuttable,
    /// It may be neither structurally changed nor handed on. Its value fields may be written.
    Safe,
}
