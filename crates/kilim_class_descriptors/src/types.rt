//! What descriptors say.

use kilim_units::{Seq, Units};

/// The base of a type in a descriptor (JVMS 4.3.2).
#[derive(Clone, Drop)]
pub enum BaseText {
    Bool,
    Byte,
    Char,
    Short,
    Int,
    Long,
    Float,
    Double,
    /// A class, by the text between `L` and `;`: any units but `;`, at least one.
    Class(Units),
}

/// A type in a descriptor: a base, or an array of it.
#[derive(Clone, Drop)]
pub struct FieldText {
    /// The number of array dimensions, 0 for no array.
    pub dims: u8,
    pub base: BaseText,
}

/// The types of a method's parameters and of its result, none for void (JVMS 4.3.3).
#[derive(Drop)]
pub struct MethodText {
    pub params: Seq<FieldText>,
    pub result: Option<FieldText>,
}
