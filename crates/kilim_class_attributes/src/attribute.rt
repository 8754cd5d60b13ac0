//! Attributes.

use crate::parts::{AnnotationPart, Frame};
use kilim_units::Seq;

/// Where a list of attributes stands.
#[derive(Clone, Copy)]
pub enum Place {
    Class,
    Field,
    Method,
    /// In a Code attribute.
    Code,
}

/// A row of an exception table (JVMS 4.7.3). Places are in bytes of the code.
#[derive(Clone, Copy, PartialEq, Eq)]
pub struct ExceptionHandler {
    pub start_pc: u16,
    pub end_pc: u16,
    pub handler_pc: u16,
    /// The index of a Class, or 0 for every class.
    pub catch_type: u16,
}

/// What an attribute in a Code attribute holds.
#[derive(Drop)]
pub enum CodeInfo {
    /// JVMS 4.7.4.
    StackMapTable(Seq<Frame>),
    /// The bytes of every other attribute.
    Raw(Seq<u8>),
}

/// An attribute in a Code attribute.
#[derive(Drop)]
pub struct CodeAttribute {
    /// The index of the name, a Utf8.
    pub attribute_name_index: u16,
    pub info: CodeInfo,
}

/// A Code attribute (JVMS 4.7.3).
#[derive(Drop)]
pub struct Code {
    pub max_stack: u16,
    pub max_locals: u16,
    /// 1 to 65,535 bytes.
    pub code: Seq<u8>,
    pub exception_table: Seq<ExceptionHandler>,
    pub attributes: Seq<CodeAttribute>,
}

/// What an attribute holds.
#[derive(Drop)]
pub enum Info {
    /// The index of an Integer, a Float, a Long, a Double or a String (JVMS 4.7.2).
    ConstantValue(u16),
    /// JVMS 4.7.3.
    Code(Code),
    /// JVMS 4.7.4.
    StackMapTable(Seq<Frame>),
    /// The indices of classes (JVMS 4.7.5).
    Exceptions(Seq<u16>),
    /// An `Annotations` with all that it asks for (JVMS 4.7.16).
    RuntimeVisibleAnnotations(Seq<AnnotationPart>),
    /// An `Annotations` with all that it asks for (JVMS 4.7.17).
    RuntimeInvisibleAnnotations(Seq<AnnotationPart>),
    /// A `Parameters` with all that it asks for (JVMS 4.7.18).
    RuntimeVisibleParameterAnnotations(Seq<AnnotationPart>),
    /// A `Parameters` with all that it asks for (JVMS 4.7.19).
    RuntimeInvisibleParameterAnnotations(Seq<AnnotationPart>),
    /// The bytes of every other attribute.
    Raw(Seq<u8>),
}

/// An attribute (JVMS 4.7).
#[derive(Drop)]
pub struct Attribute {
    /// The index of the name, a Utf8.
    pub attribute_name_index: u16,
    pub info: Info,
}
