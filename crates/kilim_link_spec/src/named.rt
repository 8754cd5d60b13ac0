//! What a class file names.

use crate::fault::MemberOf;
use kilim_class_descriptors::FieldText;
use kilim_program::{Frame, Handler, Instr, Qualifier, VType, Value};
use kilim_units::{Seq, Units};

/// What a class entry of a pool names (JVMS 4.4.1).
#[derive(Drop)]
pub enum Named {
    AClass(Units),
    AnArray(FieldText),
    /// It begins as an array's descriptor, and is none.
    Malformed(Units),
}

/// What the index of an instruction names.
#[derive(Drop)]
pub enum Operand {
    AConstant(Value),
    AField(MemberOf),
    AMethod(MemberOf),
    AType(Named),
}

/// A member that code names.
#[derive(Drop)]
pub enum Member {
    Field(MemberOf),
    Method(MemberOf),
}

/// What is named at one place of a class file.
#[derive(Drop)]
pub enum Mention {
    /// A class, or an array by its descriptor.
    OfClass(Named),
    /// An array of such elements.
    OfElement(Named),
    /// The descriptor of a field.
    OfField(Units),
    /// The descriptor of a method, and the slots that its arguments take beside it.
    OfMethod(u8, Units),
    /// A float or double type of a frame.
    OfFloat,
}

/// The qualifiers of a method: of its receiver, and of each parameter.
#[derive(Drop)]
pub struct Qualified {
    pub receiver: Qualifier,
    pub params: Seq<Qualifier>,
}

/// What a frame says, by entries, of which a long is one; none for a type that no program has.
#[derive(Drop)]
pub struct Entries {
    pub locals: Seq<Option<VType>>,
    pub stack: Seq<Option<VType>>,
}

/// What code comes to in a program: without a Code attribute nothing.
#[derive(Drop)]
pub struct Body {
    pub max_stack: u16,
    pub max_locals: u16,
    pub code_length: u32,
    pub code: Seq<(u32, Instr)>,
    pub frames: Seq<(u32, Frame)>,
    pub handlers: Seq<Handler>,
}
