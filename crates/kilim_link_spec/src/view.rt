//! The classes that are linked, as they are declared: before names are looked up.

use kilim_program::Qualifier;
use kilim_units::{Seq, Units};

/// What a method may do with what it is handed, as it is known before the kinds of classes are.
#[derive(Drop)]
pub enum Marks {
    /// Of a built-in method the qualifiers themselves: of the receiver and of each parameter.
    Stated(Qualifier, Seq<Qualifier>),
    /// Of a file's method the types of the annotations on it, and for each of its attributes of parameters those on each
    /// parameter (JVMS 4.7.16 to 4.7.19).
    Annotated(Seq<Units>, Seq<Seq<Seq<Units>>>),
}

/// A method as it is declared (JVMS 4.6).
#[derive(Drop)]
pub struct DeclaredMethod {
    pub name: Units,
    pub descriptor: Units,
    pub is_static: bool,
    pub is_private: bool,
    pub is_abstract: bool,
    pub is_final: bool,
    /// Whether its Exceptions attribute lists `kilim/Pausable`.
    pub pausable: bool,
    pub marks: Marks,
}

/// A field as it is declared (JVMS 4.5).
#[derive(Drop)]
pub struct DeclaredField {
    pub name: Units,
    pub descriptor: Units,
}

/// A class as it is declared: a file's, or a built-in one.
#[derive(Drop)]
pub struct ClassView {
    pub name: Units,
    /// None for `java/lang/Object` alone.
    pub superclass: Option<Units>,
    /// Whether it is `kilim/Message`, or lists it as an interface.
    pub is_marked: bool,
    pub is_abstract: bool,
    pub is_final: bool,
    pub is_built_in: bool,
    pub fields: Seq<DeclaredField>,
    pub methods: Seq<DeclaredMethod>,
}
