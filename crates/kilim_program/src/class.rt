//! Classes, members and programs.

use crate::instr::Instr;
use crate::names::{ClassId, FieldId, MethodId};
use crate::ty::{Qualifier, Ty};
use crate::value::Value;
use crate::verified::Frame;
use kilim_units::{Seq, Units};
use std::marker::Model;

/// A field (JVMS 4.5).
#[derive(Drop)]
pub struct Field {
    pub name: Units,
    pub ty: Ty,
    /// The class that declares it.
    pub owner: ClassId,
    pub is_static: bool,
    pub is_private: bool,
    /// The value of a static field.
    pub constant: Option<Value>,
}

/// A method (JVMS 4.6), with its code (JVMS 4.7.3) where it has some.
#[derive(Drop)]
pub struct Method {
    pub name: Units,
    /// The class that declares it.
    pub owner: ClassId,
    pub params: Seq<Ty>,
    /// The type of the result, none for void.
    pub result: Option<Ty>,
    pub is_static: bool,
    pub is_private: bool,
    pub is_abstract: bool,
    /// Whether it is a method of a built-in class. It has no code then.
    pub built_in: bool,
    /// Whether its Exceptions attribute lists `kilim/Pausable`.
    pub pausable: bool,
    /// What it may do with its receiver. Safe where it is static; else Cuttable for a constructor, always; else
    /// Safe where its receiver is no tree.
    pub receiver: Qualifier,
    /// What it may do with each parameter.
    pub qualifiers: Seq<Qualifier>,
    /// The most words on the operand stack; a long takes two.
    pub max_stack: u16,
    /// The number of local slots; a long takes two.
    pub max_locals: u16,
    /// The length of the code in bytes, 0 without code.
    pub code_length: u32,
    /// The instructions with their places, in order. A place is a byte offset in the code.
    pub code: Seq<(u32, Instr)>,
    /// The declared frames with their places, in order (JVMS 4.7.4).
    pub frames: Seq<(u32, Frame)>,
    /// The exception table, in order (JVMS 4.7.3). Every program keeps that it is empty: linking refuses such tables.
    pub handlers: Seq<Handler>,
}

/// An entry of an exception table (JVMS 4.7.3).
#[derive(Clone, Copy, PartialEq, Eq)]
pub struct Handler {
    /// The place of the first instruction of its range.
    pub start: u32,
    /// The place behind its range.
    pub end: u32,
    /// The place where it begins.
    pub at: u32,
    /// The class of what it catches; none where it catches everything.
    pub catch: Option<ClassId>,
}

/// A class (JVMS 4.1).
#[derive(Drop)]
pub struct Class {
    pub name: Units,
    /// The direct superclass; none for `java/lang/Object` alone.
    pub superclass: Option<ClassId>,
    pub is_abstract: bool,
    /// Whether it is `kilim/Message`, or implements it, itself or by a superclass.
    pub message: bool,
    /// The fields that it declares, in order.
    pub fields: Seq<FieldId>,
    /// The methods that it declares, in order.
    pub methods: Seq<MethodId>,
}

/// Whether methods are as they were compiled, or woven.
#[derive(Clone, Copy)]
pub enum Form {
    Plain,
    Woven,
}

/// Classes with their members, linked. The built-in classes come last. Its type keeps what a program is: each id
/// in it is a place in its lists, no class is its own ancestor, code is whole, and the rules on kinds and on
/// overriding hold (`specs/Keeps.antt` lists the facts). The fields are public for reading.
#[derive(Drop)]
pub struct Program {
    pub classes: Seq<Class>,
    pub methods: Seq<Method>,
    pub fields: Seq<Field>,
    pub form: Form,
}

impl Model for Program {
    ghost use Rattle.kilim_program.specs.Program as parts;

    ghost Value = { parts.Program };

    ghost use Rattle.kilim_program.specs.Keeps.{Keeps};

    ghost view = { λ p. record { classes = p.classes; methods = p.methods; fields = p.fields; form = p.form } };

    ghost invariant = { λ p. Keeps (record { classes = p.classes; methods = p.methods; fields = p.fields; form = p.form }) };
}
