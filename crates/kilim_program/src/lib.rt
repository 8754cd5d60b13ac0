//! What a program is: classes, methods, fields, types and instructions, linked.
//!
//! The types follow the Java Virtual Machine Specification, Java SE 8 (JVMS), as far as this
//! project's profile goes. They are plain data with public fields. `specs/` says what each program keeps, which kind a
//! type is of, and which classes are built in. What an instruction does stands in `kilim_run_machine`.
#![tactic(auto)]

mod class;
mod fits;
mod instr;
mod kinds;
mod laws;
pub mod lookups;
pub mod main_class;
mod names;
mod ty;
mod value;
mod verified;

pub use class::{Class, Field, Form, Handler, Method, Program};
pub use instr::Instr;
pub use laws::{built_in_keeps, facts_are_broken};
pub use names::{BoxName, ClassId, FieldId, MethodId};
pub use ty::{Base, Kind, Qualifier, Ty};
pub use value::Value;
pub use verified::{Frame, VType};
