//! The attributes of classes, fields, methods and code (JVMS 4.7), read and written exactly.
//!
//! Code, StackMapTable, Exceptions, ConstantValue and the four forms of annotations are read into parts where the
//! standard puts them; every other attribute, and one of these names elsewhere, is kept as its bytes. What was read
//! is written in the same bytes.
#![tactic(auto)]

mod attribute;
mod code_reading;
mod form;
mod info_reading;
mod laws;
pub mod parts;
mod reading;
mod writing;

pub use crate::parts::{AnnotationPart, AttributeFault, AttributeName, Frame, VerificationType};
pub use attribute::{Attribute, Code, CodeAttribute, CodeInfo, ExceptionHandler, Info, Place};
pub use laws::{attributes_are_cut_or_broken, attributes_are_spelled};
pub use reading::{read_again, read_all};
pub use writing::write_all;
