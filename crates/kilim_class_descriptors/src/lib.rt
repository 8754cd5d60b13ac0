//! Descriptors, the types of fields and methods in text (JVMS 4.3.2, 4.3.3), read exactly.
#![tactic(auto)]

mod fault;
mod fields;
mod methods;
mod types;

pub use fault::DescriptorFault;
pub use fields::{any_field, field};
pub use methods::{any_method, argument_slots, method};
pub use types::{BaseText, FieldText, MethodText};
