//! Classes and their members, linked: the lists of a program that some files are.
#![tactic(auto)]

mod body;
mod classes;
mod fields;
mod files;
pub mod frames;
mod methods;
mod tables;
mod types;

pub use classes::linked_class;
pub use fields::linked_field;
pub use files::{linked_classes, linked_fields, linked_methods};
pub use methods::linked_method;
