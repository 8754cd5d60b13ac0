//! Class files that link well are a program: the facts of its classes and members. Definitions in `specs/`, and laws.
#![tactic(auto)]

pub mod code_laws;
mod laws;

pub use laws::{
    bared_agrees, built_in_is_last, each_is_named, fields_fit, members_are_owned, names_differ,
    none_is_both, none_is_its_ancestor, none_is_left_abstract, none_is_named_as_array,
    outline_agrees, outline_is_bared, overriding_agrees, own_classes_fit, superclasses_fit,
};
