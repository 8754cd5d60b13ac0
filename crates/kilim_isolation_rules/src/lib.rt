//! The isolation rules: what each instruction makes of a shape graph, or the rule that it breaks.
#![tactic(auto)]

mod action;
mod calls;
mod deed;
mod fields;
mod growth;
mod marks;
mod rules;
mod shuffles;
mod steps;

pub use deed::{Deed, Passed};
pub use growth::copied;
pub use marks::any_mixes;
pub use rules::{StepFault, deed_of, judge, raised_deed_of};
