//! What reports mean, in terms of Java: sentences for each kind of fault, with what to write instead, and names as Java writes them.
#![tactic(auto)]

mod advice;
mod java;
mod left_out;
mod linking;
mod missing;
mod numbers;
mod rules;

pub use advice::Advice;
pub use java::{push_class, push_method, simple};
pub use linking::{class_advice, link_advice, main_advice, weave_advice};
pub use numbers::number;
pub use rules::{advice_of, name_of};
