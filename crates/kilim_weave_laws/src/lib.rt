//! Laws of the woven form (kilim_weave_spec), and no code that does work: woven programs are well typed and keep what every program keeps.
#![tactic(auto)]

pub mod shape;
pub mod woven_program;
pub mod woven_programs;
pub mod woven_types;
