//! The demo: class files made from a number.
#![tactic(auto)]

mod assembler;
mod draws;
mod files;
mod laws;
mod main_class;
mod node_class;
mod parts;
mod pool;
mod stage_class;
mod texts;

pub use draws::{Operation, Plan, Stage, plan_of};
pub use files::make;
pub use kilim_class_file::ClassFile;
pub use kilim_units::NoMemory;
pub use laws::demo_fits;
pub use texts::{make_texts, no_names};
