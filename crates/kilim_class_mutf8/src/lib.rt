//! Modified UTF-8, the text of class files (JVMS 4.4.7), read and written exactly.
//!
//! U+0001 to U+007F take one byte, U+0000 and U+0080 to U+07FF two, every other UTF-16 unit three; a surrogate is
//! a unit by itself. A unit has one spelling: bytes that spell it otherwise are refused.
#![tactic(auto)]

mod fault;
mod reading;
mod unit;
mod writing;

pub use fault::TextFault;
pub use reading::read;
pub use writing::{one_spelling, units_are_spelled, write};
