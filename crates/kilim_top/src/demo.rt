//! The demo: class files made from a number, and the program to which they link.

mod prepared;

pub use prepared::demo_ready;
