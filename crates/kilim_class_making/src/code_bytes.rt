//! Code as bytes (JVMS 4.7.3), each instruction at its place, where it is asked whether it has a text there.

mod writing;

pub use writing::code_bytes;
